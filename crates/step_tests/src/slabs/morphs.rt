// Slabs that take another class, on a simulated memory of 16 granules. The slab begins at granule 4.
ghost use Rattle.std.specs.Prelude.{◌≡◌, ◌*◌, ◌≤◌, length, IfOk};
ghost use Rattle.pmem_lines.specs.Events.{IsQuiet};
ghost use Rattle.pmem_lines.specs.Pmem.{words_of, HasRoom, IsZeroed};

use crate::steps::events::{flush, has_events, store};
use crate::values::same;
use durable_steps::write_word;
use pmem_lines::{Event, OutOfMemory, Pmem, SimPmem};
use rand_core::SeedableRng;
use rand_xoshiro::SplitMix64;
use size_classes::capacity;
use slab_header::{SlabState, bit_at, make_slab, put_bit, state_of};
use slab_morph::{finish_morph, finish_old, fit, morph, overlaps};
use std::alloc::Global;
use std::process::Abort;
use std::test::Fail;

const SLAB: u32 = 65536;
// Entry 0 of its index table.
const ENTRY: u32 = 66112;

// The blocks of a class that overlap an old one, where all three are in range.
fn overlapping(old: u8, number: u32, class: u8) -> Option<(u32, u32)> {
    if old < 36 && class < 36 && number < capacity(old) {
        Some(overlaps(old, number, class))
    } else {
        None
    }
}

// A block before the last of its class, blocks wider and narrower than the other's, a range that the capacity cuts off,
// and blocks behind the last of the other class.
#[test]
fn overlaps_by_hand(rt: HostRuntime) {
    let table = [
        (3, 0, 19, (0, 1)),
        (3, 16, 19, (1, 2)),
        (3, 991, 19, (61, 62)),
        (3, 767, 35, (2, 3)),
        (3, 768, 35, (3, 3)),
        (35, 0, 0, (0, 1024)),
        (35, 2, 33, (2, 4)),
        (34, 3, 33, (3, 5)),
        (34, 3, 31, (5, 7)),
        (3, 991, 2, (1321, 1322)),
        (0, 3967, 2, (1322, 1322)),
    ];
    for (old, number, class, expected) in table {
        assert_eq!(rt;
            overlapping(old, number, class),
            Some(expected),
            "of {number} of class {old} for {class}"
        );
    }
}

// Sets the bits of the first blocks, as far as there is room for the events.
fn put_bits<P: Pmem>(p: &mut P, count: u32)
    requires { 67584 ≤ 8 * length (words_of (P.state p.old)) }
    ensures { length (words_of (P.state p.new)) ≡ length (words_of (P.state p.old)) }
{
    for i in 0..count {
        if i < 4096 && p.left() >= 2 {
            put_bit(p, SLAB, i, true);
        }
    }
}

// Whether the slab is fit for a class. Nothing is said of a slab without a state.
fn is_fit<P: Pmem>(p: &P, class: u8) -> Option<bool>
    requires { 67584 ≤ 8 * length (words_of (P.state p.now)) }
{
    if class >= 36 {
        return None;
    }
    match state_of(p.load(SLAB)) {
        Some(_) => Some(fit(p, SLAB, class)),
        None => None,
    }
}

// Whether a slab of a class with so many blocks is fit for another class.
fn fit_with(alloc: Global, own: u8, count: u32, class: u8) -> Result<Option<bool>, OutOfMemory> {
    let mut device = SimPmem::zeroed(alloc, 4096, 400)?;
    Ok(fit_on(&mut device, own, count, class))
}

// The same on a memory of zeros.
fn fit_on(device: &mut SimPmem, own: u8, count: u32, class: u8) -> Option<bool>
    requires { IsZeroed device.old 4096 400 }
{
    if own >= 36 {
        return None;
    }
    make_slab(device, SLAB, own);
    put_bits(device, count);
    is_fit(device, class)
}

const BOUNDS: [(u8, u32, u8, bool); 24] = [
    (13, 33, 0, true),
    (13, 34, 0, false),
    (18, 14, 0, true),
    (18, 15, 0, false),
    (22, 7, 0, true),
    (22, 8, 0, false),
    (25, 4, 0, true),
    (25, 5, 0, false),
    (27, 3, 0, true),
    (27, 4, 0, false),
    (29, 2, 0, true),
    (29, 3, 0, false),
    (33, 1, 0, true),
    (33, 2, 0, false),
    (9, 64, 0, true),
    (9, 65, 0, false),
    (3, 64, 19, true),
    (3, 65, 19, false),
    (19, 12, 3, true),
    (19, 13, 3, false),
    (3, 1, 3, false),
    (34, 1, 0, false),
    (35, 1, 0, false),
    (34, 0, 0, true),
];

// Exactly a fifth of the capacity, and one more; 64 blocks, and one more; the slab's own class; and classes of which no
// block lives where five would fit.
#[test]
fn fit_at_the_bounds(rt: HostRuntime) -> Result<(), Fail> {
    for &(own, count, class, expected) in &BOUNDS {
        let answer = fit_with(rt.alloc(), own, count, class)?;
        assert_eq!(rt;
            answer,
            Some(expected),
            "{count} of class {own} for {class}"
        );
    }
    Ok(())
}

// Where each of the three blocks of class 35 is covered there is no room, though three blocks of class 3 are few.
#[test]
fn fit_where_there_is_room(rt: HostRuntime) -> Result<(), Fail> {
    let mut device = SimPmem::zeroed(rt.alloc(), 4096, 400)?;
    are_put_while_there_is_room(&rt, &mut device);
    Ok(())
}

fn are_put_while_there_is_room<R: Abort>(rt: &R, device: &mut SimPmem)
    requires { IsZeroed device.old 4096 400 }
{
    make_slab(device, SLAB, 3);
    for (number, expected) in [(0, true), (256, true), (512, false)] {
        if number < 4096 && device.left() >= 2 && device.size_words() >= 8448 {
            put_bit(device, SLAB, number, true);
            assert_eq!(rt; is_fit(device, 35), Some(expected), "with {number}");
        }
    }
}

// A slab with this state word and these bits of its first eight blocks.
fn slab_with(alloc: Global, state: u64, bits: u64) -> Result<SimPmem, OutOfMemory>
    ensures size { IfOk result (λ device. length (words_of device) ≡ 32768) }
    ensures quiet { IfOk result (λ device. IsQuiet device.events) }
    ensures room { IfOk result (λ device. HasRoom device 3) }
{
    let mut device = SimPmem::zeroed(alloc, 4096, 200)?;
    write_word(&mut device, SLAB, state);
    write_word(&mut device, 65600, bits);
    Ok(device)
}

// The slab takes a class, where it may and this is one of its blocks.
fn take_class<P: Pmem>(p: &mut P, class: u8, number: u32)
    requires inside { 67584 ≤ 8 * length (words_of (P.state p.old)) }
    requires quiet { IsQuiet (P.state p.old).events }
{
    if class >= 36 || p.left() < 152 {
        return;
    }
    if let Some(SlabState::Normal { class: own }) = state_of(p.load(SLAB)) {
        if own >= 36 || number >= capacity(own) {
            return;
        }
        if bit_at(p, SLAB, number) && fit(p, SLAB, class) {
            morph(p, SLAB, class);
        }
    }
}

// Block 0 alone is held. After event 4 the state word may be as before or say Morphing, and every image holds the block.
#[test]
fn class_3_takes_class_19(rt: HostRuntime) -> Result<(), Fail> {
    let mut device = slab_with(rt.alloc(), 0x0301, 1)?;
    take_class_19(&rt, rt.alloc(), &mut device)
}

fn take_class_19<R: Abort>(rt: &R, alloc: Global, device: &mut SimPmem) -> Result<(), Fail>
    requires size { length (words_of device.old) ≡ 32768 }
    requires quiet { IsQuiet device.old.events }
{
    device.begin();
    take_class(device, 19, 0);
    same(rt, &device.event_count(), &82);
    let events = [
        (0, store(ENTRY, 1)),
        (1, flush(1033)),
        (2, Event::Fence),
        (3, store(SLAB, 0x0103_1302)),
        (4, flush(1024)),
        (5, Event::Fence),
        (6, store(65600, 0)),
        (69, store(66104, 0)),
        (70, flush(1025)),
        (77, flush(1032)),
        (78, Event::Fence),
        (79, store(SLAB, 0x0103_1303)),
        (80, flush(1024)),
        (81, Event::Fence),
    ];
    has_events(rt, device, &events);
    for seed in 0..8u64 {
        if device.event_count() >= 4 {
            let mut picks = SplitMix64::from_seed(seed.to_le_bytes());
            let words = device.image(alloc, 4, &mut picks)?;
            holds_block_0(rt, &words);
        }
    }
    Ok(())
}

fn holds_block_0<R: Abort>(rt: &R, words: &[u64]) {
    let state = words.get(8192).copied();
    assert!(rt; state == Some(0x0301) || state == Some(0x0103_1302));
    same(
        rt,
        &(words.get(8200).copied(), words.get(8264).copied()),
        &(Some(1), Some(1)),
    );
}

// A slab on its way to its class comes to it.
fn arrive<P: Pmem>(p: &mut P)
    requires inside { 67584 ≤ 8 * length (words_of (P.state p.old)) }
    requires quiet { IsQuiet (P.state p.old).events }
    ensures { length (words_of (P.state p.new)) ≡ length (words_of (P.state p.old)) }
{
    if let Some(SlabState::Morphing { .. }) = state_of(p.load(SLAB)) {
        if p.left() >= 76 {
            finish_morph(p, SLAB);
        }
    }
}

// A slab whose one index entry is dead becomes normal.
fn settle<P: Pmem>(p: &mut P)
    requires inside { 67584 ≤ 8 * length (words_of (P.state p.old)) }
    requires quiet { IsQuiet (P.state p.old).events }
    ensures { length (words_of (P.state p.new)) ≡ length (words_of (P.state p.old)) }
{
    if let Some(SlabState::Morphed { entries, .. }) = state_of(p.load(SLAB)) {
        if entries == 1 && p.load(ENTRY) % 2 == 0 && p.left() >= 3 {
            finish_old(p, SLAB);
        }
    }
}

// Stray bits are gone once the slab is there, and the old class once no old block lives. In Morphing without a live entry
// it would be fit; with one it is not.
#[test]
fn a_transition_ends(rt: HostRuntime) -> Result<(), Fail> {
    end_on_its_way(&rt, rt.alloc())?;
    end_without_old_blocks(&rt, rt.alloc())
}

fn end_on_its_way<R: Abort>(rt: &R, alloc: Global) -> Result<(), Fail> {
    let mut device = slab_with(alloc, 0x0103_1302, 7)?;
    comes_to_its_class(rt, &mut device);
    Ok(())
}

fn comes_to_its_class<R: Abort>(rt: &R, device: &mut SimPmem)
    requires size { length (words_of device.old) ≡ 32768 }
    requires quiet { IsQuiet device.old.events }
    requires room { HasRoom device.old 3 }
{
    same(
        rt,
        &(is_fit(device, 0), is_fit(device, 19)),
        &(Some(true), Some(false)),
    );
    write_word(device, ENTRY, 1);
    same(rt, &is_fit(device, 0), &Some(false));
    device.begin();
    arrive(device);
    same(rt, &device.event_count(), &76);
}

fn end_without_old_blocks<R: Abort>(rt: &R, alloc: Global) -> Result<(), Fail> {
    let mut device = slab_with(alloc, 0x0103_1303, 0)?;
    becomes_normal(rt, &mut device);
    Ok(())
}

fn becomes_normal<R: Abort>(rt: &R, device: &mut SimPmem)
    requires size { length (words_of device.old) ≡ 32768 }
    requires quiet { IsQuiet device.old.events }
{
    device.begin();
    settle(device);
    same(rt, &(device.event_count(), device.load(SLAB)), &(3, 0x1301));
}
