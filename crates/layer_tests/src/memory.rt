// Images of a short list of events, by hand and by counting.
ghost use Rattle.std.specs.Prelude.{◌≡◌, ◌≤◌, IfOk, length};
ghost use Rattle.pmem_lines.specs.Pmem.{words_of};

use crate::values::same;
use pmem_lines::{Event, OutOfMemory, Pmem, SimPmem};
use rand_core::SeedableRng;
use rand_core::utils::NextWord;
use rand_xoshiro::SplitMix64;
use std::alloc::{AllocError, Global};
use std::process::Abort;
use std::test::Fail;

// A line's stores: how many there are, and how many stand before the last flush of it that a fence follows.
fn counts(events: &[Event], line: u32) -> (u32, u32) {
    let mut all = 0u32;
    let mut done = 0u32;
    for (i, event) in events.iter().enumerate() {
        match *event {
            Event::Store { at, value: _ } => {
                if at / 64 == line {
                    all = all.saturating_add(1);
                }
            }
            Event::Flush { line: flushed } => {
                if flushed == line && events[i..].contains(&Event::Fence) {
                    done = all;
                }
            }
            Event::Fence => {}
        }
    }
    (all, done)
}

// A store is done.
fn put(words: &mut [u64], at: u32, value: u64) {
    if let Some(word) = words.get_mut(at as usize / 8) {
        *word = value;
    }
}

// The first so many stores of a line are done.
fn store_first(words: &mut [u64], events: &[Event], line: u32, mut kept: u64) {
    for event in events {
        if let Event::Store { at, value } = *event {
            if at / 64 == line && kept > 0 {
                kept -= 1;
                put(words, at, value);
            }
        }
    }
}

// A memory of three lines, with room for twelve events, of which six are done.
fn six_events(alloc: Global, base: &[u64; 24]) -> Result<SimPmem, OutOfMemory>
    ensures size { IfOk result (λ device. length (words_of device) ≡ 24) }
    ensures count { IfOk result (λ device. length device.events ≡ 6) }
    ensures room { IfOk result (λ device. device.room ≡ 12) }
{
    let mut device = SimPmem::from_image(alloc, base, 12)?;
    device.begin();
    device.store(0, 1);
    device.store(8, 2);
    device.flush(0);
    device.store(64, 3);
    device.fence();
    device.store(0, 4);
    Ok(device)
}

// For each number of events: words 0 and 1 of line 0, and word 8 of line 1. From seed 0 the first word that is drawn
// leaves 1 at a division by 2 and by 3, and the second leaves 0 by 2.
#[test]
fn images_by_hand(rt: HostRuntime) -> Result<(), Fail> {
    let device = six_events(rt.alloc(), &[0; 24])?;
    leaves_these_images(&rt, rt.alloc(), &device)
}

fn leaves_these_images<R: Abort>(rt: &R, alloc: Global, device: &SimPmem) -> Result<(), Fail>
    requires size { length (words_of device.now) ≡ 24 }
    requires count { length device.now.events ≡ 6 }
{
    same(
        rt,
        &(device.load(0), device.load(8), device.load(64)),
        &(4, 2, 3),
    );
    let table = [
        (0, 0, 0, 0),
        (1, 1, 0, 0),
        (2, 1, 0, 0),
        (3, 1, 0, 0),
        (4, 1, 0, 0),
        (5, 1, 2, 3),
        (6, 4, 2, 0),
    ];
    for (k, first, second, eighth) in table {
        let mut picks = SplitMix64::from_seed([0; 8]);
        let words = device.image(alloc, k, &mut picks)?;
        assert_eq!(rt;
            (words[0], words[1], words[8]),
            (first, second, eighth),
            "after {k}"
        );
    }
    Ok(())
}

// Each line is counted by a search of its own, and is written in a pass of its own.
#[test]
fn images_by_counting(rt: HostRuntime) -> Result<(), Fail> {
    let base = [9u64; 24];
    let mut device = six_events(rt.alloc(), &base)?;
    leaves_counted_images(&rt, rt.alloc(), &mut device, base)
}

// Six more events are done, and the images after each number of events are compared.
fn leaves_counted_images<R: Abort>(
    rt: &R,
    alloc: Global,
    device: &mut SimPmem,
    base: [u64; 24],
) -> Result<(), Fail>
    requires size { length (words_of device.old) ≡ 24 }
    requires count { length device.old.events ≡ 6 }
    requires room { device.old.room ≡ 12 }
{
    device.flush(1);
    device.store(64, 5);
    device.store(128, 6);
    device.flush(2);
    device.fence();
    device.flush(0);
    for k in 0..=device.event_count() {
        leaves_those_after(rt, alloc, device, base, k)?;
    }
    Ok(())
}

// The images after the first so many events.
fn leaves_those_after<R: Abort>(
    rt: &R,
    alloc: Global,
    device: &SimPmem,
    base: [u64; 24],
    k: u32,
) -> Result<(), Fail>
    requires { k ≤ length device.now.events }
{
    let first = first_events(alloc, device, k)?;
    leaves_those_of(rt, alloc, device, base, k, &first)
}

// The first so many events.
fn first_events(alloc: Global, device: &SimPmem, k: u32) -> Result<Vec<Event>, AllocError>
    requires { k ≤ length device.now.events }
{
    let mut first = Vec::new(alloc);
    for i in 0..k {
        first.push(device.event(i))?;
    }
    Ok(first)
}

// The images after the first k events, which are these.
fn leaves_those_of<R: Abort>(
    rt: &R,
    alloc: Global,
    device: &SimPmem,
    base: [u64; 24],
    k: u32,
    first: &[Event],
) -> Result<(), Fail>
    requires { k ≤ length device.now.events }
{
    for seed in 0..6u64 {
        let mut picks = SplitMix64::from_seed(seed.to_le_bytes());
        let words = device.image(alloc, k, &mut picks)?;
        let want = counted_image(base, first, seed);
        assert_eq!(rt; words.as_slice(), want.as_slice(), "seed {seed}, after {k}");
    }
    Ok(())
}

// The image by counting.
fn counted_image(base: [u64; 24], first: &[Event], seed: u64) -> [u64; 24] {
    let mut drawn = SplitMix64::from_seed(seed.to_le_bytes());
    let mut want = base;
    for line in 0..3 {
        let (all, done) = counts(first, line);
        let mut kept = u64::from(done);
        if done < all {
            kept += drawn.next_word() % (u64::from(all - done) + 1);
        }
        store_first(&mut want, first, line, kept);
    }
    want
}

// The largest memory of zeros, and one of as many words as the largest arena has: its last word, before and after a
// crash that keeps no store of it.
#[test]
fn largest_memories(rt: HostRuntime) -> Result<(), Fail> {
    has_the_most_zeros(&rt, rt.alloc())?;
    has_the_most_words(&rt, rt.alloc())
}

fn has_the_most_zeros<R: Abort>(rt: &R, alloc: Global) -> Result<(), Fail> {
    let zeroed = SimPmem::zeroed(alloc, 1_048_576, 2048)?;
    same(
        rt,
        &(zeroed.size_words(), zeroed.room(), zeroed.load(67_108_856)),
        &(8_388_608, 2048, 0),
    );
    Ok(())
}

fn has_the_most_words<R: Abort>(rt: &R, alloc: Global) -> Result<(), Fail> {
    let base = vec![in alloc; 9u64; 2_097_152]?;
    is_made_of(rt, alloc, &base)
}

// A memory with these words has them before and after a crash.
fn is_made_of<R: Abort>(rt: &R, alloc: Global, base: &[u64]) -> Result<(), Fail>
    requires { length base.now ≡ 2097152 }
{
    let device = SimPmem::from_image(alloc, base, 2048)?;
    keeps_its_words(rt, alloc, &device, base)
}

fn keeps_its_words<R: Abort>(
    rt: &R,
    alloc: Global,
    device: &SimPmem,
    base: &[u64],
) -> Result<(), Fail>
    requires { length (words_of device.now) ≡ 2097152 }
{
    same(rt, &device.load(16_777_208), &9);
    let mut picks = SplitMix64::from_seed([0; 8]);
    let words = device.image(alloc, 0, &mut picks)?;
    assert!(rt; words.as_slice() == base);
    Ok(())
}
