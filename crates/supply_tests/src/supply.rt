// A supply of small blocks: rows that were worked by hand.
ghost use Rattle.std.specs.Prelude.{◌≡◌, ◌<◌, ◌≤◌, true, IfOk};
ghost use Rattle.block_supply.specs.Supply.{IsClearOf};

use crate::values::same;
use block_supply::{BlockSupply, SlabBlock};
use pmem_lines::OutOfMemory;
use size_classes::capacity;
use std::alloc::Global;
use std::process::Abort;
use std::test::Fail;

// How many granules there are.
const GRANULES: u32 = 24;

// Block `number` of the slab at a granule.
fn some(start: u32, number: u32) -> Option<SlabBlock> {
    Some(SlabBlock { start, number })
}

// There is a slab at the granule that has a block of this number, and it is open.
fn is_open(supply: &BlockSupply, start: u32, number: u32) -> bool {
    match supply.class_at(start) {
        Some(class) => number < capacity(class) && supply.is_open(start, number),
        None => false,
    }
}

// Brings a block back for a seat where it is not open. Whether it was not.
fn put_back(supply: &mut BlockSupply, seat: u32, start: u32, number: u32) -> bool
    requires { seat < 64 }
    ensures { supply.new.slabs.granules ≡ supply.old.slabs.granules }
{
    if let Some(class) = supply.class_at(start) {
        if number < capacity(class) && !supply.is_open(start, number) {
            supply.put_back(seat, SlabBlock { start, number });
            return true;
        }
    }
    false
}

// Makes a block available where it is not open. Whether it was not.
fn make_available(supply: &mut BlockSupply, start: u32, number: u32) -> bool
    ensures { supply.new.slabs.granules ≡ supply.old.slabs.granules }
{
    if let Some(class) = supply.class_at(start) {
        if number < capacity(class) && !supply.is_open(start, number) {
            supply.make_available(start, number);
            return true;
        }
    }
    false
}

// No slab has one of four granules.
fn is_clear(supply: &BlockSupply, start: u32) -> bool
    requires { start < 4096 }
    ensures { result ≡ true → IsClearOf supply.now start }
{
    supply.slab_with(start).is_none() && supply.slab_with(start + 3).is_none()
}

// Adds a slab of which some blocks are open, where four granules are in none. Whether they are.
fn add_used(supply: &mut BlockSupply, start: u32, class: u8, word: u64) -> bool
    requires inside { start < supply.old.slabs.granules }
    requires few { supply.old.slabs.granules ≤ 4096 }
    requires class { class < 36 }
    ensures { supply.new.slabs.granules ≡ supply.old.slabs.granules }
{
    if supply.class_at(start).is_some() || !is_clear(supply, start) {
        return false;
    }
    if word == 0 {
        supply.add(start, class);
    } else {
        let mut used = [0; 64];
        used[0] = word;
        supply.add_used(start, class, &used);
    }
    true
}

// A supply of one slab, at granule 4.
fn with_slab(alloc: Global, class: u8) -> Result<BlockSupply, OutOfMemory>
    requires { class < 36 }
    ensures { IfOk result (λ supply. supply.slabs.granules ≡ 24) }
{
    let mut supply = BlockSupply::new(alloc, GRANULES)?;
    add_used(&mut supply, 4, class, 0);
    Ok(supply)
}

// Of ten blocks seat 0 takes the first and has seven in its stack. Seat 1 takes the two that are left, and then the top of
// seat 0's stack. A new slab goes before that stack.
#[test]
fn by_each_way(rt: HostRuntime) -> Result<(), Fail> {
    let mut supply = with_slab(rt.alloc(), 29)?;
    takes_by_each_way(&rt, &mut supply);
    Ok(())
}

fn takes_by_each_way<R: Abort>(rt: &R, supply: &mut BlockSupply)
    requires { supply.old.slabs.granules ≡ 24 }
{
    for (seat, number) in [(0, 0), (1, 8), (1, 9), (1, 1), (0, 2), (63, 3)] {
        assert_eq!(rt; supply.take(seat, 29), some(4, number), "for {seat}");
    }
    same(rt, &(supply.take(0, 28), supply.take(0, 30)), &(None, None));
    assert!(rt; add_used(supply, 8, 29, 0));
    for (seat, start, number) in [(1, 8, 0), (0, 4, 4), (1, 8, 1), (63, 8, 8), (63, 8, 9)] {
        assert_eq!(rt; supply.take(seat, 29), some(start, number), "for {seat}");
    }
    for number in [5, 6, 7] {
        same(rt, &supply.take(63, 29), &some(4, number));
    }
    for number in [2, 3, 4, 5, 6, 7] {
        same(rt, &supply.take(2, 29), &some(8, number));
    }
    same(rt, &supply.take(1, 29), &None);
}

// Nine are taken, and seven are in the stack: an eighth block goes there, and a ninth is available.
#[test]
fn at_seven_and_at_eight(rt: HostRuntime) -> Result<(), Fail> {
    let mut supply = with_slab(rt.alloc(), 3)?;
    puts_back_an_eighth_and_a_ninth(&rt, &mut supply);
    Ok(())
}

fn puts_back_an_eighth_and_a_ninth<R: Abort>(rt: &R, supply: &mut BlockSupply) {
    for number in 0..9 {
        same(rt, &supply.take(0, 3), &some(4, number));
    }
    for number in [0, 1, 5] {
        assert!(rt; !is_open(supply, 4, number));
        assert!(rt; put_back(supply, 0, 4, number));
        assert!(rt; is_open(supply, 4, number));
    }
    for (seat, number) in [(1, 1), (1, 5), (0, 0), (0, 9), (1, 16)] {
        assert_eq!(rt; supply.take(seat, 3), some(4, number), "for {seat}");
    }
}

// A block that is made available is on no stack, and the lowest one is taken next.
#[test]
fn is_made_available(rt: HostRuntime) -> Result<(), Fail> {
    let mut supply = with_slab(rt.alloc(), 3)?;
    takes_what_is_made_available(&rt, &mut supply);
    Ok(())
}

fn takes_what_is_made_available<R: Abort>(rt: &R, supply: &mut BlockSupply) {
    same(rt, &supply.take(0, 3), &some(4, 0));
    same(rt, &supply.take(0, 3), &some(4, 1));
    assert!(rt; make_available(supply, 4, 1));
    assert!(rt; !make_available(supply, 4, 2));
    for (seat, number) in [(0, 2), (1, 1), (1, 8)] {
        assert_eq!(rt; supply.take(seat, 3), some(4, number), "for {seat}");
    }
}

// Of four blocks the second and the fourth are open.
#[test]
fn is_added_with_used_blocks(rt: HostRuntime) -> Result<(), Fail> {
    let mut supply = BlockSupply::new(rt.alloc(), GRANULES)?;
    takes_beside_used_blocks(&rt, &mut supply);
    Ok(())
}

fn takes_beside_used_blocks<R: Abort>(rt: &R, supply: &mut BlockSupply)
    requires { supply.old.slabs.granules ≡ 24 }
{
    assert!(rt; add_used(supply, 20, 34, 0b0101));
    assert!(rt; !is_open(supply, 20, 0) && is_open(supply, 20, 1));
    assert!(rt; !is_open(supply, 20, 2) && is_open(supply, 20, 3));
    for (seat, number) in [(0, 1), (1, 3)] {
        assert_eq!(rt; supply.take(seat, 34), some(20, number), "for {seat}");
    }
    same(rt, &supply.take(0, 34), &None);
    assert!(rt; put_back(supply, 0, 20, 2));
    same(rt, &supply.take(1, 34), &some(20, 2));
}

// Two seats have blocks of two slabs of three blocks in their stacks. One slab goes, and those of the other stay.
#[test]
fn a_slab_is_purged(rt: HostRuntime) -> Result<(), Fail> {
    let mut supply = with_slab(rt.alloc(), 35)?;
    takes_where_a_slab_goes(&rt, &mut supply);
    Ok(())
}

fn takes_where_a_slab_goes<R: Abort>(rt: &R, supply: &mut BlockSupply)
    requires { supply.old.slabs.granules ≡ 24 }
{
    assert!(rt; add_used(supply, 8, 35, 0));
    same(rt, &supply.take(0, 35), &some(4, 0));
    same(rt, &supply.take(63, 35), &some(8, 0));
    assert!(rt; put_back(supply, 0, 8, 0));
    same(rt, &supply.take(63, 35), &some(8, 1));
    assert!(rt; put_back(supply, 63, 4, 0));
    if supply.class_at(4).is_some() {
        supply.remove(4);
    }
    same(
        rt,
        &(supply.class_at(4), supply.class_at(8)),
        &(None, Some(35)),
    );
    for want in [some(8, 0), some(8, 2), None] {
        same(rt, &supply.take(0, 35), &want);
    }
}
