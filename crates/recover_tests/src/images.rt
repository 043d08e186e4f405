// What becomes of images.
ghost use Rattle.std.specs.Prelude.{◌≡◌, ◌≤◌, ◌%◌, length};

use crate::values::same;
use arena_core::{Arena, Freed, Moved, Placed};
use check_tests::{Base, Became, Put, image, image_under, recovered_to, was_refused};
use heap_model::Block;
use pmem_lines::{OutOfMemory, SimPmem};
use rand_core::SeedableRng;
use rand_xoshiro::SplitMix64;
use recover::{RecoverFault, recover};
use std::alloc::Global;
use std::process::Abort;
use std::test::Fail;

/// The events that a device has room for which may be of any version.
pub const ROOM: u32 = 4096;

/// The image of the words of two rows is recovered, and its words are compared with those of a third row over it.
pub fn recovered(
    alloc: Global,
    base: &Base,
    changes: &[Put],
    after: &[Put],
) -> Result<Became, OutOfMemory> {
    let wanted = image_under(alloc, base, changes, after)?;
    compared(alloc, base, changes, &wanted)
}

// The image of the words of two rows is recovered, and its words are compared with these.
fn compared(
    alloc: Global,
    base: &Base,
    changes: &[Put],
    wanted: &[u64],
) -> Result<Became, OutOfMemory> {
    let before = image(alloc, base, changes)?;
    recovery_of(alloc, &before, wanted)
}

// What becomes of words, where these are wanted.
fn recovery_of(alloc: Global, before: &[u64], wanted: &[u64]) -> Result<Became, OutOfMemory>
    requires whole { length before.now % 8 ≡ 0 }
    requires some { 8 ≤ length before.now }
    requires few { length before.now ≤ 8388608 }
{
    let device = SimPmem::from_image(alloc, before, ROOM)?;
    match recover(alloc, device) {
        Ok(arena) => {
            let became = recovered_to(arena.pmem(), wanted);
            drop(arena);
            Ok(became)
        }
        Err((fault, device)) => {
            let refused = refused_by(fault, &device, before);
            drop(device);
            refused
        }
    }
}

// A device that was refused, if it was not memory that lacked.
fn refused_by(
    fault: RecoverFault,
    device: &SimPmem,
    before: &[u64],
) -> Result<Became, OutOfMemory> {
    match fault {
        RecoverFault::Memory(error) => Err(error),
        RecoverFault::Defect(defect) => Ok(was_refused(device, before, defect)),
    }
}

/// The arena that is recovered from these words. `None` where they are not sound.
pub fn arena_of(alloc: Global, words: &[u64]) -> Result<Option<Arena<SimPmem>>, OutOfMemory>
    requires whole { length words.now % 8 ≡ 0 }
    requires some { 8 ≤ length words.now }
    requires few { length words.now ≤ 8388608 }
{
    let device = SimPmem::from_image(alloc, words, ROOM)?;
    match recover(alloc, device) {
        Ok(arena) => Ok(Some(arena)),
        Err((RecoverFault::Memory(error), _)) => Err(error),
        Err((RecoverFault::Defect(_), _)) => Ok(None),
    }
}

// The arena that is recovered from the words of two rows. `None` where they are not sound.
fn arena_with(
    alloc: Global,
    base: &Base,
    changes: &[Put],
) -> Result<Option<Arena<SimPmem>>, OutOfMemory> {
    arena_of(alloc, &image(alloc, base, changes)?)
}

/// What is changed in an image, what is then changed by recovery, and by how many events.
pub type Row<'a> = (&'a [Put], &'a [Put], u32);

/// The image of each row becomes exact, with the words and by the events that the row has.
pub fn all_become<R: Abort>(rt: &R, alloc: Global, base: &Base, rows: &[Row]) -> Result<(), Fail> {
    for (changes, after, events) in rows {
        same(
            rt,
            &recovered(alloc, base, changes, after)?,
            &Became::Wanted { events: *events },
        );
    }
    Ok(())
}

/// A block that is given out at an address.
pub fn placed(at: u32, size: u32) -> Option<Placed> {
    Some(Placed { at, size })
}

/// A block at an address that goes.
pub fn freed(at: u32, size: u32) -> Option<Freed> {
    Some(Freed { at, size })
}

/// What an arena has at a root, and where it puts a block of another.
pub type Held = (Option<Block>, Option<Placed>);

fn holds(arena: &mut Arena<SimPmem>, held: u32, root: u32, size: u64) -> Held {
    let block = arena.block(held);
    (block, arena.malloc_to(0, root, size).ok())
}

/// The same of the arena that is recovered from the words of two rows. `None` where they are not sound.
pub fn goes_on(
    alloc: Global,
    base: &Base,
    changes: &[Put],
    held: u32,
    root: u32,
    size: u64,
) -> Result<Option<Held>, OutOfMemory> {
    match arena_with(alloc, base, changes)? {
        Some(mut arena) => Ok(Some(holds(&mut arena, held, root, size))),
        None => Ok(None),
    }
}

/// What an arena answers to a malloc, a free behind it, and the same malloc for another root and for an eighth one; and how
/// many events the free has.
#[derive(Clone, Copy, Debug, PartialEq, Eq)]
pub struct Answered {
    pub before: Option<Placed>,
    pub freed: Option<Freed>,
    pub events: u32,
    pub next: Option<Placed>,
    pub eighth: Option<Placed>,
}

// An arena gives root 3 so many bytes, frees the block of a root, and gives the roots 4 to 11 as many.
fn frees_between(arena: &mut Arena<SimPmem>, root: u32, size: u64) -> Answered {
    let before = arena.malloc_to(0, 3, size).ok();
    let freed = arena.free_from(0, root).ok();
    let events = arena.pmem().event_count();
    let next = arena.malloc_to(0, 4, size).ok();
    for root in 5..11 {
        let _ = arena.malloc_to(0, root, size);
    }
    let eighth = arena.malloc_to(0, 11, size).ok();
    Answered {
        before,
        freed,
        events,
        next,
        eighth,
    }
}

/// So does the arena that is recovered from the words of a row. `None` where they are not sound.
pub fn answers(
    alloc: Global,
    base: &Base,
    root: u32,
    size: u64,
) -> Result<Option<Answered>, OutOfMemory> {
    match arena_with(alloc, base, &[])? {
        Some(mut arena) => Ok(Some(frees_between(&mut arena, root, size))),
        None => Ok(None),
    }
}

/// What an arena answers to a move, and to a free by the root that the block came to; and how many events each has.
#[derive(Clone, Copy, Debug, PartialEq, Eq)]
pub struct Passed {
    pub moved: Option<Moved>,
    pub moving: u32,
    pub freed: Option<Freed>,
    pub freeing: u32,
}

// An arena moves a root's block to another, from which it is freed.
fn moves_and_frees(arena: &mut Arena<SimPmem>, from: u32, to: u32) -> Passed {
    let moved = arena.move_to(from, to).ok();
    let moving = arena.pmem().event_count();
    let freed = arena.free_from(0, to).ok();
    let freeing = arena.pmem().event_count();
    Passed {
        moved,
        moving,
        freed,
        freeing,
    }
}

/// So does the arena that is recovered from the words of a row. `None` where they are not sound.
pub fn passes(
    alloc: Global,
    base: &Base,
    from: u32,
    to: u32,
) -> Result<Option<Passed>, OutOfMemory> {
    match arena_with(alloc, base, &[])? {
        Some(mut arena) => Ok(Some(moves_and_frees(&mut arena, from, to))),
        None => Ok(None),
    }
}

/// The address of the block of a root, 0 for none.
fn at_of(arena: &Arena<SimPmem>, root: u32) -> u32 {
    match arena.block(root) {
        Some(block) => block.at,
        None => 0,
    }
}

// The same of two roots.
fn both_at(arena: &Arena<SimPmem>, one: u32, other: u32) -> (u32, u32) {
    (at_of(arena, one), at_of(arena, other))
}

/// The addresses of the blocks of two roots, 0 for none, in an arena that was recovered from an image. `None` where that is
/// not sound.
fn both_of(
    alloc: Global,
    words: &[u64],
    one: u32,
    other: u32,
) -> Result<Option<(u32, u32)>, OutOfMemory> {
    if words.is_empty() || words.len() > 8_388_608 || words.len() % 8 != 0 {
        return Ok(None);
    }
    match arena_of(alloc, words)? {
        Some(arena) => Ok(Some(both_at(&arena, one, other))),
        None => Ok(None),
    }
}

/// What recovery finds at two roots once a crash came after the first `k` events of the move from the one to the other, in
/// an arena that was recovered from the words of a row.
pub fn crash_in_a_move(
    alloc: Global,
    base: &Base,
    from: u32,
    to: u32,
    k: u32,
    seed: u64,
) -> Result<Option<(u32, u32)>, OutOfMemory> {
    match arena_with(alloc, base, &[])? {
        Some(mut arena) => {
            let both = cut_off(alloc, &mut arena, from, to, k, seed);
            drop(arena);
            both
        }
        None => Ok(None),
    }
}

// The same of an arena that is at hand.
fn cut_off(
    alloc: Global,
    arena: &mut Arena<SimPmem>,
    from: u32,
    to: u32,
    k: u32,
    seed: u64,
) -> Result<Option<(u32, u32)>, OutOfMemory> {
    if arena.move_to(from, to).is_err() || k > arena.pmem().event_count() {
        return Ok(None);
    }
    let mut picks = SplitMix64::from_seed(seed.to_le_bytes());
    let left = arena.pmem().image(alloc, k, &mut picks)?;
    both_of(alloc, &left, from, to)
}
