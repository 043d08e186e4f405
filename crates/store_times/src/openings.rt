// A dictionary is opened, and an arena adopted, of the same words.

use crate::keys::arena_with;
use crate::laps::{Best, clock, each};
use anyhow::Result;
use arena_core::{Arena, ArenaRoom};
use attach_dict::Dict;
use pmem_lines::{OutOfMemory, SimPmem};
use std::alloc::Global;
use std::time::Clock;

// Every root but the stage has a pair.
const KEYS: u32 = 4095;

/// An opening of an arena with 4,095 keys, beside an adoption of its memory; and how many keys the last opening found, 0 where
/// there was none.
pub(crate) fn time_openings<C: Clock>(rt: &C, alloc: Global, rounds: u32) -> Result<(Best, u32)> {
    let arena = arena_with(alloc, KEYS)?;
    Ok(opening_laps(rt, alloc, arena, rounds)?)
}

// Both in turn, so many times, and the keys of the last opening.
fn opening_laps<C: Clock>(
    rt: &C,
    alloc: Global,
    mut arena: Arena<SimPmem>,
    rounds: u32,
) -> Result<(Best, u32), OutOfMemory> {
    let mut best = Best::new();
    let mut keys = 0;
    for _ in 0..rounds {
        let (kept, opened, found) = open(rt, alloc, arena);
        let (again, adopted) = adopt(rt, alloc, kept)?;
        arena = again;
        keys = found;
        best = best.or(opened, adopted);
    }
    drop(arena);
    Ok((best, keys))
}

// How long an opening takes, if it comes to a dictionary, and the arena and the number of keys.
fn open<C: Clock>(
    rt: &C,
    alloc: Global,
    arena: Arena<SimPmem>,
) -> (Arena<SimPmem>, Option<u64>, u32) {
    let begun = clock(rt);
    match Dict::open(alloc, arena) {
        Ok(dict) => {
            let ended = clock(rt);
            let keys = dict.len();
            (dict.into_arena(), each(begun, ended, 1), keys)
        }
        Err((_, arena)) => (arena, None, 0),
    }
}

// How long an adoption takes, and the arena.
fn adopt<C: Clock>(
    rt: &C,
    alloc: Global,
    arena: Arena<SimPmem>,
) -> Result<(Arena<SimPmem>, Option<u64>), OutOfMemory> {
    match ArenaRoom::new(alloc, arena.granules()) {
        Ok(room) => {
            let device = arena.into_pmem();
            let begun = clock(rt);
            let arena = Arena::adopt(room, device);
            let ended = clock(rt);
            Ok((arena, each(begun, ended, 1)))
        }
        Err(error) => {
            drop(arena);
            Err(error)
        }
    }
}
