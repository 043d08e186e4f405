// Recovery of an arena of either variant of which each slab is full.

use crate::laps::{Best, clock, took};
use anyhow::{Result, bail};
use arena_core::Arena;
use arena_variants::{Variant, device_of};
use gc_heap::GcArena;
use heap_model::Call;
use pmem_lines::{Pmem, SimPmem};
use std::alloc::Global;
use std::time::Clock;

// The granules of the largest arena. Slabs take all but the first four, 15 blocks of 4096 bytes each.
const GRANULES: u32 = 1024;

const BLOCKS: u32 = 3825;

const SIZE: u64 = 4096;

/// Both are recovered in turn, so many times: the shortest times, and how many blocks each has.
pub(crate) fn recovery_laps<C: Clock>(rt: &C, alloc: Global, rounds: u32) -> Result<(Best, u32)> {
    let log = full_memory::<Arena<SimPmem>>(alloc)?;
    let gc = full_memory::<GcArena<SimPmem>>(alloc)?;
    let mut best = Best::new();
    for _ in 0..rounds {
        let by_log = recovery_lap::<C, Arena<SimPmem>>(rt, alloc, &log)?;
        let by_gc = recovery_lap::<C, GcArena<SimPmem>>(rt, alloc, &gc)?;
        best = best.or(by_log, by_gc);
    }
    Ok((best, BLOCKS))
}

// The words of an arena whose slabs are full.
fn full_memory<V: Variant>(alloc: Global) -> Result<Vec<u64>> {
    let mut arena = V::new_arena(alloc, 1, GRANULES)?;
    fill(&mut arena);
    let device = arena.device();
    Ok(device.words(0, device.size_words()).to_vec(alloc)?)
}

// Each root gets a block.
fn fill<V: Variant>(arena: &mut V) {
    for root in 0..BLOCKS {
        arena.make(0, Call::Malloc { root, size: SIZE });
    }
}

// How long a recovery of these words takes.
fn recovery_lap<C: Clock, V: Variant>(rt: &C, alloc: Global, words: &[u64]) -> Result<Option<u64>> {
    let Some(device) = device_of(alloc, words)? else {
        bail!("no whole lines");
    };
    let begun = clock(rt);
    let recovered = V::recovered(alloc, device)?;
    let ended = clock(rt);
    match recovered {
        Some(arena) if has_all(&arena) => Ok(took(begun, ended)),
        _ => bail!("it was not recovered"),
    }
}

// The last root has a block.
fn has_all<V: Variant>(arena: &V) -> bool {
    arena.named(BLOCKS - 1).is_some()
}
