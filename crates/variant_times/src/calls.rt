// The calls of a trace on an arena of either variant.

use crate::laps::{Best, clock, took};
use arena_core::Arena;
use arena_variants::Variant;
use gc_heap::GcArena;
use pmem_lines::{OutOfMemory, SimPmem};
use std::alloc::{AllocError, Global};
use std::time::Clock;
use trace_text::{Trace, TraceCall};

// How many calls are timed at once. A short stretch ends before other work takes the processor, in one of the rounds.
const STRETCH: usize = 4096;

/// All calls on an arena of either variant in turn, so many times: how long a call takes, where of each stretch of calls the shortest
/// time counts.
pub(crate) fn call_laps<C: Clock>(
    rt: &C,
    alloc: Global,
    trace: &Trace,
    rounds: u32,
) -> Result<Best, OutOfMemory> {
    let stretches = trace.calls.len().div_ceil(STRETCH);
    let mut log = no_times(alloc, stretches)?;
    let mut gc = no_times(alloc, stretches)?;
    for _ in 0..rounds {
        call_lap::<C, Arena<SimPmem>>(rt, alloc, trace, &mut log)?;
        call_lap::<C, GcArena<SimPmem>>(rt, alloc, trace, &mut gc)?;
    }
    Ok(Best {
        log: each(&log, trace.calls.len()),
        gc: each(&gc, trace.calls.len()),
    })
}

// For each stretch no time yet, which is longer than any.
fn no_times(alloc: Global, stretches: usize) -> Result<Vec<u64>, AllocError> {
    vec![in alloc; u64::MAX; stretches]
}

// The calls on a new arena.
fn call_lap<C: Clock, V: Variant>(
    rt: &C,
    alloc: Global,
    trace: &Trace,
    least: &mut [u64],
) -> Result<(), OutOfMemory> {
    let mut arena = V::new_arena(alloc, 1, trace.granules)?;
    lap(rt, &mut arena, &trace.calls, least);
    Ok(())
}

// The same on one that is lent. The times of stretches are those that are shorter.
fn lap<C: Clock, V: Variant>(rt: &C, arena: &mut V, calls: &[TraceCall], least: &mut [u64]) {
    for (stretch, time) in calls.chunks(STRETCH).zip(least.iter_mut()) {
        let begun = clock(rt);
        make_all(arena, stretch);
        let ended = clock(rt);
        *time = (*time).min(took(begun, ended).unwrap_or(u64::MAX));
    }
}

fn make_all<V: Variant>(arena: &mut V, calls: &[TraceCall]) {
    for call in calls {
        arena.make(call.thread, call.call);
    }
}

// How long each of so many calls takes, of which these are the times of all stretches. `None` where one was not timed.
fn each(least: &[u64], calls: usize) -> Option<u64> {
    let mut all: u64 = 0;
    for time in least {
        if *time == u64::MAX {
            return None;
        }
        all = all.saturating_add(*time);
    }
    Some(all / (calls as u64).max(1))
}
