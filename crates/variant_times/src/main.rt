// The program `variant_times`: how long the same work takes on arenas of the LOG variant and of the GC variant, in turn, round for
// round; of each the shortest time counts, and of calls that of each stretch of them. The word `calls` has the calls of a trace of one
// arena, without moves, made on either: standard output says how many calls there are and what they store, flush and fence in all. The
// word `recover` has an arena recovered of which each slab is full. A second word says how many rounds; without it there is one.
// Standard error has the times. It serves `bench/`, and nothing of it is promised but that it is safe.
#![tactic(auto)]

mod calls;
mod laps;
mod recoveries;
mod stored;

use crate::calls::call_laps;
use crate::laps::Best;
use crate::recoveries::recovery_laps;
use crate::stored::{Stored, stored_by};
use anyhow::{Result, bail};
use arena_core::Arena;
use gc_heap::GcArena;
use pmem_lines::SimPmem;
use std::alloc::Global;
use std::env;
use std::io::Read;
use std::rt::Runtime;
use trace_text::{Trace, read_still_trace};

const MOST_ROUNDS: u32 = 100_000;

// What is timed.
#[derive(Clone, Copy)]
enum Task {
    Calls,
    Recover,
}

fn main(rt: HostRuntime) -> Result<()> {
    let (task, rounds) = asked(&rt)?;
    match task {
        Task::Calls => {
            let trace = trace_of(rt.stdin(), rt.alloc())?;
            report_stored(&rt, rt.alloc(), &trace)?;
            write_times(&rt, "a call", call_laps(&rt, rt.alloc(), &trace, rounds)?)
        }
        Task::Recover => {
            let (best, blocks) = recovery_laps(&rt, rt.alloc(), rounds)?;
            println!(rt; "blocks {blocks}")?;
            write_times(&rt, "a recovery", best)
        }
    }
}

// What the words ask for, and how many rounds.
fn asked<R: Runtime>(rt: &R) -> Result<(Task, u32)> {
    let mut words = env::args(rt)?.skip(1);
    let Some(word) = words.next() else {
        bail!("usage: variant_times calls|recover [ROUNDS]");
    };
    let task = match word.as_str() {
        "calls" => Task::Calls,
        "recover" => Task::Recover,
        _ => bail!("usage: variant_times calls|recover [ROUNDS]"),
    };
    let Some(word) = words.next() else {
        return Ok((task, 1));
    };
    match word.as_str().parse() {
        Ok(rounds) if rounds <= MOST_ROUNDS => Ok((task, rounds)),
        _ => bail!("at most {MOST_ROUNDS} rounds"),
    }
}

// The trace of a reader's text.
fn trace_of<S: Read + Drop>(mut input: S, alloc: Global) -> Result<Trace> {
    let mut text = Vec::new(alloc);
    input.read_to_end(&mut text)?;
    match read_still_trace(alloc, &text) {
        Ok(trace) => Ok(trace),
        Err(_) => bail!("no trace without moves"),
    }
}

// Says what the calls of a trace store, flush and fence on either arena.
fn report_stored<R: Runtime>(rt: &R, alloc: Global, trace: &Trace) -> Result<()> {
    println!(rt; "calls {}", trace.calls.len())?;
    let log = stored_by::<Arena<SimPmem>>(alloc, trace)?;
    write_stored(rt, "log", log)?;
    let gc = stored_by::<GcArena<SimPmem>>(alloc, trace)?;
    write_stored(rt, "gc", gc)
}

fn write_stored<R: Runtime>(rt: &R, name: &str, stored: Stored) -> Result<()> {
    let stores = stored.stores;
    let flushes = stored.flushes;
    let fences = stored.fences;
    println!(rt; "{name} stores {stores} flushes {flushes} fences {fences}")?;
    Ok(())
}

// Writes the times, and how many times as long that of the GC variant is.
fn write_times<R: Runtime>(rt: &R, what: &str, best: Best) -> Result<()> {
    let (Some(log), Some(gc)) = (best.log, best.gc) else {
        bail!("clock fault, or no round");
    };
    let hundredths = 100 * u128::from(gc) / u128::from(log.max(1));
    let (whole, part) = (hundredths / 100, hundredths % 100);
    eprintln!(rt; "{what}: log {log} ns, gc {gc} ns, ratio {whole}.{part:02}")?;
    Ok(())
}
