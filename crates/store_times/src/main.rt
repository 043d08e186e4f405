// The program `store_times`: how long calls of a dictionary take, beside calls of an arena that do the same work by hand. Both
// are made in turn, round for round, on arenas of the same words, and of each the shortest time counts. The one word, if there
// is one, says how many rounds; without it there is one. Standard output has what the calls came to, standard error the
// times. It serves `bench/`, and nothing of it is promised but that it is safe.
#![tactic(auto, using(arena_core::proofs::Readiness::first_room, arena_core::proofs::Readiness::first_most))]

mod keys;
mod laps;
mod looks;
mod openings;
mod puts;

use crate::laps::Best;
use crate::looks::time_looks;
use crate::openings::time_openings;
use crate::puts::time_puts;
use anyhow::{Result, bail};
use std::alloc::Global;
use std::env;
use std::rt::Runtime;

const MOST_ROUNDS: u32 = 100_000;

fn main(rt: HostRuntime) -> Result<()> {
    let rounds = rounds_of(&rt)?;
    report_looks(&rt, rt.alloc(), rounds)?;
    report_puts(&rt, rt.alloc(), rounds)?;
    report_openings(&rt, rt.alloc(), rounds)
}

// How many rounds the words ask for.
fn rounds_of<R: Runtime>(rt: &R) -> Result<u32> {
    let mut words = env::args(rt)?.skip(1);
    let Some(word) = words.next() else {
        return Ok(1);
    };
    match word.as_str().parse() {
        Ok(rounds) if rounds <= MOST_ROUNDS && words.next().is_none() => Ok(rounds),
        _ => bail!("usage: store_times [ROUNDS], at most {MOST_ROUNDS}"),
    }
}

// A `get` beside a view of the root that has the pair.
fn report_looks<R: Runtime>(rt: &R, alloc: Global, rounds: u32) -> Result<()> {
    let (best, sums) = time_looks(rt, alloc, rounds)?;
    println!(rt; "get: sum {}, view: sum {}", sums.got, sums.viewed)?;
    write_times(rt, "get", "view of a known root", best)
}

// A put that replaces a key beside four calls of the arena.
fn report_puts<R: Runtime>(rt: &R, alloc: Global, rounds: u32) -> Result<()> {
    let best = time_puts(rt, alloc, rounds)?;
    println!(rt; "put: as by hand")?;
    write_times(rt, "put", "the same by hand", best)
}

// An opening beside an adoption.
fn report_openings<R: Runtime>(rt: &R, alloc: Global, rounds: u32) -> Result<()> {
    let (best, keys) = time_openings(rt, alloc, rounds)?;
    println!(rt; "open: {keys} keys")?;
    write_times(rt, "open", "adopt", best)
}

// Writes the times, and how many times as long the first is.
fn write_times<R: Runtime>(rt: &R, ours: &str, theirs: &str, best: Best) -> Result<()> {
    let (Some(dict), Some(arena)) = (best.dict, best.arena) else {
        bail!("clock fault, or no round");
    };
    let hundredths = 100 * u128::from(dict) / u128::from(arena.max(1));
    let (whole, part) = (hundredths / 100, hundredths % 100);
    eprintln!(rt; "{ours} {dict} ns, {theirs} {arena} ns, ratio {whole}.{part:02}")?;
    Ok(())
}
