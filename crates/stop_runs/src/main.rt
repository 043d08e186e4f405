// The program `stop_runs`: stops an arena at the events of scripts of calls, recovers what each stop leaves, and prints a line
// for each script, with how many events its calls have, at how many the calls were stopped, and how many images were
// recovered. At the first image that is not recovered to a heap that it may have it ends with status 1, and says on standard
// error which one it was.
//
// The words are `brief` or `whole`, and a script's name or none, which is for all. `scripts` has the scripts, of which
// `full_arena` draws one, `stopping` makes their calls and stops these, and `heaps` has what is compared. The arenas are those of
// `arena_variants`: behind `gc-` a name is that of the same script on an arena of the GC variant. `stores` does so with the
// scripts of a dictionary that `store_scripts` has, and compares maps. That each image is recovered to one of the two heaps, or maps,
// is proved of every call (`IsEitherHeap`, `IsEitherGcHeap`, `IsEitherDict`); here the definitions meet what runs.
#![tactic(auto)]

mod full_arena;
mod heaps;
mod scripts;
mod stopping;
mod store_scripts;
mod stores;

use anyhow::{Context, Result, bail};
use arena_core::Arena;
use arena_variants::Variant;
use gc_heap::GcArena;
use pmem_lines::SimPmem;
use scripts::{Amount, GC_NAMES, NAMES, script_of};
use std::alloc::Global;
use std::env;
use stopping::{Counts, stop_calls};
use store_scripts::{STORES, StoreScript};
use stores::stop_store;

/// The words after the program's name.
fn words_of_program(rt: &HostRuntime) -> Result<Vec<String>> {
    let mut words = Vec::new(rt.alloc());
    for word in env::args(rt)?.skip(1) {
        words.push(word)?;
    }
    Ok(words)
}

/// Stops the calls of a script on an arena of a variant.
fn stop_script_on<V: Variant>(alloc: Global, name: &str, amount: Amount) -> Result<Counts> {
    let Some(script) = script_of::<V>(alloc, name)? else {
        bail!("there is no script {name}");
    };
    let first = script.first_of(amount);
    stop_calls::<V>(alloc, &script, first)
}

/// Stops the calls of a script.
fn stop_script(rt: &HostRuntime, name: &str, amount: Amount) -> Result<Counts> {
    if let Some(store) = StoreScript::of_name(name) {
        return stop_store(rt.alloc(), store, amount);
    }
    match name.strip_prefix("gc-") {
        Some(same) if GC_NAMES.contains(&name) => {
            stop_script_on::<GcArena<SimPmem>>(rt.alloc(), same, amount)
        }
        _ => stop_script_on::<Arena<SimPmem>>(rt.alloc(), name, amount),
    }
}

/// Stops the calls of a script, and prints its line.
fn run_script(rt: &HostRuntime, name: &str, amount: Amount) -> Result<()> {
    let counts = stop_script(rt, name, amount).context(format_args!("{name}"))?;
    let events = counts.events;
    let stops = counts.stops;
    let recovered = counts.recovered;
    println!(rt; "{name} events {events} stops {stops} recovered {recovered}")?;
    Ok(())
}

fn main(rt: HostRuntime) -> Result<()> {
    let words = words_of_program(&rt)?;
    let (amount, name) = match words.as_slice() {
        [amount] => (amount.as_str(), None),
        [amount, name] => (amount.as_str(), Some(name.as_str())),
        _ => ("", None),
    };
    let amount = match amount {
        "brief" => Amount::Brief,
        "whole" => Amount::Whole,
        _ => bail!("usage: stop_runs brief|whole [SCRIPT]"),
    };
    match name {
        Some(name) => run_script(&rt, name, amount),
        None => {
            for name in NAMES {
                run_script(&rt, name, amount)?;
            }
            for name in STORES {
                run_script(&rt, name, amount)?;
            }
            for name in GC_NAMES {
                run_script(&rt, name, amount)?;
            }
            Ok(())
        }
    }
}
