// A script of a dictionary is stopped at each event of its calls, and what is left is recovered, opened and reported.
ghost use Rattle.std.specs.Prelude.{◌≤◌, length};
ghost use Rattle.dict_text.specs.Script.{IsDictSize};
ghost use Rattle.dict_text.specs.Calls.{HasValues};

use crate::scripts::Amount;
use crate::stopping::{Counts, SEEDS, of_image, stopped_image};
use crate::store_scripts::StoreScript;
use anyhow::Result;
use arena_core::Arena;
use attach_dict::{Dict, OpenFault};
use dict_runs::{DictCrashed, crash_script, write_left};
use dict_text::{Script, read_script};
use pmem_lines::{Pmem, SimPmem};
use std::alloc::Global;
use thiserror::Error;
use trace_crashes::CrashFault;

/// What a comparison finds. Events are counted over all of the script.
#[derive(Debug, Drop, Error)]
pub(crate) enum StoreFault {
    #[error("stopped at event {event}, seed {seed}: neither the map before the call nor the one behind it")]
    Call { event: u64, seed: u64 },
    #[error("stopped at event {event}, seed 0, and recovery at its event {again}: another map than that of recovery")]
    Recovery { event: u64, again: u32 },
    #[error("the script is none")]
    Script,
    #[error("its calls have no event {event}")]
    Event { event: u64 },
}

// Where a script is stopped: behind so many events of its calls. `seed` picks the image that is left.
#[derive(Clone, Copy)]
struct StoreStop {
    event: u64,
    seed: u64,
}

impl StoreStop {
    // It was stopped there, and what was left is neither map.
    fn fault(self) -> StoreFault {
        StoreFault::Call {
            event: self.event,
            seed: self.seed,
        }
    }
}

/// Stops a script at each event of its calls, or at those of a part of them, with each of the seeds: what is left is opened with the
/// map before the call under way or the one behind it, and its report says which. With the first seed recovery too is stopped at each
/// of its events.
pub(crate) fn stop_store(alloc: Global, store: StoreScript, amount: Amount) -> Result<Counts> {
    let Ok(script) = read_script(alloc, store.text(alloc)?.as_bytes()) else {
        return Err(StoreFault::Script.into());
    };
    let mut counts = Counts {
        events: events_of(alloc, &script)?,
        stops: 0,
        recovered: 0,
    };
    let (first, last) = store.events_of(amount, counts.events);
    for event in first..=last {
        stop_event(alloc, store, &script, event, &mut counts)?;
    }
    Ok(counts)
}

// How many events the calls of a script have: one is asked for that no script has.
fn events_of(alloc: Global, script: &Script) -> Result<u64>
    requires size { IsDictSize script.now.granules }
    requires values { HasValues script.now }
{
    match crash_script(alloc, script, u64::MAX, 0) {
        Ok(_) => Err(StoreFault::Script.into()),
        Err(CrashFault::NoEvent { events }) => Ok(events),
        Err(CrashFault::Memory(fault)) => Err(fault.into()),
    }
}

// Stops the script at an event, with each of the seeds.
fn stop_event(
    alloc: Global,
    store: StoreScript,
    script: &Script,
    event: u64,
    counts: &mut Counts,
) -> Result<()>
    requires size { IsDictSize script.now.granules }
    requires values { HasValues script.now }
{
    for seed in 0..SEEDS {
        let stop = StoreStop { event, seed };
        match crash_script(alloc, script, event, seed) {
            Ok(crashed) => stop_at(alloc, store, script, &crashed, stop, counts)?,
            Err(CrashFault::NoEvent { .. }) => return Err(StoreFault::Event { event }.into()),
            Err(CrashFault::Memory(fault)) => return Err(fault.into()),
        }
    }
    Ok(())
}

// Recovers what a stop left and reports its map, and with the first seed stops that recovery too.
fn stop_at(
    alloc: Global,
    store: StoreScript,
    script: &Script,
    crashed: &DictCrashed,
    stop: StoreStop,
    counts: &mut Counts,
) -> Result<()>
    requires values { HasValues script.now }
    requires call { crashed.now.call ≤ length script.now.calls.items }
{
    counts.stops = counts.stops.saturating_add(1);
    counts.recovered = counts.recovered.saturating_add(1);
    let report = if stop.seed > 0 {
        report_of_image(alloc, script, crashed, &crashed.image)?
    } else {
        report_and_stop(alloc, script, crashed, stop.event, counts)?
    };
    match report {
        Some(report) if may_be_left(alloc, store, crashed.call, &report)? => Ok(()),
        _ => Err(stop.fault().into()),
    }
}

// The report of an image that a crash left, once it is recovered. `None` where it is not sound, or no dictionary.
fn report_of_image(
    alloc: Global,
    script: &Script,
    crashed: &DictCrashed,
    image: &[u64],
) -> Result<Option<Vec<u8>>>
    requires values { HasValues script.now }
    requires call { crashed.now.call ≤ length script.now.calls.items }
{
    match of_image(alloc, image)? {
        Some(arena) => report_of(alloc, script, crashed, arena),
        None => Ok(None),
    }
}

// The same of a stop with the first seed, whose recovery is stopped at each of its events.
fn report_and_stop(
    alloc: Global,
    script: &Script,
    crashed: &DictCrashed,
    event: u64,
    counts: &mut Counts,
) -> Result<Option<Vec<u8>>>
    requires values { HasValues script.now }
    requires call { crashed.now.call ≤ length script.now.calls.items }
{
    match of_image::<Arena<SimPmem>>(alloc, &crashed.image)? {
        Some(arena) => stop_recovery(alloc, script, crashed, arena.pmem(), event, counts),
        None => Ok(None),
    }
}

// Reports what a device was recovered to, of a call that was stopped at an event with the first seed, and stops that recovery at
// each of its own events: what is left is recovered to the same map. `None` where that is no dictionary.
fn stop_recovery(
    alloc: Global,
    script: &Script,
    crashed: &DictCrashed,
    device: &SimPmem,
    event: u64,
    counts: &mut Counts,
) -> Result<Option<Vec<u8>>>
    requires values { HasValues script.now }
    requires call { crashed.now.call ≤ length script.now.calls.items }
{
    let count = device.event_count();
    let last = report_behind(alloc, script, crashed, device, count)?;
    for again in 1..=count {
        if report_behind(alloc, script, crashed, device, again)? != last {
            return Err(StoreFault::Recovery { event, again }.into());
        }
        counts.recovered = counts.recovered.saturating_add(1);
    }
    Ok(last)
}

// The report of what is recovered behind the first so many events of a recovery. `None` where that is no dictionary.
fn report_behind(
    alloc: Global,
    script: &Script,
    crashed: &DictCrashed,
    device: &SimPmem,
    events: u32,
) -> Result<Option<Vec<u8>>>
    requires values { HasValues script.now }
    requires call { crashed.now.call ≤ length script.now.calls.items }
{
    match stopped_image(alloc, device, events, 0)? {
        Some(image) => report_of_image(alloc, script, crashed, &image),
        None => Ok(None),
    }
}

// The report of a crash over an arena that was recovered of its image. `None` where that is no dictionary.
fn report_of(
    alloc: Global,
    script: &Script,
    crashed: &DictCrashed,
    arena: Arena<SimPmem>,
) -> Result<Option<Vec<u8>>>
    requires values { HasValues script.now }
    requires call { crashed.now.call ≤ length script.now.calls.items }
{
    match Dict::open(alloc, arena) {
        Ok(dict) => told(alloc, script, crashed, &dict),
        Err((OpenFault::Memory(fault), _)) => Err(fault.into()),
        Err((OpenFault::NotDict { .. }, _)) => Ok(None),
    }
}

// What is told of a crash that left a dictionary.
fn told(
    alloc: Global,
    script: &Script,
    crashed: &DictCrashed,
    dict: &Dict<SimPmem>,
) -> Result<Option<Vec<u8>>>
    requires values { HasValues script.now }
    requires call { crashed.now.call ≤ length script.now.calls.items }
{
    let mut report = Vec::new(alloc);
    write_left(crashed, script, dict, &mut report)?;
    Ok(Some(report))
}

// A report is one that a crash within this call may have: the side and its map go together.
fn may_be_left(alloc: Global, store: StoreScript, call: u64, report: &[u8]) -> Result<bool> {
    let behind = store.map_behind(alloc, call)?;
    let before = store.map_behind(alloc, call.saturating_sub(1))?;
    if before == behind {
        return tells(alloc, report, call, "same", &behind);
    }
    Ok(
        tells(alloc, report, call, "before", &before)?
            || tells(alloc, report, call, "after", &behind)?,
    )
}

// A report says on which side of a call it is, and has this map.
fn tells(alloc: Global, report: &[u8], call: u64, side: &str, map: &str) -> Result<bool> {
    let text = format!(in alloc; "call {call} {side}\n{map}")?;
    Ok(text.as_bytes() == report)
}
