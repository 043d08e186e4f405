// The calls of a script are made one by one. Each is stopped at each of its events, and what is left is recovered.
use crate::heaps::{Held, heap_of};
use crate::scripts::Script;
use anyhow::Result;
use arena_variants::{Variant, device_of};
use pmem_lines::SimPmem;
use rand_core::SeedableRng;
use rand_xoshiro::SplitMix64;
use std::alloc::Global;
use thiserror::Error;

/// How many seeds pick an image at each stop.
pub(crate) const SEEDS: u64 = 3;

// The roots of an arena of version 2, more than one of version 1 has.
const ALL_ROOTS: u32 = 16384;

/// How many events the calls of a script have, how many images of stopped calls were recovered, and how many images in all,
/// with those of stopped recoveries.
#[derive(Clone, Copy, Debug)]
pub(crate) struct Counts {
    pub(crate) events: u64,
    pub(crate) stops: u64,
    pub(crate) recovered: u64,
}

/// What a comparison finds. Events are counted over all of the script.
#[derive(Debug, Drop, Error)]
pub(crate) enum StopFault {
    #[error("stopped at event {event}, seed {seed}: neither the heap before the call nor the one behind it")]
    Call { event: u64, seed: u64 },
    #[error("stopped at event {event}, seed 0, and recovery at its event {again}: another heap than that of recovery")]
    Recovery { event: u64, again: u32 },
    #[error("behind all calls: another heap over all roots than over those of the script")]
    Roots,
}

impl Counts {
    // Adds the events of the call that a device carried out last.
    fn add_events(&mut self, device: &SimPmem) {
        self.events = self.events.saturating_add(u64::from(device.event_count()));
    }
}

// The heaps before a call and behind it.
#[derive(Clone, Copy)]
struct Sides<'a> {
    before: &'a [Held],
    behind: &'a [Held],
}

// Where a call is stopped: behind the first `k` of its `count` events. `event` is how many events of the script that are,
// counted from its first call, and `seed` picks the image that is left.
#[derive(Clone, Copy)]
struct Stop {
    k: u32,
    count: u32,
    event: u64,
    seed: u64,
}

impl Stop {
    // The call was stopped there, and what was left is neither heap.
    fn fault(self) -> StopFault {
        StopFault::Call {
            event: self.event,
            seed: self.seed,
        }
    }
}

/// Makes the calls of a script, and stops those from one on. A call is stopped at each of its events, the first one stopped
/// also at its begin, with each of the seeds: recovery comes to the heap before the call or to the one behind it, and to the
/// latter at the call's last event. With the first seed recovery too is stopped at each of its events, and what is left is
/// recovered to the same heap. At the end all roots are compared.
pub(crate) fn stop_calls<V: Variant>(
    alloc: Global,
    script: &Script,
    first: usize,
) -> Result<Counts> {
    let mut arena = V::new_arena(alloc, script.version, script.granules)?;
    stop_calls_of(alloc, &mut arena, script, first)
}

// The same on an arena that is lent, as arenas are from here on: who has one in hand lets it go at each way out, and each of
// these is dear to prove.
fn stop_calls_of<V: Variant>(
    alloc: Global,
    arena: &mut V,
    script: &Script,
    first: usize,
) -> Result<Counts> {
    let (made, stopped) = script.calls.split_at(first.min(script.calls.len()));
    let mut counts = Counts {
        events: 0,
        stops: 0,
        recovered: 0,
    };
    for (seat, call) in made {
        arena.make(*seat, *call);
        counts.add_events(arena.device());
    }
    let mut before = heap_of(alloc, arena, script.roots)?;
    for (seat, call) in stopped {
        arena.make(*seat, *call);
        let behind = heap_of(alloc, arena, script.roots)?;
        let sides = Sides {
            before: &before,
            behind: &behind,
        };
        stop_call::<V>(alloc, arena.device(), script.roots, sides, &mut counts)?;
        counts.add_events(arena.device());
        before = behind;
    }
    compare_all_roots(alloc, arena, &before)?;
    Ok(counts)
}

// Stops the call that a device carried out last.
fn stop_call<V: Variant>(
    alloc: Global,
    device: &SimPmem,
    roots: u32,
    sides: Sides<'_>,
    counts: &mut Counts,
) -> Result<()> {
    // Behind none of its events a call leaves what the one before it left behind all of them.
    let first = if counts.stops == 0 { 0 } else { 1 };
    let count = device.event_count();
    for k in first..=count {
        let event = counts.events.saturating_add(u64::from(k));
        for seed in 0..SEEDS {
            let stop = Stop {
                k,
                count,
                event,
                seed,
            };
            stop_at::<V>(alloc, device, roots, sides, stop, counts)?;
        }
    }
    Ok(())
}

// Stops it there, and recovers what is left.
fn stop_at<V: Variant>(
    alloc: Global,
    device: &SimPmem,
    roots: u32,
    sides: Sides<'_>,
    stop: Stop,
    counts: &mut Counts,
) -> Result<()> {
    match recovered::<V>(alloc, device, stop.k, stop.seed)? {
        Some(arena) => compare_sides(alloc, &arena, roots, sides, stop, counts),
        None => Err(stop.fault().into()),
    }
}

// Compares the heap that a stop is recovered to, and with the first seed stops that recovery too.
fn compare_sides<V: Variant>(
    alloc: Global,
    arena: &V,
    roots: u32,
    sides: Sides<'_>,
    stop: Stop,
    counts: &mut Counts,
) -> Result<()> {
    let heap = heap_of(alloc, arena, roots)?;
    if !may_be_left(sides, &heap, stop) {
        return Err(stop.fault().into());
    }
    counts.stops = counts.stops.saturating_add(1);
    counts.recovered = counts.recovered.saturating_add(1);
    if stop.seed == 0 {
        stop_recovery::<V>(alloc, arena.device(), roots, &heap, stop.event, counts)?;
    }
    Ok(())
}

// A heap is one that may be left by a stop: behind no event the one before the call, and behind all the one behind it.
fn may_be_left(sides: Sides<'_>, heap: &[Held], stop: Stop) -> bool {
    stop.k < stop.count && heap == sides.before
        || (stop.k > 0 || stop.count == 0) && heap == sides.behind
}

// Stops the recovery that a device carried out, of a call that was stopped at an event, at each of its own events: what is
// left is recovered to the same heap.
fn stop_recovery<V: Variant>(
    alloc: Global,
    device: &SimPmem,
    roots: u32,
    heap: &[Held],
    event: u64,
    counts: &mut Counts,
) -> Result<()> {
    for again in 1..=device.event_count() {
        if !recovers::<V>(alloc, device, again, roots, heap)? {
            return Err(StopFault::Recovery { event, again }.into());
        }
        counts.recovered = counts.recovered.saturating_add(1);
    }
    Ok(())
}

// Of all roots none but those of the script has a block, and so it is when the last image is recovered.
fn compare_all_roots<V: Variant>(alloc: Global, arena: &V, heap: &[Held]) -> Result<()> {
    let device = arena.device();
    if has_heap(alloc, arena, ALL_ROOTS, heap)?
        && recovers::<V>(alloc, device, device.event_count(), ALL_ROOTS, heap)?
    {
        Ok(())
    } else {
        Err(StopFault::Roots.into())
    }
}

// Whether the roots below a number hold this.
fn has_heap<V: Variant>(alloc: Global, arena: &V, roots: u32, heap: &[Held]) -> Result<bool> {
    Ok(heap_of(alloc, arena, roots)?.as_slice() == heap)
}

// Whether they do in the arena that is recovered from the image behind the first `k` events of a device, with the first seed.
fn recovers<V: Variant>(
    alloc: Global,
    device: &SimPmem,
    k: u32,
    roots: u32,
    heap: &[Held],
) -> Result<bool> {
    match recovered::<V>(alloc, device, k, 0)? {
        Some(arena) => has_heap(alloc, &arena, roots, heap),
        None => Ok(false),
    }
}

// The arena that is recovered from the image behind the first `k` events of a device, as a generator from `seed` picks.
// `None` where the device has fewer events, or the image is not sound.
fn recovered<V: Variant>(alloc: Global, device: &SimPmem, k: u32, seed: u64) -> Result<Option<V>> {
    match stopped_image(alloc, device, k, seed)? {
        Some(image) => of_image::<V>(alloc, &image),
        None => Ok(None),
    }
}

/// The image behind the first `k` events of a device, as a generator from `seed` picks. `None` where the device has fewer.
pub(crate) fn stopped_image(
    alloc: Global,
    device: &SimPmem,
    k: u32,
    seed: u64,
) -> Result<Option<Vec<u64>>> {
    if k > device.event_count() {
        return Ok(None);
    }
    let mut picks = SplitMix64::seed_from_u64(seed);
    Ok(Some(device.image(alloc, k, &mut picks)?))
}

/// The arena that is recovered from an image. `None` where it is not sound.
pub(crate) fn of_image<V: Variant>(alloc: Global, image: &[u64]) -> Result<Option<V>> {
    match device_of(alloc, image)? {
        Some(device) => Ok(V::recovered(alloc, device)?),
        None => Ok(None),
    }
}
