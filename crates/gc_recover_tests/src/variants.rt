// The image of one variant is refused by recovery of the other, for the text of its header.
ghost use Rattle.std.specs.Prelude.{◌≡◌, ◌≤◌, IfOk};
ghost use Rattle.pmem_lines.specs.Events.{IsQuiet};

use crate::outcomes::ROOM;
use arena_core::{Arena, ArenaRoom};
use gc_heap::{GcArena, GcRoom};
use gc_recover::gc_recover;
use gc_search::GcFault;
use pmem_lines::{OutOfMemory, Pmem, SimPmem};
use pool_layout::Defect;
use recover::{RecoverFault, recover};
use std::alloc::Global;
use std::process::Abort;
use std::test::Fail;

// The header's text of the LOG variant, `NVALLOG1`, and of this one, `NVALGC01`, as a word.
const LOG_TEXT: u64 = 0x3147_4f4c_4c41_564e;

const GC_TEXT: u64 = 0x3130_4347_4c41_564e;

const GRANULES: u32 = 16;

// The events that a device has room for which may be of either version of the LOG variant.
const ANY_ROOM: u32 = 4096;

// The memory of an arena of the LOG variant, in which root 5 has a small block.
#[tactic(auto, using(arena_core::proofs::Readiness::first_room, arena_core::proofs::Readiness::first_most))]
fn log_memory(alloc: Global) -> Result<SimPmem, OutOfMemory> {
    let device = SimPmem::zeroed(alloc, 256 * GRANULES, ROOM)?;
    let room = ArenaRoom::new(alloc, GRANULES)?;
    let mut arena = Arena::format(room, device, 0, 1);
    let _placed = arena.malloc_to(0, 5, 100);
    Ok(arena.into_pmem())
}

// The same of this variant.
#[tactic(auto, using(arena_core::proofs::Readiness::first_room))]
fn gc_memory(alloc: Global) -> Result<SimPmem, OutOfMemory> {
    let device = SimPmem::zeroed(alloc, 256 * GRANULES, ROOM)?;
    let room = GcRoom::new(alloc, GRANULES)?;
    let mut arena = GcArena::format(room, device, 0, 1);
    let _placed = arena.malloc_to(0, 5, 100);
    Ok(arena.into_pmem())
}

// A device with the words of another, of which no call has begun.
fn copy_of(alloc: Global, device: &SimPmem) -> Result<SimPmem, Fail>
    ensures quiet { IfOk result (λ copy. IsQuiet copy.events) }
    ensures room { IfOk result (λ copy. copy.room ≡ 4096) }
{
    let words = device.words(0, device.size_words());
    if words.len() % 8 != 0 || words.len() < 8 || words.len() > 8_388_608 {
        return Err(Fail::from("no whole lines"));
    }
    Ok(SimPmem::from_image(alloc, words, ANY_ROOM)?)
}

// The defect for which recovery of the LOG variant refuses a device. `None` where it does not.
#[tactic(auto, using(recover::proofs::Recoveries::room_of_any))]
fn refused(alloc: Global, device: SimPmem) -> Result<Option<Defect>, OutOfMemory>
    requires quiet { IsQuiet device.events }
    requires room { 4096 ≤ device.room }
{
    match recover(alloc, device) {
        Ok(_) => Ok(None),
        Err((RecoverFault::Memory(error), _)) => Err(error),
        Err((RecoverFault::Defect(defect), _)) => Ok(Some(defect)),
    }
}

// The same of this one.
fn gc_refused(alloc: Global, device: SimPmem) -> Result<Option<Defect>, OutOfMemory>
    requires quiet { IsQuiet device.events }
    requires room { 2048 ≤ device.room }
{
    match gc_recover(alloc, device) {
        Ok(_) => Ok(None),
        Err((GcFault::Memory(error), _)) => Err(error),
        Err((GcFault::Defect(defect), _)) => Ok(Some(defect)),
    }
}

// A header whose text is another variant's.
fn other_text(value: u64) -> Option<Defect> {
    Some(Defect::BadHeader { word: 0, value })
}

// Recovery of this variant refuses a copy of a memory for the first defect, and that of the LOG variant for the second. `None`
// where it does not.
fn are_refused<R: Abort>(
    rt: &R,
    alloc: Global,
    memory: &SimPmem,
    by_gc: Option<Defect>,
    by_log: Option<Defect>,
) -> Result<(), Fail> {
    let device = copy_of(alloc, memory)?;
    assert_eq!(rt; gc_refused(alloc, device)?, by_gc);
    let device = copy_of(alloc, memory)?;
    assert_eq!(rt; refused(alloc, device)?, by_log);
    Ok(())
}

#[test]
fn images_of_the_log_variant(rt: HostRuntime) -> Result<(), Fail> {
    let memory = log_memory(rt.alloc())?;
    are_refused(&rt, rt.alloc(), &memory, other_text(LOG_TEXT), None)
}

#[test]
fn images_of_the_gc_variant(rt: HostRuntime) -> Result<(), Fail> {
    let memory = gc_memory(rt.alloc())?;
    are_refused(&rt, rt.alloc(), &memory, None, other_text(GC_TEXT))
}
