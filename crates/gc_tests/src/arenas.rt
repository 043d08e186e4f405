// Arenas for the rows of this crate, and what their calls answer and store.
//
// Of what the arena's contract says of a call nothing is handed on here: the tests compare what is answered, and the proof of a test
// that makes several calls stays small.
ghost use Rattle.std.specs.Prelude.{◌≤◌};

use arena_core::{BlockRefusal, FreeRefusal, MallocRefusal};
use gc_heap::{GcArena, GcRoom};
use pmem_lines::{Event, OutOfMemory, SimPmem};
use std::alloc::Global;

/// A new arena of 16 to 64 granules, on a memory of zeros with room for 2048 events.
#[tactic(auto, using(arena_core::proofs::Readiness::first_room))]
pub(crate) fn arena_of(alloc: Global, granules: u32) -> Result<GcArena<SimPmem>, OutOfMemory>
    requires least { 16 ≤ granules }
    requires most { granules ≤ 64 }
{
    let device = SimPmem::zeroed(alloc, 256 * granules, 2048)?;
    let room = GcRoom::new(alloc, granules)?;
    Ok(GcArena::format(room, device, 0, 1))
}

/// A new arena of 16 granules.
pub(crate) fn new_arena(alloc: Global) -> Result<GcArena<SimPmem>, OutOfMemory> {
    arena_of(alloc, 16)
}

/// The events of the last call are these, and no more.
pub(crate) fn had(arena: &GcArena<SimPmem>, events: &[Event]) -> bool {
    let device = arena.pmem();
    if device.event_count() as usize != events.len() {
        return false;
    }
    for (i, event) in events.iter().enumerate() {
        if i < device.event_count() as usize && device.event(i as u32) != *event {
            return false;
        }
    }
    true
}

/// Seat 0 gives the root a block for so many bytes: it is the one at this address, of this size.
pub(crate) fn gives(
    arena: &mut GcArena<SimPmem>,
    root: u32,
    bytes: u64,
    at: u32,
    size: u32,
) -> bool {
    match arena.malloc_to(0, root, bytes) {
        Ok(placed) => placed.at == at && placed.size == size,
        Err(_) => false,
    }
}

/// Seat 0 gives the root no block for so many bytes, for this reason, and nothing is stored.
pub(crate) fn gives_none(
    arena: &mut GcArena<SimPmem>,
    root: u32,
    bytes: u64,
    why: MallocRefusal,
) -> bool {
    let refused = match arena.malloc_to(0, root, bytes) {
        Ok(_) => false,
        Err(refusal) => refusal == why,
    };
    refused && had(arena, &[])
}

/// Seat 0 takes the root its block: it was the one at this address, of this size.
pub(crate) fn frees(arena: &mut GcArena<SimPmem>, root: u32, at: u32, size: u32) -> bool {
    match arena.free_from(0, root) {
        Ok(freed) => freed.at == at && freed.size == size,
        Err(_) => false,
    }
}

/// Seat 0 takes the root no block, for this reason, and nothing is stored.
pub(crate) fn frees_none(arena: &mut GcArena<SimPmem>, root: u32, why: FreeRefusal) -> bool {
    let refused = match arena.free_from(0, root) {
        Ok(_) => false,
        Err(refusal) => refusal == why,
    };
    refused && had(arena, &[])
}

/// One word is not written into the root's block at an index, for this reason, and nothing is stored.
pub(crate) fn writes_none(
    arena: &mut GcArena<SimPmem>,
    root: u32,
    index: u32,
    why: BlockRefusal,
) -> bool {
    let refused = match arena.write(root, index, &[1]) {
        Ok(()) => false,
        Err(refusal) => refusal == why,
    };
    refused && had(arena, &[])
}

/// The root names the block at this address, of this size.
pub(crate) fn names(arena: &GcArena<SimPmem>, root: u32, at: u32, size: u32) -> bool {
    match arena.block(root) {
        Some(block) => block.at == at && block.size == size,
        None => false,
    }
}

/// The root's block has this word at an index.
pub(crate) fn reads(arena: &GcArena<SimPmem>, root: u32, index: usize, word: u64) -> bool {
    match arena.view(root) {
        Ok(view) => index < view.len() && view[index] == word,
        Err(_) => false,
    }
}

/// The last call had so many events.
pub(crate) fn counts(arena: &GcArena<SimPmem>, events: u32) -> bool {
    arena.pmem().event_count() == events
}

/// Seat 0 gives the root a block for so many bytes and takes it back, so often.
pub(crate) fn gives_and_frees(
    arena: &mut GcArena<SimPmem>,
    root: u32,
    bytes: u64,
    times: u32,
) -> bool {
    for _ in 0..times {
        if arena.malloc_to(0, root, bytes).is_err() || arena.free_from(0, root).is_err() {
            return false;
        }
    }
    true
}

/// Seat 0 gives each root from one on up to another a block for so many bytes.
pub(crate) fn gives_all(arena: &mut GcArena<SimPmem>, from: u32, end: u32, bytes: u64) -> bool {
    for root in from..end {
        if arena.malloc_to(0, root, bytes).is_err() {
            return false;
        }
    }
    true
}
