// Arenas for the rows of this crate, their calls, and the events of the last one.
//
// Of what the arena's contract says of a call nothing is handed on here: the tests compare what is answered, and the proof of
// a test that makes ten calls stays small.
ghost use Rattle.std.specs.Prelude.{◌<◌, ◌≤◌, length};

use arena_core::{Arena, ArenaRoom, BlockRefusal, MoveRefusal, Moved};
use pmem_lines::{Event, OutOfMemory, SimPmem};
use std::alloc::Global;

/// A new arena of 16 granules, on a memory of zeros with room for 2048 events.
#[tactic(auto, using(arena_core::proofs::Readiness::first_room, arena_core::proofs::Readiness::first_most))]
pub(crate) fn new_arena(alloc: Global) -> Result<Arena<SimPmem>, OutOfMemory> {
    let device = SimPmem::zeroed(alloc, 4096, 2048)?;
    let room = ArenaRoom::new(alloc, 16)?;
    Ok(Arena::format(room, device, 0, 1))
}

/// A new arena of version 2 of so many granules, on a memory of zeros with room for 4096 events.
#[tactic(auto, using(arena_core::proofs::Readiness::second_room, arena_core::proofs::Readiness::second_least, arena_core::proofs::Readiness::second_most), unfolding(pool_layout::specs::Layout::all_granules))]
pub(crate) fn second_arena(alloc: Global, granules: u32) -> Result<Arena<SimPmem>, OutOfMemory>
    requires least { 25 ≤ granules }
    requires most { granules ≤ 4096 }
{
    let device = SimPmem::zeroed(alloc, 256 * granules, 4096)?;
    let room = ArenaRoom::new(alloc, granules)?;
    Ok(Arena::format_v2(room, device, 0, 1))
}

/// The events of the last call are these, and no more.
pub(crate) fn had(arena: &Arena<SimPmem>, events: &[Event]) -> bool {
    let device = arena.pmem();
    if device.event_count() as usize != events.len() {
        return false;
    }
    for (i, event) in events.iter().enumerate() {
        if i < device.event_count() as usize && device.event(i as u32) != *event {
            return false;
        }
    }
    true
}

/// Seat `seat` below 64 gives the root a block for so many bytes. Whether there was one.
pub(crate) fn gave(arena: &mut Arena<SimPmem>, seat: u32, root: u32, size: u64) -> bool
    requires { seat < 64 }
{
    arena.malloc_to(seat, root, size).is_ok()
}

/// Seat `seat` below 64 takes the root's block back. Whether it had one.
pub(crate) fn freed(arena: &mut Arena<SimPmem>, seat: u32, root: u32) -> bool
    requires { seat < 64 }
{
    arena.free_from(seat, root).is_ok()
}

/// Writes at most 512 words into the root's block, from the word numbered `from` on.
pub(crate) fn write(
    arena: &mut Arena<SimPmem>,
    root: u32,
    from: u32,
    words: &[u64],
) -> Result<(), BlockRefusal>
    requires { length words.now ≤ 512 }
{
    arena.write(root, from, words)
}

/// Moves the block of a root to another.
pub(crate) fn moved(arena: &mut Arena<SimPmem>, from: u32, to: u32) -> Result<Moved, MoveRefusal> {
    arena.move_to(from, to)
}
