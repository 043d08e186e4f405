// The GC variant, which has version 1 alone.
ghost use Rattle.std.specs.Prelude.{◌≤◌};

use crate::variant::Variant;
use gc_heap::{GcArena, GcRoom};
use gc_recover::gc_recover;
use gc_runs::answer;
use gc_search::GcFault;
use heap_model::{Block, Call};
use pmem_lines::{OutOfMemory, SimPmem};
use std::alloc::Global;

impl Variant for GcArena<SimPmem> {
    const MOVES: bool = false;

    const SHORT_RECOVERY: bool = true;

    fn new_arena(alloc: Global, _version: u32, granules: u32) -> Result<Self, OutOfMemory> {
        first_arena(alloc, granules.clamp(16, 1024))
    }

    fn recovered(alloc: Global, device: SimPmem) -> Result<Option<Self>, OutOfMemory> {
        match gc_recover(alloc, device) {
            Ok(arena) => Ok(Some(arena)),
            Err((GcFault::Memory(error), _)) => Err(error),
            Err((GcFault::Defect(_), _)) => Ok(None),
        }
    }

    // A move is not made.
    fn make(&mut self, seat: u32, call: Call) {
        if !matches!(call, Call::Move { .. }) {
            answer(self, seat % 64, call);
        }
    }

    fn named(&self, root: u32) -> Option<Block> {
        self.block(root)
    }

    fn words(&self, root: u32) -> &[u64] {
        match self.view(root) {
            Ok(words) => words,
            Err(_) => &[],
        }
    }

    fn device(&self) -> &SimPmem {
        self.pmem()
    }
}

// An arena.
#[tactic(auto, using(arena_core::proofs::Readiness::first_room))]
fn first_arena(alloc: Global, granules: u32) -> Result<GcArena<SimPmem>, OutOfMemory>
    requires least { 16 ≤ granules }
    requires most { granules ≤ 1024 }
{
    let device = SimPmem::zeroed(alloc, 256 * granules, 2048)?;
    let room = GcRoom::new(alloc, granules)?;
    Ok(GcArena::format(room, device, 0, 1))
}
