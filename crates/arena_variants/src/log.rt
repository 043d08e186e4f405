// The LOG variant.
ghost use Rattle.std.specs.Prelude.{◌≤◌};

use crate::variant::Variant;
use arena_core::{Arena, ArenaRoom};
use arena_journal::answer;
use heap_model::{Block, Call};
use pmem_lines::{OutOfMemory, SimPmem};
use recover::{RecoverFault, recover};
use std::alloc::Global;

impl Variant for Arena<SimPmem> {
    const MOVES: bool = true;

    const SHORT_RECOVERY: bool = false;

    fn new_arena(alloc: Global, version: u32, granules: u32) -> Result<Self, OutOfMemory> {
        if version == 2 {
            second_arena(alloc, granules.clamp(25, 4096))
        } else {
            first_arena(alloc, granules.clamp(16, 1024))
        }
    }

    #[tactic(auto, using(recover::proofs::Recoveries::room_of_any))]
    fn recovered(alloc: Global, device: SimPmem) -> Result<Option<Self>, OutOfMemory> {
        match recover(alloc, device) {
            Ok(arena) => Ok(Some(arena)),
            Err((RecoverFault::Memory(error), _)) => Err(error),
            Err((RecoverFault::Defect(_), _)) => Ok(None),
        }
    }

    fn make(&mut self, seat: u32, call: Call) {
        answer(self, seat % 64, call);
    }

    fn named(&self, root: u32) -> Option<Block> {
        self.block(root)
    }

    fn words(&self, root: u32) -> &[u64] {
        match self.view(root) {
            Ok(words) => words,
            Err(_) => &[],
        }
    }

    fn device(&self) -> &SimPmem {
        self.pmem()
    }
}

// An arena of version 1.
#[tactic(auto, using(arena_core::proofs::Readiness::first_room, arena_core::proofs::Readiness::first_most))]
fn first_arena(alloc: Global, granules: u32) -> Result<Arena<SimPmem>, OutOfMemory>
    requires least { 16 ≤ granules }
    requires most { granules ≤ 1024 }
{
    let device = SimPmem::zeroed(alloc, 256 * granules, 2048)?;
    let room = ArenaRoom::new(alloc, granules)?;
    Ok(Arena::format(room, device, 0, 1))
}

// One of version 2.
#[tactic(auto, using(arena_core::proofs::Readiness::second_room, arena_core::proofs::Readiness::second_least, arena_core::proofs::Readiness::second_most), unfolding(pool_layout::specs::Layout::all_granules))]
fn second_arena(alloc: Global, granules: u32) -> Result<Arena<SimPmem>, OutOfMemory>
    requires least { 25 ≤ granules }
    requires most { granules ≤ 4096 }
{
    let device = SimPmem::zeroed(alloc, 256 * granules, 4096)?;
    let room = ArenaRoom::new(alloc, granules)?;
    Ok(Arena::format_v2(room, device, 0, 1))
}
