// The indexes, and their calls.
ghost use Rattle.std.specs.Prelude.{◌≡◌, ◌≢◌, ◌<◌, ◌≤◌, ◌+◌, ◌^◌, ℕ, IfOk};
ghost use Rattle.heap_model.specs.Machine.{Bounds, Machine, no_heap};
ghost use Rattle.heap_model.specs.Placement.{no_stacks};
ghost use Rattle.thread_cache.specs.Stacks.{stacks_of};
ghost use Rattle.heap_indexes.specs.Indexes.{AreIndexesOf, HaveState};
ghost use Rattle.heap_indexes.specs.Steps.{IsPlacedBy, IsGivenBy, HasLive};
ghost use Rattle.heap_indexes.specs.Adopting.{IsAdoptable, AreAdopted};

use crate::range::{GRANULE_BYTES, LARGEST_SMALL};
use crate::{Given, Place};
use block_supply::BlockSupply;
use extent_index::ExtentIndex;
use pmem_lines::OutOfMemory;
use size_classes::{class_of, granules};
use slab_index::{SlabCounts, SlabLives};
use std::alloc::Global;
use std::marker::Model;
use unit_map::UnitMap;

// The granule from which on all of an index is free that nothing was taken from.
const FIRST_FREE: u32 = 4;

/// By what a malloc finds its block and a free gives it back: the free granules of an arena, its slabs with the blocks that may
/// be given out, how many blocks live in each slab and how many of them are strangers, whose size is not that of the slab's
/// class, and which bytes lie in small blocks. In contracts it is an `Indexes`.
#[derive(Drop)]
pub struct HeapIndexes {
    pub(crate) free: ExtentIndex,
    pub(crate) supply: BlockSupply,
    pub(crate) lives: SlabLives,
    pub(crate) strangers: SlabCounts,
    pub(crate) units: UnitMap,
}

impl Model for HeapIndexes {
    ghost use Rattle.heap_indexes.specs.Indexes.{Indexes};

    ghost Value = { Indexes };

    ghost view = { λ a. record { free = a.free; supply = a.supply; lives = a.lives; strangers = a.strangers; units = a.units } };
}

impl HeapIndexes {
    /// The indexes of an empty heap, in an arena of 16 to 4096 granules. The heap begins with the granule `first`, 4 at least;
    /// how many roots there are makes no difference. It takes all memory that the indexes ever take, and refuses where there
    /// is too little.
    pub fn new(alloc: Global, granules: u32, first: u32) -> Result<HeapIndexes, OutOfMemory>
        requires least { 16 ≤ granules }
        requires most { granules ≤ 4096 }
        requires low { 4 ≤ first }
        requires high { first < granules }
        ensures adopted { IfOk result (λ indexes. (b : Bounds) (m : Machine) → b.granules ≡ granules → b.first ≡ first → b.roots + 1 < 2 ^ 32 → IsAdoptable b m → AreAdopted b m 0 0 indexes) }
        ensures indexes { IfOk result (λ indexes. (b : Bounds) → b.granules ≡ granules → b.first ≡ first → b.roots + 1 < 2 ^ 32 → AreIndexesOf b no_heap indexes) }
        ensures stacks { IfOk result (λ indexes. stacks_of indexes.supply.stacks ≡ no_stacks) }
    {
        let strangers = SlabCounts::new(alloc, granules)?;
        let units = UnitMap::new(alloc, granules)?;
        let lives = SlabLives::new(alloc, granules)?;
        let mut free = match ExtentIndex::new(alloc, granules) {
            Ok(free) => free,
            Err(fault) => {
                drop(lives);
                return Err(fault);
            }
        };
        free.take(FIRST_FREE, first - FIRST_FREE);
        match BlockSupply::new(alloc, granules) {
            Ok(supply) => Ok(HeapIndexes {
                free,
                supply,
                lives,
                strangers,
                units,
            }),
            Err(fault) => {
                drop(lives);
                drop(free);
                Err(fault)
            }
        }
    }

    /// Finds a block for a request of a seat, below 64, of some bytes and fewer than 2^32, and gives it: it is live from then
    /// on, whichever root names it. More than 16384 bytes get whole granules at their best fit. Fewer get a block of the least
    /// class that holds them: the top of the seat's stack; else the lowest available one, and the next ones go on the stack;
    /// else the top of the lowest other seat's stack; else the slab with the fewest live blocks that is fit for the class takes
    /// it; else a slab is made on four granules at their best fit. `None` exactly where there is no site for the request, and
    /// then the indexes are those of the same state, and the same blocks may be given out.
    pub fn place(&mut self, seat: u32, size: u64) -> Option<Place>
        requires state { HaveState self.old }
        requires seat { seat < 64 }
        requires some { size ≢ 0 }
        requires few { size < 2 ^ 32 }
        ensures { IsPlacedBy seat size self.old result self.new }
    {
        match class_of(size) {
            Some(class) => self.place_small(seat, class),
            None => self.place_large(granules(size) as u32),
        }
    }

    /// Gives the block back that begins at byte `at` of the arena and has so many bytes, from a seat, below 64. Its granules
    /// are free again, or its bytes; a block of its slab's class goes on the seat's stack where there is room. A slab goes
    /// with its last block. One of another size makes those blocks of the slab's class available that no other covers, and the
    /// slab is normal once the last of these has gone.
    pub fn give_back(&mut self, seat: u32, at: u32, size: u32) -> Given
        requires seat { seat < 64 }
        requires live { HasLive self.old (record { at = at; size = size }) }
        ensures { IsGivenBy seat (record { at = at; size = size }) self.old result self.new }
    {
        if size > LARGEST_SMALL {
            let start = at / GRANULE_BYTES;
            self.give_large(start, size / GRANULE_BYTES);
            Given::Granules { start }
        } else {
            self.give_small(seat, at, size)
        }
    }
}
