// How a block comes back.
ghost use Rattle.std.specs.Prelude.{false, ◌≡◌, ◌≢◌, ◌==◌, ◌<◌, ◌≤◌, ◌-◌, ◌*◌, ◌/◌, ℕ, true, length, slice_index, Some, if◌then◌else◌};
ghost use Rattle.size_classes.specs.Classes.{class_size, class_capacity};
ghost use Rattle.heap_model.specs.Machine.{with_key, slab_block};
ghost use Rattle.thread_cache.specs.Stacks.{stacks_of};
ghost use Rattle.slab_index.specs.SlabSet.{class_in, IsSlab};
ghost use Rattle.slab_index.specs.Unfit.{is_unfit};
ghost use Rattle.slab_index.specs.Lives.{normal_at};
ghost use Rattle.block_supply.specs.Supply.{IsInSlabOf, IsPutOn};
ghost use Rattle.heap_indexes.specs.Indexes.{HaveState};
ghost use Rattle.heap_indexes.specs.Steps.{IsGivenBy, HasLive};
ghost use Rattle.heap_indexes.specs.Kept.{HasLoosened, IsPutBack, IsTidied};

use crate::covered::open_covered;
use crate::range::{GRANULE_BYTES, SLAB_GRANULES, UNIT_BYTES, address_of, number_of};
use crate::{Given, HeapIndexes};
use block_supply::{SlabAt, SlabBlock};
use size_classes::size_of_class;
use slab_index::SlabLives;

impl HeapIndexes {
    /// Gives whole granules back, from one on, which a root has.
    pub(crate) fn give_large(&mut self, start: u32, granules: u32)
        requires live { HasLive self.old (record { at = 16384 * start; size = 16384 * granules }) }
        requires many { 2 ≤ granules }
        ensures loosened { HasLoosened self.old (record { at = 16384 * start; size = 16384 * granules }) self.new }
        ensures supply { self.new.supply ≡ self.old.supply }
    {
        self.free.give(start, granules);
    }

    /// Gives a small block back from a seat, and its slab where it was the last one.
    pub(crate) fn give_small(&mut self, seat: u32, at: u32, size: u32) -> Given
        requires seat { seat < 64 }
        requires live { HasLive self.old (record { at = at; size = size }) }
        requires small { size ≤ 16384 }
        ensures { IsGivenBy seat (record { at = at; size = size }) self.old result self.new }
    {
        let slab = self.supply.slab_with(at / GRANULE_BYTES).unwrap();
        self.free_block(seat, slab, at, size);
        if self.close_empty(slab.start) {
            Given::Slab { start: slab.start }
        } else {
            Given::Block
        }
    }

    // Takes a small block out of its slab, which stays.
    fn free_block(&mut self, seat: u32, slab: SlabAt, at: u32, size: u32)
        requires seat { seat < 64 }
        requires live { HasLive self.old (record { at = at; size = size }) }
        requires small { size ≤ 16384 }
        requires home { IsInSlabOf (class_in self.old.supply.slabs) (at / 16384) slab.start slab.class }
        ensures loosened { HasLoosened self.old (record { at = at; size = size }) self.new }
        ensures stacks { IsPutBack (stacks_of self.old.supply.stacks) seat slab.class (record { at = at; size = size }) (stacks_of self.new.supply.stacks) }
    {
        if size == size_of_class(slab.class) {
            let block = SlabBlock {
                start: slab.start,
                number: number_of(slab.start, slab.class, at),
            };
            self.free_own(seat, slab.class, block);
        } else {
            self.free_stranger(slab, at, size);
        }
    }

    // Takes a block of its slab's class out of it.
    fn free_own(&mut self, seat: u32, class: u8, block: SlabBlock)
        requires seat { seat < 64 }
        requires live { HasLive self.old (slab_block block.start class block.number) }
        requires slab { class_in self.old.supply.slabs block.start ≡ Some class }
        requires within { block.number < class_capacity class }
        ensures loosened { HasLoosened self.old (slab_block block.start class block.number) self.new }
        ensures stacks { IsPutOn (stacks_of self.old.supply.stacks) seat class (slab_block block.start class block.number).at (stacks_of self.new.supply.stacks) }
    {
        let at = address_of(block.start, class, block.number);
        self.units
            .clear(at / UNIT_BYTES, size_of_class(class) / UNIT_BYTES);
        self.lives.lower(block.start);
        self.supply.put_back(seat, block);
    }

    // Takes a block of another size than that of its slab's class out of it.
    fn free_stranger(&mut self, slab: SlabAt, at: u32, size: u32)
        requires live { HasLive self.old (record { at = at; size = size }) }
        requires small { size ≤ 16384 }
        requires home { IsInSlabOf (class_in self.old.supply.slabs) (at / 16384) slab.start slab.class }
        requires other { size ≢ class_size slab.class }
        ensures loosened { HasLoosened self.old (record { at = at; size = size }) self.new }
        ensures stacks { self.new.supply.stacks ≡ self.old.supply.stacks }
    {
        self.units.clear(at / UNIT_BYTES, size / UNIT_BYTES);
        let left = self.strangers.at(slab.start) - 1;
        self.strangers.put(slab.start, left);
        lower(&mut self.lives, slab, left == 0);
        open_covered(&mut self.supply, &self.units, slab, at, size);
    }

    // Takes a slab out where no block lives in it, and gives its granules back. Whether it did.
    fn close_empty(&mut self, start: u32) -> bool
        requires state { HaveState self.old }
        requires slab { IsSlab self.old.supply.slabs start }
        ensures { IsTidied self.old start result self.new }
    {
        if self.lives.at(start) != 0 {
            return false;
        }
        self.close_slab(start);
        true
    }

    // Takes a slab out in which no block lives, and gives its granules back.
    fn close_slab(&mut self, start: u32)
        requires state { HaveState self.old }
        requires slab { IsSlab self.old.supply.slabs start }
        requires none { slice_index self.old.lives.counts start ≡ 0 }
        ensures { IsTidied self.old start true self.new }
    {
        self.free.give(start, SLAB_GRANULES);
        self.supply.remove(start);
        self.lives.drop_normal(start);
    }
}

// One block less lives in a slab, and it is normal from then on where it is said to be.
fn lower(lives: &mut SlabLives, slab: SlabAt, normal: bool)
    requires inside { slab.start < length lives.old.counts }
    requires some { 0 < slice_index lives.old.counts slab.start }
    requires class { slab.class < 36 }
    ensures size { length lives.new.counts ≡ length lives.old.counts }
    ensures counts { (s : ℕ) → slice_index lives.new.counts s ≡ (if s == slab.start then slice_index lives.old.counts s - 1 else slice_index lives.old.counts s) }
    ensures unfit { (c s : ℕ) → is_unfit lives.new.unfit c s ≡ (if s == slab.start then false else is_unfit lives.old.unfit c s) }
    ensures normal { (s : ℕ) → normal_at lives.new s ≡ (if normal then with_key (normal_at lives.old) slab.start (Some slab.class) s else normal_at lives.old s) }
{
    lives.lower(slab.start);
    if normal {
        lives.put_normal(slab.start, slab.class);
    }
}
