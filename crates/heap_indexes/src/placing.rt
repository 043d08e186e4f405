// How a malloc finds its block.
ghost use Rattle.std.specs.Prelude.{◌==◌, false, ◌≡◌, ◌<◌, ◌≤◌, ℕ, length, Some, None, if◌then◌else◌, MatchOption};
ghost use Rattle.size_classes.specs.Classes.{class_capacity, IsClassOf, granules_of};
ghost use Rattle.heap_model.specs.Machine.{with_key};
ghost use Rattle.heap_model.specs.Runs.{IsBestFit};
ghost use Rattle.heap_model.specs.Placement.{with_class};
ghost use Rattle.extent_index.specs.FreeSet.{IsFree};
ghost use Rattle.slab_index.specs.Unfit.{is_unfit};
ghost use Rattle.slab_index.specs.Lives.{normal_at};
ghost use Rattle.block_supply.specs.Supply.{HasNoOpen, HasSlabMore};
ghost use Rattle.heap_indexes.specs.Indexes.{HaveState};
ghost use Rattle.heap_indexes.specs.Steps.{IsPlacedBy};
ghost use Rattle.heap_indexes.specs.Fitting.{HasNoReady, IsFirstReady};
ghost use Rattle.heap_indexes.specs.Kept.{Follow, WasFull, HasTaken, IsOnlySlab, HasChanged, HasPlacedSmall};

use crate::fitting::best_slab;
use crate::range::{SLAB_GRANULES, UNIT_BYTES, address_of};
use crate::{HeapIndexes, Place};
use block_supply::SlabBlock;
use size_classes::size_of_class;
use slab_index::SlabLives;

impl HeapIndexes {
    /// Finds so many granules, two at least, at their best fit, and takes them.
    pub(crate) fn place_large(&mut self, granules: u32) -> Option<Place>
        requires state { HaveState self.old }
        requires many { 2 ≤ granules }
        ensures { (seat size : ℕ) → 16384 < size → granules ≡ granules_of size → IsPlacedBy seat size self.old result self.new }
    {
        match self.free.best_fit(granules) {
            Some(start) => {
                self.free.take(start, granules);
                Some(Place::Granules { start, granules })
            }
            None => None,
        }
    }

    /// Finds a block of a class, below 36, and takes it for a seat.
    pub(crate) fn place_small(&mut self, seat: u32, class: u8) -> Option<Place>
        requires state { HaveState self.old }
        requires seat { seat < 64 }
        requires class { class < 36 }
        ensures { (size : ℕ) → IsClassOf size class → IsPlacedBy seat size self.old result self.new }
    {
        if let Some(block) = self.take_block(seat, class) {
            return Some(Place::InSlab {
                start: block.start,
                class,
                number: block.number,
            });
        }
        self.place_anew(seat, class)
    }

    // Where no block of the class is open, finds one in a slab that takes the class, or in a new slab.
    fn place_anew(&mut self, seat: u32, class: u8) -> Option<Place>
        requires state { HaveState self.old }
        requires seat { seat < 64 }
        requires class { class < 36 }
        requires full { HasNoOpen self.old.supply class }
        ensures { (size : ℕ) → IsClassOf size class → IsPlacedBy seat size self.old result self.new }
    {
        let fit = self.best_slab(class);
        self.place_in(seat, class, fit)
    }

    // Of the slabs that are fit for the class the best one. Those that were found unfit are noted.
    fn best_slab(&mut self, class: u8) -> Option<u32>
        requires state { HaveState self.old }
        requires class { class < 36 }
        ensures best { MatchOption result (HasNoReady self.new.lives self.new.units class) (IsFirstReady self.new.lives self.new.units class) }
        ensures indexes { Follow self.old (λ b m. m) self.new }
        ensures supply { self.new.supply ≡ self.old.supply }
    {
        best_slab(&mut self.lives, &self.units, class)
    }

    // Where no block of the class is open, finds one in the slab that is fit for it, or in a new slab where none is.
    fn place_in(&mut self, seat: u32, class: u8, fit: Option<u32>) -> Option<Place>
        requires state { HaveState self.old }
        requires seat { seat < 64 }
        requires class { class < 36 }
        requires full { HasNoOpen self.old.supply class }
        requires fit { MatchOption fit (HasNoReady self.old.lives self.old.units class) (IsFirstReady self.old.lives self.old.units class) }
        ensures { (size : ℕ) → IsClassOf size class → IsPlacedBy seat size self.old result self.new }
    {
        if let Some(start) = fit {
            return Some(self.place_in_morph(seat, start, class));
        }
        match self.free.best_fit(SLAB_GRANULES) {
            Some(start) => Some(self.place_in_new(seat, start, class)),
            None => None,
        }
    }

    // The slab at a start, which is the one that is fit for the class, takes it, and a block of it is taken.
    fn place_in_morph(&mut self, seat: u32, start: u32, class: u8) -> Place
        requires state { HaveState self.old }
        requires seat { seat < 64 }
        requires class { class < 36 }
        requires full { HasNoOpen self.old.supply class }
        requires ready { IsFirstReady self.old.lives self.old.units class start }
        ensures { HasPlacedSmall seat class self.old result self.new }
    {
        self.change_class(start, class);
        let number = self.take_of(seat, start, class);
        Place::InMorph {
            start,
            class,
            number,
        }
    }

    // A slab of the class is made on four granules from a start on, and its first block is taken.
    fn place_in_new(&mut self, seat: u32, start: u32, class: u8) -> Place
        requires state { HaveState self.old }
        requires seat { seat < 64 }
        requires class { class < 36 }
        requires full { HasNoOpen self.old.supply class }
        requires none { HasNoReady self.old.lives self.old.units class }
        requires fit { IsBestFit (IsFree self.old.free) 4 start }
        ensures { HasPlacedSmall seat class self.old result self.new }
    {
        self.open_slab(start, class);
        let number = self.take_of(seat, start, class);
        Place::InNewSlab {
            start,
            class,
            number,
        }
    }

    // Takes an open block of the class for a seat. `None` exactly where none is open.
    fn take_block(&mut self, seat: u32, class: u8) -> Option<SlabBlock>
        requires state { HaveState self.old }
        requires seat { seat < 64 }
        requires class { class < 36 }
        ensures { MatchOption result (WasFull self.old class self.new) (λ block. HasTaken self.old seat class block self.new) }
    {
        match self.supply.take(seat, class) {
            Some(block) => {
                let at = address_of(block.start, class, block.number);
                self.units
                    .mark(at / UNIT_BYTES, size_of_class(class) / UNIT_BYTES);
                self.lives.raise(block.start);
                Some(block)
            }
            None => None,
        }
    }

    // Takes an open block of the class where those of one slab alone are open, and one is. It is told by its number.
    fn take_of(&mut self, seat: u32, start: u32, class: u8) -> u32
        requires state { HaveState self.old }
        requires seat { seat < 64 }
        requires class { class < 36 }
        requires only { IsOnlySlab self.old.supply class start }
        ensures { HasTaken self.old seat class (record { start = start; number = result }) self.new }
    {
        self.take_block(seat, class).unwrap().number
    }

    // A slab of the class comes, on four granules that are free.
    fn open_slab(&mut self, start: u32, class: u8)
        requires state { HaveState self.old }
        requires class { class < 36 }
        requires fit { IsBestFit (IsFree self.old.free) 4 start }
        ensures indexes { Follow self.old (λ b m. with_class m start class) self.new }
        ensures supplied { HasSlabMore self.old.supply self.new.supply start class (λ i. i < class_capacity class) }
    {
        self.free.take(start, SLAB_GRANULES);
        self.supply.add(start, class);
        self.lives.put_normal(start, class);
        self.strangers.put(start, 0);
    }

    // A slab that is fit for it takes another class. The blocks that live in it are strangers from then on.
    fn change_class(&mut self, start: u32, class: u8)
        requires state { HaveState self.old }
        requires class { class < 36 }
        requires ready { IsFirstReady self.old.lives self.old.units class start }
        ensures indexes { Follow self.old (λ b m. with_class m start class) self.new }
        ensures supplied { HasChanged self.old.units self.old.supply start class self.new.supply }
    {
        self.supply.remove(start);
        let used = self.units.used_blocks(start, class);
        self.supply.add_used(start, class, &used);
        let live = self.lives.at(start);
        self.strangers.put(start, live);
        put_class(&mut self.lives, start, class, live == 0);
    }
}

/// The slab at a start has a class, and is normal or not.
pub(crate) fn put_class(lives: &mut SlabLives, start: u32, class: u8, normal: bool)
    requires inside { start < length lives.old.counts }
    requires class { class < 36 }
    ensures counts { lives.new.counts ≡ lives.old.counts }
    ensures unfit { (c s : ℕ) → is_unfit lives.new.unfit c s ≡ (if s == start then false else is_unfit lives.old.unfit c s) }
    ensures normal { (s : ℕ) → normal_at lives.new s ≡ with_key (normal_at lives.old) start (if normal then Some class else None) s }
{
    if normal {
        lives.put_normal(start, class);
    } else {
        lives.drop_normal(start);
    }
}
