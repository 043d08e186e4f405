// How the indexes of a state come about that is there already, as that of an image is.
ghost use Rattle.std.specs.Prelude.{◌≡◌};
ghost use Rattle.heap_model.specs.Machine.{Range};
ghost use Rattle.heap_indexes.specs.Adopting.{HasNextBlock, HasNextLarge, HasNextSlab, CountsBlock, TakesLarge, TakesSlab, LawOfPassedRoots, LawOfPassedGranules, LawOfAdoptedIndexes};

use crate::HeapIndexes;
use crate::placing::put_class;
use crate::range::{SLAB_GRANULES, UNIT_BYTES};

impl HeapIndexes {
    /// Counts the small block of the next root, of so many bytes from byte `at` on, in the slab that begins at a granule. `stranger`
    /// says that it has another size than that of the slab's class.
    pub fn count_block(&mut self, start: u32, at: u32, size: u32, stranger: bool)
        requires next { HasNextBlock self.old start (record { at = at; size = size }) stranger }
        ensures counted { CountsBlock self.old start (record { at = at; size = size }) stranger self.new }
        ensures stacks { self.new.supply.stacks ≡ self.old.supply.stacks }
    {
        self.units.mark(at / UNIT_BYTES, size / UNIT_BYTES);
        self.lives.raise(start);
        if stranger {
            let count = self.strangers.at(start) + 1;
            self.strangers.put(start, count);
        }
    }

    /// Takes over the next large block, of so many granules from `start` on.
    pub fn take_large(&mut self, start: u32, granules: u32)
        requires next { HasNextLarge self.old start granules }
        ensures taken { TakesLarge self.old start granules self.new }
        ensures stacks { self.new.supply.stacks ≡ self.old.supply.stacks }
    {
        self.free.take(start, granules);
    }

    /// Takes over the next slab, of a class below 36, once all roots are counted: those of its blocks may be given out of which no
    /// byte lies in a small block.
    pub fn take_slab(&mut self, start: u32, class: u8)
        requires next { HasNextSlab self.old start class }
        ensures taken { TakesSlab self.old start class self.new }
        ensures stacks { self.new.supply.stacks ≡ self.old.supply.stacks }
    {
        self.free.take(start, SLAB_GRANULES);
        let used = self.units.used_blocks(start, class);
        self.supply.add_used(start, class, &used);
        let normal = self.strangers.at(start) == 0;
        put_class(&mut self.lives, start, class, normal);
    }
}

/// A root that names no small block is passed over.
pub fn law_of_passed_roots()
    ensures { LawOfPassedRoots }
{}

/// Granules at which no extent begins are passed over.
pub fn law_of_passed_granules()
    ensures { LawOfPassedGranules }
{}

/// Where all roots are counted and all extents are taken over, the indexes are those of the state.
pub fn law_of_adopted_indexes()
    ensures { LawOfAdoptedIndexes }
{}
