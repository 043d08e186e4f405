// The map of units.
ghost use Rattle.std.specs.Prelude.{◌≡◌, ◌↔◌, ℕ, ◌+◌, ◌*◌, ◌<◌, ◌≤◌, true, false, length, IsTrue, MatchOption, IfOk};
ghost use Rattle.size_classes.specs.Classes.{class_capacity};
ghost use Rattle.bit_words.specs.Numbers.{has};
ghost use Rattle.heap_model.specs.Machine.{slab_block};
ghost use Rattle.unit_map.specs.Units.{is_used, IsMarked, IsClear};
ghost use Rattle.unit_map.specs.Blocks.{IsClearRange, HasNoClearBlock, IsFirstClearBlock};
ghost use Rattle.unit_map.specs.Kept.{AreBlocksOf};

use crate::block_row::{BlockRow, first_free, held_blocks};
use crate::words::{has_none, put_range};
use pmem_lines::OutOfMemory;
use size_classes::{capacity, size_of_class};
use std::alloc::Global;
use std::marker::Model;

// How many bytes a unit has.
const UNIT_BYTES: u32 = 16;

// How many units a granule has.
const GRANULE_UNITS: u32 = 1024;

// How many units the header of a slab has, which lies before its blocks.
const HEADER_UNITS: u32 = 128;

// How many words have the units of a granule.
const GRANULE_WORDS: usize = 16;

/// Which units of an arena are used, 16 bytes each: those that small blocks lie in. In contracts it is a mark for each unit.
#[derive(Drop)]
pub struct UnitMap {
    words: Vec<u64>,
}

impl Model for UnitMap {
    ghost use Rattle.unit_map.specs.Units.{Units};

    ghost Value = { Units };

    ghost use Rattle.unit_map.specs.Kept.{units_of, AreWords};

    ghost view = { λ map. units_of map.words.items };

    ghost invariant = { λ map. AreWords map.words.items };
}

impl UnitMap {
    /// A map of an arena of at most 4096 granules, of which no unit is used. It takes 128 bytes for each granule, and refuses
    /// where there is no memory for them; no later call takes any.
    pub fn new(alloc: Global, granules: u32) -> Result<UnitMap, OutOfMemory>
        requires { granules ≤ 4096 }
        ensures granules { IfOk result (λ units. units.granules ≡ granules) }
        ensures none { IfOk result (λ units. (k : ℕ) → is_used units k ≡ false) }
    {
        let words = vec![in alloc; 0; GRANULE_WORDS * granules as usize]?;
        Ok(UnitMap { words })
    }

    /// Marks so many units from one on: exactly these are used besides those that were. It looks at each word of theirs once,
    /// so at 17 words for the largest block.
    pub fn mark(&mut self, from: u32, count: u32)
        requires { from + count ≤ 1024 * self.old.granules }
        ensures { IsMarked self.old from count true self.new }
    {
        put_range(&mut self.words, from, from + count, true);
    }

    /// Clears so many units from one on: none of these is used any more, and all others stay. It looks at as many words as
    /// `mark`.
    pub fn clear(&mut self, from: u32, count: u32)
        requires { from + count ≤ 1024 * self.old.granules }
        ensures { IsMarked self.old from count false self.new }
    {
        put_range(&mut self.words, from, from + count, false);
    }

    /// Whether none of so many units from one on is used. It looks at as many words as `mark`, or at fewer where one is used.
    pub fn is_clear(&self, from: u32, count: u32) -> bool
        requires { from + count ≤ 1024 * self.now.granules }
        ensures { IsTrue result ↔ IsClear self.now from count }
    {
        has_none(&self.words, from, from + count)
    }

    /// The lowest block of a class, at or above a number, whose units are clear, of those in the slab that begins at granule
    /// `start`; which class the slab has makes no difference. `None` exactly where there is none. Units that are used are
    /// passed over word by word.
    pub fn first_clear(&self, start: u32, class: u8, from: u32) -> Option<u32>
        requires inside { start + 4 ≤ self.now.granules }
        requires class { class < 36 }
        ensures { MatchOption result (HasNoClearBlock self.now start class from) (IsFirstClearBlock self.now start class from) }
    {
        first_free(&self.words, blocks_of(start, class), from)
    }

    /// The blocks of a class in the slab that begins at granule `start` of which a unit is used, as a set of 4096 numbers;
    /// which class the slab has makes no difference. Units that are not used are passed over word by word.
    pub fn used_blocks(&self, start: u32, class: u8) -> [u64; 64]
        requires inside { start + 4 ≤ self.now.granules }
        requires class { class < 36 }
        ensures size { length result ≡ 64 }
        ensures blocks { (i : ℕ) → i < class_capacity class → (has result i ≡ false) ↔ IsClearRange self.now (slab_block start class i) }
    {
        held_blocks(&self.words, blocks_of(start, class))
    }
}

// The blocks of a class in the slab that begins at a granule, as units.
fn blocks_of(start: u32, class: u8) -> BlockRow
    requires inside { start < 4096 }
    requires class { class < 36 }
    ensures { AreBlocksOf start class result }
{
    BlockRow {
        first: GRANULE_UNITS * start + HEADER_UNITS,
        units: size_of_class(class) / UNIT_BYTES,
        count: capacity(class),
    }
}
