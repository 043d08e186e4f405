// The blocks of a slab that a range covers are open again, where nothing else covers them.
ghost use Rattle.std.specs.Prelude.{◌≡◌, ◌⊎◌, ◌≢◌, ◌↔◌, ◌<◌, ◌≤◌, ◌+◌, ℕ, Some, IsTrue};
ghost use Rattle.size_classes.specs.Classes.{class_capacity};
ghost use Rattle.heap_model.specs.Machine.{AreApart, slab_block};
ghost use Rattle.slab_index.specs.SlabSet.{class_in};
ghost use Rattle.block_supply.specs.Supply.{MayBeGiven};
ghost use Rattle.unit_map.specs.Blocks.{IsClearRange};
ghost use Rattle.heap_indexes.specs.Kept.{HasOpened, HasNoneOpen, IsBehindHeader, IsCovered, HasOpenedOne};

use crate::range::{UNIT_BYTES, address_of, blocks_from};
use block_supply::{BlockSupply, SlabAt};
use size_classes::{capacity, size_of_class};
use unit_map::UnitMap;

/// Blocks of a slab that stand side by side: those from a number on, and below another.
#[derive(Clone, Copy)]
pub(crate) struct Row {
    pub(crate) from: u32,
    pub(crate) end: u32,
}

/// Of the blocks of a slab that overlap a range, none of which is open, those are open from then on that are clear. It looks at
/// no others.
pub(crate) fn open_covered(
    supply: &mut BlockSupply,
    units: &UnitMap,
    slab: SlabAt,
    at: u32,
    size: u32,
)
    requires slab { class_in supply.old.slabs slab.start ≡ Some slab.class }
    requires class { slab.class < 36 }
    requires inside { slab.start + 4 ≤ units.now.granules }
    requires few { units.now.granules ≤ 4096 }
    requires range { IsBehindHeader slab.start (record { at = at; size = size }) }
    requires none { HasNoneOpen supply.old slab.start slab.class (record { at = at; size = size }) }
    ensures { HasOpened units.now supply.old slab.start slab.class (record { at = at; size = size }) supply.new }
{
    let row = covered_by(slab, at, size);
    let end = row.end;
    for number in row.from..end {
        open_if_clear(supply, units, slab, number);
    }
}

// Opens a block that is not open where it is clear.
fn open_if_clear(supply: &mut BlockSupply, units: &UnitMap, slab: SlabAt, number: u32)
    requires slab { class_in supply.old.slabs slab.start ≡ Some slab.class }
    requires class { slab.class < 36 }
    requires inside { slab.start + 4 ≤ units.now.granules }
    requires few { units.now.granules ≤ 4096 }
    requires within { number < class_capacity slab.class }
    requires none { ¬ (MayBeGiven supply.old slab.start number) }
    ensures { HasOpenedOne units.now supply.old slab.start slab.class number supply.new }
{
    let at = address_of(slab.start, slab.class, number);
    if units.is_clear(at / UNIT_BYTES, size_of_class(slab.class) / UNIT_BYTES) {
        supply.make_available(slab.start, number);
    }
}

// The blocks of a slab's class that overlap a range in it.
fn covered_by(slab: SlabAt, at: u32, size: u32) -> Row
    requires class { slab.class < 36 }
    requires few { slab.start < 4096 }
    requires range { IsBehindHeader slab.start (record { at = at; size = size }) }
    ensures { IsCovered slab.start slab.class (record { at = at; size = size }) result.from result.end }
{
    let width = size_of_class(slab.class);
    let from = at - blocks_from(slab.start);
    Row {
        from: from / width,
        end: (from + size).div_ceil(width).min(capacity(slab.class)),
    }
}
