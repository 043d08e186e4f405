// Which blocks of one class overlap a block of another, in one slab.
ghost use Rattle.std.specs.Prelude.{◌<◌};
ghost use Rattle.size_classes.specs.Classes.{class_capacity};
ghost use Rattle.slab_morph.specs.Overlaps.{IsOverlapRange};

use size_classes::{capacity, size_of_class};

/// The blocks of `class` that overlap block `number` of class `old` in one slab: the first one's number, and one past the
/// last one's. Neither is above the capacity of `class`. Where none overlaps, behind the last block of `class`, both are
/// that capacity. Classes are below 36, and `number` is below the capacity of `old`.
pub fn overlaps(old: u8, number: u32, class: u8) -> (u32, u32)
    requires old_class { old < 36 }
    requires class { class < 36 }
    requires number { number < class_capacity old }
    ensures { IsOverlapRange old number class result.0 result.1 }
{
    let size = size_of_class(class);
    let blocks = capacity(class);
    let from = number * size_of_class(old);
    let first = from / size;
    if first >= blocks {
        return (blocks, blocks);
    }
    let end = (from + size_of_class(old)).div_ceil(size);
    (first, end.min(blocks))
}
