// Blocks of a slab and their addresses.
ghost use Rattle.std.specs.Prelude.{◌≡◌, ◌^◌, ◌<◌, MatchOption};
ghost use Rattle.size_classes.specs.Classes.{class_capacity};
ghost use Rattle.heap_model.specs.Machine.{slab_block};
ghost use Rattle.image_reading.specs.Held.{IsNumberAt, HasNoNumber};

use pool_layout::{blocks_at, granule_at};
use size_classes::{capacity, size_of_class};

/// The first byte of a block of a slab.
pub fn block_at(start: u32, class: u8, i: u32) -> u32
    requires start { start < 2 ^ 16 }
    requires class { class < 36 }
    requires block { i < class_capacity class }
    ensures { result ≡ (slab_block start class i).at }
{
    blocks_at(granule_at(start)) + i * size_of_class(class)
}

/// The number of the block of a class that begins at this byte.
pub fn number_of(start: u32, class: u8, at: u64) -> Option<u32>
    requires start { start < 2 ^ 16 }
    requires class { class < 36 }
    ensures { MatchOption result (HasNoNumber start class at) (IsNumberAt start class at) }
{
    let base = u64::from(blocks_at(granule_at(start)));
    let size = u64::from(size_of_class(class));
    if at < base {
        return None;
    }
    let number = (at - base) / size;
    if number >= u64::from(capacity(class)) {
        return None;
    }
    if base + number * size != at {
        return None;
    }
    Some(number as u32)
}
