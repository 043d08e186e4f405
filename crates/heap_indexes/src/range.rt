// Where blocks of slabs lie, in bytes and in units.
ghost use Rattle.std.specs.Prelude.{◌≡◌, ◌<◌, ◌*◌, ◌+◌};
ghost use Rattle.size_classes.specs.Classes.{class_capacity};
ghost use Rattle.heap_model.specs.Machine.{slab_block};
ghost use Rattle.heap_indexes.specs.Kept.{IsBlockAt};

use size_classes::size_of_class;

/// How many bytes a granule has.
pub(crate) const GRANULE_BYTES: u32 = 16384;

/// How many granules a slab has.
pub(crate) const SLAB_GRANULES: u32 = 4;

/// How many bytes the largest small block has.
pub(crate) const LARGEST_SMALL: u32 = 16384;

/// How many bytes a unit has.
pub(crate) const UNIT_BYTES: u32 = 16;

// How many bytes the header of a slab has, which lies before its blocks.
const HEADER_BYTES: u32 = 2048;

/// The byte at which the blocks begin of the slab that begins at a granule.
pub(crate) fn blocks_from(start: u32) -> u32
    requires { start < 4096 }
    ensures { result ≡ 16384 * start + 2048 }
{
    GRANULE_BYTES * start + HEADER_BYTES
}

/// The byte at which a block of a class begins in the slab at a granule.
pub(crate) fn address_of(start: u32, class: u8, number: u32) -> u32
    requires start { start < 4096 }
    requires class { class < 36 }
    requires within { number < class_capacity class }
    ensures { result ≡ (slab_block start class number).at }
{
    blocks_from(start) + number * size_of_class(class)
}

/// The number of the block of a class that begins at byte `at` of the slab at a granule.
pub(crate) fn number_of(start: u32, class: u8, at: u32) -> u32
    requires start { start < 4096 }
    requires class { class < 36 }
    requires block { IsBlockAt start class at }
    ensures within { result < class_capacity class }
    ensures at { at ≡ (slab_block start class result).at }
{
    (at - blocks_from(start)) / size_of_class(class)
}
