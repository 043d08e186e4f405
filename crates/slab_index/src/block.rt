// Blocks of a slab, by their numbers.

use arrayvec::ArrayVec;

/// Block `number` of the slab that begins at granule `start`.
#[derive(Clone, Copy, Debug, PartialEq, Eq)]
pub struct SlabBlock {
    pub start: u32,
    pub number: u32,
}

/// At most eight blocks of the slab that begins at granule `start`, by their numbers.
#[derive(Drop)]
pub struct SlabBlocks {
    pub start: u32,
    pub numbers: ArrayVec<u32, 8>,
}
