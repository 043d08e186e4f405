// The blocks of a slab.

/// A block of a slab: the granule at which the slab begins, the block's number in it, and its first byte in the arena.
#[derive(Clone, Copy, Debug, PartialEq, Eq)]
pub struct SmallBlock {
    pub start: u32,
    pub number: u32,
    pub at: u32,
}

/// An old block of a slab that took another class: the granule at which the slab begins, the block's place in the index
/// table, from 0 to 63, and its first byte in the arena.
#[derive(Clone, Copy, Debug, PartialEq, Eq)]
pub struct OldBlock {
    pub start: u32,
    pub place: u32,
    pub at: u32,
}
