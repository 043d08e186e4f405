// What is told of a sound image.

/// How many there are of what the words of an arena say.
#[derive(Clone, Copy, Debug, PartialEq, Eq)]
pub struct Summary {
    /// Live large extents.
    pub large: u32,
    /// Live slabs.
    pub slabs: u32,
    /// Roots that hold a block.
    pub blocks: u32,
    /// Loose things: the open entry, a block that a slab holds and no root, and the four kinds that are counted.
    pub loose: u32,
}
