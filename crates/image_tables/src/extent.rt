// What starts at a granule.

/// A live extent, without its start: a large block of so many granules, or a slab, which has four.
#[derive(Clone, Copy, Debug, PartialEq, Eq)]
pub enum Extent {
    Large { granules: u32 },
    Slab,
}
