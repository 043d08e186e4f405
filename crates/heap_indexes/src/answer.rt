// What the indexes answer.

/// Where a block was found. A start is the granule that granules or a slab begin at, and a number that of a block in its slab.
#[derive(Clone, Copy, Debug, PartialEq, Eq)]
pub enum Place {
    /// So many whole granules from one on.
    Granules { start: u32, granules: u32 },
    /// A block of a slab, which has the class.
    InSlab { start: u32, class: u8, number: u32 },
    /// A block of a slab that has taken the class for it.
    InMorph { start: u32, class: u8, number: u32 },
    /// A block of a slab that was made for it.
    InNewSlab { start: u32, class: u8, number: u32 },
}

/// What came back.
#[derive(Clone, Copy, Debug, PartialEq, Eq)]
pub enum Given {
    /// Whole granules, from one on.
    Granules { start: u32 },
    /// A block of a slab that other blocks live in.
    Block,
    /// The last block of the slab that begins at a granule. The slab went with it.
    Slab { start: u32 },
}
