// What a defect names, where one number is not enough.

/// A word of the log: the number of its chunk, its own in the chunk, and the word.
#[derive(Clone, Copy, Debug, PartialEq, Eq)]
pub struct LogPlace {
    pub chunk: u32,
    pub entry: u32,
    pub value: u64,
}

/// Two roots, or the starts of two extents in granules.
#[derive(Clone, Copy, Debug, PartialEq, Eq)]
pub struct Pair {
    pub first: u32,
    pub second: u32,
}

/// A word of the header of a slab: the granule at which the slab starts, and the word.
#[derive(Clone, Copy, Debug, PartialEq, Eq)]
pub struct SlabWord {
    pub start: u32,
    pub value: u64,
}

/// How many things are loose, by kind.
#[derive(Clone, Copy, Debug, PartialEq, Eq)]
pub struct Loose {
    /// Large extents that no root holds.
    pub large: u32,
    /// Slabs in which no root's block lies.
    pub empty: u32,
    /// Slabs that are taking another class.
    pub morphing: u32,
    /// Slabs that took another class and have no live block of the class before left.
    pub done: u32,
}
