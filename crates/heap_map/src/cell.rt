// What a granule of an arena is.

use image_reading::Slab;

/// A slab, and how many blocks live in it.
#[derive(Clone, Copy, Debug)]
pub struct SlabFill {
    /// The granule at which it begins, and its state.
    pub slab: Slab,
    /// Blocks of its class that live in it. In the LOG variant they are those whose bits are set, and none while it is taking
    /// the class.
    pub live: u32,
    /// Blocks of other classes that live in it. In the LOG variant they are of the class before, and live by its index table.
    pub old: u32,
    /// Bytes of all of these.
    pub bytes: u32,
    /// It is in transition.
    pub turns: bool,
}

/// What a granule of an arena is. A start is the granule at which an extent begins.
#[derive(Clone, Copy, Debug)]
pub enum Kind {
    /// It has the header line and the write-ahead lines.
    Header,
    /// It has root words.
    Roots,
    /// It has chunks of the log.
    Log,
    /// It lies in the heap, and in no extent.
    Free,
    /// It lies in a large extent.
    Large { start: u32 },
    /// It lies in a slab.
    Slab { fill: SlabFill },
}

/// What a granule of an arena is, and whether that is loose.
#[derive(Clone, Copy, Debug)]
pub struct Cell {
    pub kind: Kind,
    pub loose: bool,
}
