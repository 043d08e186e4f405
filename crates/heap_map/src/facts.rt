// What is told of the granules of a sound image, in numbers.

use image_defects::Summary;

/// How an arena is kept.
#[derive(Clone, Copy, Debug, PartialEq, Eq)]
pub enum Variant {
    /// Which small blocks live is said by bits, and write-ahead entries say what is under way.
    Log,
    /// Which small blocks live is said by the words of roots alone.
    Gc,
}

/// How full the slabs of a class are.
#[derive(Clone, Copy, Debug, PartialEq, Eq)]
pub struct ClassFill {
    /// Slabs of the class, those in transition to it among them.
    pub slabs: u32,
    /// Blocks of the class that live in them.
    pub live: u32,
    /// Blocks of the class that live in slabs of another class.
    pub old: u32,
}

/// How many there are of what the tables of an arena say.
#[derive(Clone, Copy, Debug, PartialEq, Eq)]
pub struct Facts {
    /// The variant of the arena.
    pub variant: Variant,
    /// The version of the layout.
    pub version: u32,
    /// Granules of the arena.
    pub granules: u32,
    /// Granules of the heap in no extent.
    pub free: u32,
    /// The most of them in a row.
    pub longest: u32,
    /// Slabs in transition: in the LOG variant those that are taking another class, or took one and are not normal yet; in the
    /// other those with blocks of another class than theirs.
    pub transitions: u32,
    /// Live large extents, live slabs, roots that hold a block, and loose things.
    pub summary: Summary,
}
