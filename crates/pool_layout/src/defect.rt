// What may be wrong with an image.

use thiserror::Error;

/// Why an image is refused. Places are in bytes from the arena's first one, a start is the number of a granule, and a
/// value is the word that stands there.
#[derive(Clone, Copy, Debug, PartialEq, Eq, Error)]
pub enum Defect {
    /// The image has another number of bytes than it must have; at least 64, for a header line.
    #[error("BadLength")]
    BadLength {
        have: u64,
        need: u64,
    },
    /// This word of the header line is not of the format.
    #[error("BadHeader")]
    BadHeader {
        word: u8,
        value: u64,
    },
    /// The directory of the log does not name one to eight chunks.
    #[error("BadDirectory")]
    BadDirectory {
        value: u64,
    },
    /// The log has a word that is no entry, or one behind an empty one; the chunk goes by its number.
    #[error("BadEntry")]
    BadEntry {
        chunk: u8,
        entry: u16,
        value: u64,
    },
    /// Two live extents share a granule.
    #[error("Overlap")]
    Overlap {
        first: u32,
        second: u32,
    },
    /// The state word or an index entry of the slab is not of the format.
    #[error("BadSlab")]
    BadSlab {
        start: u32,
        value: u64,
    },
    /// A write-ahead word is no entry that may be open.
    #[error("BadWal")]
    BadWal {
        line: u8,
        value: u64,
    },
    /// A root names no block.
    #[error("StrayRoot")]
    StrayRoot {
        root: u32,
        at: u64,
    },
    /// The blocks of two roots overlap.
    #[error("SharedBlock")]
    SharedBlock {
        first: u32,
        second: u32,
    },
    /// A slab holds a block that no root names.
    #[error("StrayBit")]
    StrayBit {
        at: u32,
    },
    /// More is loose than one call can leave: large extents, empty slabs, slabs between two classes, slabs whose old
    /// blocks are gone.
    #[error("TooManyLoose")]
    TooManyLoose {
        large: u32,
        empty: u32,
        morphing: u32,
        done: u32,
    },
}
