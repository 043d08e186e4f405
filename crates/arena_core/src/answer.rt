// What the calls of an arena answer.

use thiserror::Error;

/// The block that a root names now: its first byte in the arena, and its size in bytes.
#[derive(Clone, Copy, Debug, PartialEq, Eq)]
pub struct Placed {
    pub at: u32,
    pub size: u32,
}

/// The block that a root named: its first byte in the arena, and its size in bytes.
#[derive(Clone, Copy, Debug, PartialEq, Eq)]
pub struct Freed {
    pub at: u32,
    pub size: u32,
}

/// The block that moved: its first byte in the arena, and its size in bytes.
#[derive(Clone, Copy, Debug, PartialEq, Eq)]
pub struct Moved {
    pub at: u32,
    pub size: u32,
}

/// Why a root gets no block. The first that holds is answered.
#[derive(Clone, Copy, Debug, PartialEq, Eq, Error)]
pub enum MallocRefusal {
    /// The root is not below the number of root words.
    #[error("NoRoot")]
    NoRoot,
    /// The root names the block at this address already.
    #[error("Occupied")]
    Occupied { at: u32 },
    /// No bytes were asked for.
    #[error("ZeroSize")]
    ZeroSize,
    /// More bytes were asked for than the whole heap has.
    #[error("TooLarge")]
    TooLarge,
    /// The heap has no place for such a block as it is.
    #[error("NoSpace")]
    NoSpace,
}

/// Why a root loses no block. The first that holds is answered.
#[derive(Clone, Copy, Debug, PartialEq, Eq, Error)]
pub enum FreeRefusal {
    /// The root is not below the number of root words.
    #[error("NoRoot")]
    NoRoot,
    /// The root names no block.
    #[error("Empty")]
    Empty,
}

/// Why no block moves from a root to another. The first that holds is answered.
#[derive(Clone, Copy, Debug, PartialEq, Eq, Error)]
pub enum MoveRefusal {
    /// One of the two is not below the number of root words.
    #[error("NoRoot")]
    NoRoot,
    /// The root that it would leave names no block.
    #[error("Empty")]
    Empty,
    /// The root that it would come to names the block at this address already.
    #[error("Occupied")]
    Occupied { at: u32 },
}

/// Why the words of a root's block are not written, or not lent. The first that holds is answered.
#[derive(Clone, Copy, Debug, PartialEq, Eq, Error)]
pub enum BlockRefusal {
    /// The root is not below the number of root words.
    #[error("NoRoot")]
    NoRoot,
    /// The root names no block.
    #[error("Empty")]
    Empty,
    /// The words would not all be words of the block.
    #[error("OutOfRange")]
    OutOfRange,
}
