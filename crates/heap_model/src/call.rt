// What is asked of an arena, and what it answers.

/// What a caller asks of an arena. A root is the number of a root word, an index the number of a word in its block,
/// and a size is in bytes.
#[derive(Clone, Copy, Debug, PartialEq, Eq)]
pub enum Call {
    Malloc { root: u32, size: u64 },
    Free { root: u32 },
    Write { root: u32, index: u32, value: u64 },
    Read { root: u32, index: u32 },
    Move { from: u32, to: u32 },
}

/// What an arena answers. An address is in bytes from the arena's first one, and a size is in bytes.
#[derive(Clone, Copy, Debug, PartialEq, Eq)]
pub enum Reply {
    /// The root names this block now.
    Placed { at: u32, size: u32 },
    /// The root named this block, and names none now.
    Freed { at: u32, size: u32 },
    /// The word was written.
    Wrote,
    /// The word that stands there.
    Value { word: u64 },
    /// The one root named this block, and the other one names it now.
    Moved { at: u32, size: u32 },
    /// There is no such root word.
    NoRoot,
    /// The root names the block at this address already.
    Occupied { at: u32 },
    /// The root names no block.
    Empty,
    /// No block has zero bytes.
    ZeroSize,
    /// No heap of this size could hold it.
    TooLarge,
    /// The block has no such word.
    OutOfRange,
    /// The heap has no place for it as it is.
    NoSpace,
}

/// One line of an arena's journal: who asked, what, and the answer.
#[derive(Clone, Copy, Debug, PartialEq, Eq)]
pub struct Entry {
    pub seat: u32,
    pub call: Call,
    pub reply: Reply,
}
