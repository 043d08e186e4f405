// What a write-ahead entry says is under way.

/// A write-ahead entry.
#[derive(Clone, Copy, Debug, PartialEq, Eq)]
pub enum WalEntry {
    /// A small block comes to a root, or goes from it: the root, the block's first byte in the arena, whether it is an old
    /// block of its slab, and then its place in the slab's index table, from 0 to 63.
    Place {
        root: u32,
        at: u32,
        old: bool,
        place: u32,
    },
    /// A block of any size moves from a root to another.
    Move {
        from: u32,
        to: u32,
    },
}
