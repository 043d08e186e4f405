// What lies in the heap of an arena.

/// A live block: the root word that names it, its first byte in the arena, and its size in bytes.
#[derive(Clone, Copy, Debug, PartialEq, Eq)]
pub struct Block {
    pub root: u32,
    pub at: u32,
    pub size: u32,
}

/// A slab: its first byte in the arena, and the size class of its blocks.
#[derive(Clone, Copy, Debug, PartialEq, Eq)]
pub struct Slab {
    pub at: u32,
    pub class: u8,
}
