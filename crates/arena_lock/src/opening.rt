// The state that a journal begins at.
use pmem_lines::Event;
use std::collections::LinkedList;

/// An arena when its journal was empty: what its memory was, where its next write-ahead entry goes, and the stacks of
/// reserved blocks. No value of it is made: contracts alone speak of it.
pub struct Opening {
    /// The words of the memory when a call last began on it.
    pub base: LinkedList<u64>,
    /// What was stored, flushed and fenced since.
    pub events: LinkedList<Event>,
    /// How many events the memory has room for.
    pub room: u32,
    /// How often a call had begun.
    pub begins: u64,
    /// How many events had been made.
    pub made: u64,
    /// The write-ahead line of the next entry, 0 to 7.
    pub next_line: u32,
    /// The stacks of reserved blocks, one after another: 64 of seats for each class, and of each the addresses, the top one
    /// first.
    pub stacks: LinkedList<LinkedList<u32>>,
}
