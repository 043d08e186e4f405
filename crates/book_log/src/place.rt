// The place of an entry in the log.

/// The number of a chunk, below 16, and the number of an entry in it.
#[derive(Clone, Copy, Debug, PartialEq, Eq)]
pub struct EntryPlace {
    pub chunk: u32,
    pub entry: u32,
}
