// Entries of the log, as words.

ghost use Rattle.std.specs.Prelude.{◌≡◌, ◌↔◌, IsTrue, Some, IfSome, MatchOption};
ghost use Rattle.book_log.specs.Entry.{log_word, read_entry, FitsWord, IsInHeap, IsEntryWord, IsNoEntryWord, SaysOf, start_of, extent_of};

use image_tables::Extent;

/// An entry of the log. A start is the number of a granule.
#[derive(Clone, Copy, Debug, PartialEq, Eq)]
pub enum LogEntry {
    /// A large block of so many granules starts there.
    Large { start: u32, granules: u32 },
    /// A slab, of four granules, starts there.
    Slab { start: u32 },
    /// Nothing starts there.
    Tomb { start: u32 },
}

impl LogEntry {
    /// The granule that the entry names.
    pub fn start(self) -> u32
        ensures { result ≡ start_of self }
    {
        match self {
            LogEntry::Large { start, .. } | LogEntry::Slab { start } | LogEntry::Tomb { start } =>
                start,
        }
    }

    /// What starts there.
    pub fn extent(self) -> Option<Extent>
        ensures { result ≡ extent_of self }
    {
        match self {
            LogEntry::Large { granules, .. } => Some(Extent::Large { granules }),
            LogEntry::Slab { .. } => Some(Extent::Slab),
            LogEntry::Tomb { .. } => None,
        }
    }
}

/// The entry of a word, in an arena of so many granules whose heap begins with the granule `first`. There is none
/// exactly where the word is not that of an entry in the heap; so 0 has none.
pub fn log_entry_of(word: u64, first: u32, granules: u32) -> Option<LogEntry>
    ensures { MatchOption result (IsNoEntryWord first granules word) (IsEntryWord first granules word) }
{
    let entry = read_entry(word)?;
    if log_word(entry) == word && is_in_heap(entry, first, granules) {
        Some(entry)
    } else {
        None
    }
}

/// The word of an entry.
pub fn log_word(entry: LogEntry) -> u64
    requires { FitsWord entry }
    ensures word { result ≡ log_word entry }
    ensures inverse { read_entry result ≡ Some entry }
    ensures says { SaysOf result entry }
{
    match entry {
        LogEntry::Large { start, granules } => 1
            + (u64::from(start) << 8)
            + (u64::from(granules) << 24),
        LogEntry::Slab { start } => 2 + (u64::from(start) << 8),
        LogEntry::Tomb { start } => 3 + (u64::from(start) << 8),
    }
}

/// What the fields of a word say, whatever the rest of the word is.
pub(crate) fn read_entry(word: u64) -> Option<LogEntry>
    ensures entry { result ≡ read_entry word }
    ensures fits { IfSome result FitsWord }
{
    let start = ((word >> 8) % 65536) as u32;
    match word % 256 {
        1 => Some(LogEntry::Large {
            start,
            granules: ((word >> 24) % 65536) as u32,
        }),
        2 => Some(LogEntry::Slab { start }),
        3 => Some(LogEntry::Tomb { start }),
        _ => None,
    }
}

// The granules of the entry lie in the heap.
fn is_in_heap(entry: LogEntry, first: u32, granules: u32) -> bool
    requires { FitsWord entry }
    ensures { IsTrue result ↔ IsInHeap first granules entry }
{
    match entry {
        LogEntry::Large {
            start,
            granules: size,
        } => first <= start && 2 <= size && start + size <= granules,
        LogEntry::Slab { start } => first <= start && start + 4 <= granules,
        LogEntry::Tomb { start } => first <= start && start < granules,
    }
}
