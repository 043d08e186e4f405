// The log of an arena of version 2 whose entries are those of one of version 1, each raised.
ghost use Rattle.std.specs.Prelude.{◌≡◌, ◌<◌, ◌≤◌, length};
ghost use Rattle.pool_layout.specs.Layout.{layout_of};
ghost use Rattle.pool_layout.specs.Places.{heap_word};
ghost use Rattle.book_log.specs.Entry.{FitsWord, start_of};
ghost use Rattle.image_raise.specs.Rise.{rise, raised_entry};
ghost use Rattle.image_raise.specs.Front.{IsRaisedWord, HasRaisedEntries, HasRaisedChunks};

use crate::higher::rise;
use book_log::{LogEntry, log_entry_of, log_word};
use pool_layout::{entry_at, layout_of};

// How many chunks a log has, active or not.
const CHUNKS: u32 = 16;

// The entry that names the granule so much higher.
fn raised_entry(entry: LogEntry) -> LogEntry
    requires low { start_of entry < 4096 }
    requires fits { FitsWord entry }
    ensures raised { result ≡ raised_entry rise entry }
    ensures fits { FitsWord result }
{
    match entry {
        LogEntry::Large {
            start,
            granules: size,
        } => LogEntry::Large {
            start: start + rise(),
            granules: size,
        },
        LogEntry::Slab { start } => LogEntry::Slab {
            start: start + rise(),
        },
        LogEntry::Tomb { start } => LogEntry::Tomb {
            start: start + rise(),
        },
    }
}

// The word of the raised entry of a word, in a log of version 1. A word that is none of an entry, as one of a chunk that is not
// active may be, becomes 0.
fn raised_word(word: u64, granules: u32) -> u64
    requires { granules ≤ 4096 }
    ensures { IsRaisedWord granules word result }
{
    match log_entry_of(word, layout_of(1).first_granule, granules) {
        Some(entry) => log_word(raised_entry(entry)),
        None => 0,
    }
}

// Raises the entries of a chunk.
fn raise_chunk(words: &[u64], front: &mut [u64], granules: u32, chunk: u32)
    requires granules { granules ≤ 4096 }
    requires chunk { chunk < 16 }
    requires words { heap_word 1 ≤ length words.now }
    requires front { heap_word 2 ≤ length front.old }
    ensures { HasRaisedEntries words.now granules chunk (layout_of 1).chunk_entries front.old front.new }
{
    for entry in 0..layout_of(1).chunk_entries {
        let word = words[entry_at(1, chunk, entry) as usize / 8];
        front[entry_at(2, chunk, entry) as usize / 8] = raised_word(word, granules);
    }
}

/// Raises the entries of the log of an arena of so many granules: those of each chunk, active or not.
pub(crate) fn raise_log(words: &[u64], front: &mut [u64], granules: u32)
    requires granules { granules ≤ 4096 }
    requires words { heap_word 1 ≤ length words.now }
    requires front { heap_word 2 ≤ length front.old }
    ensures { HasRaisedChunks words.now granules 16 front.old front.new }
{
    for chunk in 0..CHUNKS {
        raise_chunk(words, front, granules, chunk);
    }
}
