// The write-ahead lines.
ghost use Rattle.std.specs.Prelude.{◌≡◌, ◌+◌, ◌≤◌, length, MatchOption};
ghost use Rattle.pool_layout.specs.Layout.{layout_of};
ghost use Rattle.pool_layout.specs.Header.{version_in};
ghost use Rattle.image_tables.specs.Tables.{tables_of};
ghost use Rattle.book_log.specs.Book.{Reads};
ghost use Rattle.image_defects.specs.Least.{IsLeast};
ghost use Rattle.image_defects.specs.Wal.{IsGoodWal, IsBadLine};
ghost use Rattle.image_reading.specs.Slabs.{AreSlabs};
ghost use Rattle.image_reading.specs.Held.{AreSlabsAt};
ghost use Rattle.defect_search.specs.OpenWords.{AreClosedFrom, IsNextLine};

use crate::open_words::is_open_word;
use attach_wal::entry_of;
use book_log::BookLog;
use image_reading::{Slab, wal_word};
use image_tables::WalEntry;

/// The first line from one on whose word is not 0.
pub fn next_line(words: &[u64], from: u32) -> Option<u32>
    requires { 2048 + (layout_of (version_in words.now)).roots ≤ length words.now }
    ensures { MatchOption result (AreClosedFrom words.now from) (IsNextLine words.now from) }
{
    for line in from..8u32 {
        if wal_word(words, line) != 0 {
            return Some(line);
        }
    }
    None
}

/// The first write-ahead line whose word is not 0 and is no entry that may be open, or is not the first such word. `slabs`
/// has all slabs.
pub fn bad_line(words: &[u64], log: &BookLog, slabs: &[Slab]) -> Option<u32>
    requires reads { Reads log.now words.now }
    requires slabs { AreSlabsAt words.now }
    requires list { AreSlabs words.now slabs.now }
    requires inside { 2048 + (layout_of (version_in words.now)).roots ≤ length words.now }
    ensures { MatchOption result (IsGoodWal words.now) (IsLeast (IsBadLine words.now)) }
{
    let first = match next_line(words, 0) {
        None => return None,
        Some(line) => line,
    };
    if !is_open_word(words, log, slabs, wal_word(words, first)) {
        return Some(first);
    }
    next_line(words, first + 1)
}

/// The open entry, if there is one. The write-ahead lines are good.
pub fn open_entry(words: &[u64]) -> Option<WalEntry>
    requires wal { IsGoodWal words.now }
    requires inside { 2048 + (layout_of (version_in words.now)).roots ≤ length words.now }
    ensures { result ≡ (tables_of words.now).open_entry }
{
    match next_line(words, 0) {
        None => None,
        Some(line) => entry_of(wal_word(words, line)),
    }
}
