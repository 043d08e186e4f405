// Roots that hold an address at which no block may stand.
ghost use Rattle.std.specs.Prelude.{◌≡◌, Some, ◌+◌, ◌<◌, ◌≤◌, ◌^◌, false, length, IsTrue, MatchOption};
ghost use Rattle.pool_layout.specs.Layout.{layout_of};
ghost use Rattle.pool_layout.specs.Header.{version_in};
ghost use Rattle.image_tables.specs.Tables.{tables_of};
ghost use Rattle.book_log.specs.Book.{Reads};
ghost use Rattle.heap_check.specs.Heap.{entry_at};
ghost use Rattle.image_defects.specs.Least.{IsLeast};
ghost use Rattle.image_reading.specs.Extents.{HasExtents};
ghost use Rattle.image_reading.specs.Held.{AreSlabsAt};
ghost use Rattle.image_defects.specs.Roots.{AreStanding, IsStrayRoot};
ghost use Rattle.defect_search.specs.Roots.{IsSettled};

use book_log::BookLog;
use image_reading::{held_root, is_standing, roots_of};
use image_tables::WalEntry;

// The address that an entry has for a root, 0 where it has none.
fn entry_at(entry: WalEntry, root: u32) -> u64
    ensures { result ≡ entry_at (Some entry) root }
{
    match entry {
        WalEntry::Place {
            root: named,
            at,
            ..
        } => { if root == named { u64::from(at) } else { 0 } }
        WalEntry::Move { .. } => 0,
    }
}

// The address that an open place entry has for a root, 0 where it has none.
pub(crate) fn open_at(entry: Option<WalEntry>, root: u32) -> u64
    ensures { result ≡ entry_at entry root }
{
    match entry {
        None => 0,
        Some(open) => entry_at(open, root),
    }
}

// A root holds such an address.
fn is_stray_root(words: &[u64], log: &BookLog, entry: Option<WalEntry>, root: u32) -> bool
    requires reads { Reads log.now words.now }
    requires slabs { AreSlabsAt words.now }
    requires extents { HasExtents words.now }
    requires entry { (tables_of words.now).open_entry ≡ entry }
    requires inside { 2048 + (layout_of (version_in words.now)).roots ≤ length words.now }
    ensures stray { IsTrue result → IsStrayRoot (tables_of words.now) root }
    ensures settled { result ≡ false → IsSettled (tables_of words.now) root }
{
    let at = held_root(words, entry, root);
    if at == 0 {
        return false;
    }
    !is_standing(words, log, open_at(entry, root), root, at)
}

/// The lowest root that holds an address at which no block may stand.
pub fn stray_root(words: &[u64], log: &BookLog, entry: Option<WalEntry>) -> Option<u32>
    requires reads { Reads log.now words.now }
    requires slabs { AreSlabsAt words.now }
    requires extents { HasExtents words.now }
    requires entry { (tables_of words.now).open_entry ≡ entry }
    requires inside { 2048 + (layout_of (version_in words.now)).roots ≤ length words.now }
    ensures { MatchOption result (AreStanding (tables_of words.now)) (IsLeast (IsStrayRoot (tables_of words.now))) }
{
    for root in 0..roots_of(words) {
        if is_stray_root(words, log, entry, root) {
            return Some(root);
        }
    }
    None
}
