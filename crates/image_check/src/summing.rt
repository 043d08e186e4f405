// What is told of a sound image.
ghost use Rattle.std.specs.Prelude.{◌≡◌, ◌↔◌, ◌≢◌, ◌+◌, ◌*◌, ◌<◌, ◌≤◌, length, Some, true, IsTrue};
ghost use Rattle.pool_layout.specs.Layout.{layout_of};
ghost use Rattle.pool_layout.specs.Header.{version_in, granules_in};
ghost use Rattle.image_tables.specs.Tables.{tables_of};
ghost use Rattle.book_log.specs.Book.{Reads};
ghost use Rattle.image_defects.specs.Count.{IsCount};
ghost use Rattle.image_defects.specs.Loose.{AreLoose};
ghost use Rattle.image_defects.specs.Summaries.{HasLarge, HasSlab, HasRoot, IsLooseBlock, entry_count, IsSummary};
ghost use Rattle.image_reading.specs.Extents.{HasExtents};
ghost use Rattle.image_reading.specs.Held.{AreSlabsAt};
ghost use Rattle.image_check.specs.Faults.{HasGoodBlocks};
ghost use Rattle.image_check.specs.Totals.{IsLooseAt, IsLooseEntry, HasLooseEntry};

use book_log::BookLog;
use defect_search::counted;
use image_defects::{Loose, Summary};
use image_reading::{held_root, is_held, is_slab, large_at, roots_of};
use image_tables::WalEntry;

// A live large extent starts at a granule.
fn has_large(words: &[u64], log: &BookLog, start: u32) -> bool
    requires { Reads log.now words.now }
    ensures { IsTrue result ↔ HasLarge (tables_of words.now) start }
{
    large_at(log, start) > 0
}

// A live slab starts at a granule.
fn has_slab(words: &[u64], log: &BookLog, start: u32) -> bool
    requires { Reads log.now words.now }
    ensures { IsTrue result ↔ HasSlab (tables_of words.now) start }
{
    is_slab(log, start)
}

// How many large extents are live, and how many slabs.
#[derive(Clone, Copy)]
struct ExtentCounts {
    large: u32,
    slabs: u32,
}

fn count_extents(words: &[u64], log: &BookLog, granules: u32) -> ExtentCounts
    requires { Reads log.now words.now }
    ensures large { IsCount (HasLarge (tables_of words.now)) granules result.large }
    ensures slabs { IsCount (HasSlab (tables_of words.now)) granules result.slabs }
{
    let mut counts = ExtentCounts { large: 0, slabs: 0 };
    for start in 0..granules {
        counts.large = counted(counts.large, has_large(words, log, start));
        counts.slabs = counted(counts.slabs, has_slab(words, log, start));
    }
    counts
}

// A root holds a block.
fn has_root(words: &[u64], entry: Option<WalEntry>, root: u32) -> bool
    requires entry { (tables_of words.now).open_entry ≡ entry }
    requires inside { 2048 + (layout_of (version_in words.now)).roots ≤ length words.now }
    ensures { IsTrue result ↔ HasRoot (tables_of words.now) root }
{
    held_root(words, entry, root) != 0
}

fn count_roots(words: &[u64], entry: Option<WalEntry>) -> u32
    requires entry { (tables_of words.now).open_entry ≡ entry }
    requires inside { 2048 + (layout_of (version_in words.now)).roots ≤ length words.now }
    ensures { IsCount (HasRoot (tables_of words.now)) (layout_of (version_in words.now)).roots result }
{
    let mut count = 0;
    for root in 0..roots_of(words) {
        count = counted(count, has_root(words, entry, root));
    }
    count
}

// A slab holds a block at an address while a root holds nothing.
fn is_loose_at(words: &[u64], log: &BookLog, entry: Option<WalEntry>, root: u32, at: u32) -> bool
    requires reads { Reads log.now words.now }
    requires slabs { AreSlabsAt words.now }
    requires entry { (tables_of words.now).open_entry ≡ entry }
    requires inside { 2048 + (layout_of (version_in words.now)).roots ≤ length words.now }
    ensures { IsTrue result ↔ IsLooseAt (tables_of words.now) root at }
{
    if held_root(words, entry, root) != 0 {
        return false;
    }
    is_held(words, log, u64::from(at))
}

// The open entry names such a root and address.
fn is_loose_entry(words: &[u64], log: &BookLog, entry: WalEntry) -> bool
    requires reads { Reads log.now words.now }
    requires slabs { AreSlabsAt words.now }
    requires entry { (tables_of words.now).open_entry ≡ Some entry }
    requires inside { 2048 + (layout_of (version_in words.now)).roots ≤ length words.now }
    ensures { IsTrue result ↔ IsLooseEntry (tables_of words.now) entry }
{
    match entry {
        WalEntry::Place { root, at, .. } => is_loose_at(words, log, Some(entry), root, at),
        WalEntry::Move { .. } => false,
    }
}

// An entry is open and does.
fn has_loose_entry(words: &[u64], log: &BookLog, entry: Option<WalEntry>) -> bool
    requires reads { Reads log.now words.now }
    requires slabs { AreSlabsAt words.now }
    requires entry { (tables_of words.now).open_entry ≡ entry }
    requires inside { 2048 + (layout_of (version_in words.now)).roots ≤ length words.now }
    ensures { IsTrue result ↔ HasLooseEntry (tables_of words.now) entry }
{
    match entry {
        None => false,
        Some(open) => is_loose_entry(words, log, open),
    }
}

// How many blocks slabs hold that no root holds: in an image whose blocks are good that can only be the open entry's.
fn count_blocks(words: &[u64], log: &BookLog, entry: Option<WalEntry>) -> u32
    requires reads { Reads log.now words.now }
    requires slabs { AreSlabsAt words.now }
    requires extents { HasExtents words.now }
    requires entry { (tables_of words.now).open_entry ≡ entry }
    requires inside { 2048 + (layout_of (version_in words.now)).roots ≤ length words.now }
    requires blocks { HasGoodBlocks words.now }
    ensures count { IsCount (IsLooseBlock (tables_of words.now)) (16384 * granules_in words.now) result }
    ensures few { result ≤ 1 }
{
    if has_loose_entry(words, log, entry) {
        1
    } else {
        0
    }
}

// How many entries are open.
fn count_entries(entry: Option<WalEntry>) -> u32
    ensures count { result ≡ entry_count entry }
    ensures few { result ≤ 1 }
{
    match entry {
        None => 0,
        Some(_) => 1,
    }
}

/// What is told of an image without defects, of which `loose` has the counts.
pub(crate) fn summary_of(
    words: &[u64],
    log: &BookLog,
    entry: Option<WalEntry>,
    loose: &Loose,
) -> Summary
    requires reads { Reads log.now words.now }
    requires granules { log.now.granules ≡ granules_in words.now }
    requires slabs { AreSlabsAt words.now }
    requires extents { HasExtents words.now }
    requires entry { (tables_of words.now).open_entry ≡ entry }
    requires inside { 2048 + (layout_of (version_in words.now)).roots ≤ length words.now }
    requires blocks { HasGoodBlocks words.now }
    requires loose { AreLoose (tables_of words.now) (granules_in words.now) loose.now }
    ensures { IsSummary words.now result }
{
    let extents = count_extents(words, log, log.granules());
    let open = count_entries(entry) + count_blocks(words, log, entry);
    Summary {
        large: extents.large,
        slabs: extents.slabs,
        blocks: count_roots(words, entry),
        loose: open + loose.large + loose.empty + loose.morphing + loose.done,
    }
}
