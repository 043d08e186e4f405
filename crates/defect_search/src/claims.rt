// The blocks of all roots.
ghost use Rattle.std.specs.Prelude.{◌≡◌, ◌+◌, ◌≤◌, length, MatchOption, IfOk};
ghost use Rattle.pool_layout.specs.Layout.{layout_of};
ghost use Rattle.pool_layout.specs.Header.{version_in};
ghost use Rattle.image_tables.specs.Tables.{tables_of};
ghost use Rattle.book_log.specs.Book.{Reads};
ghost use Rattle.heap_check.specs.Heap.{claim_at};
ghost use Rattle.image_defects.specs.Wal.{IsGoodWal};
ghost use Rattle.image_reading.specs.Extents.{HasExtents};
ghost use Rattle.image_reading.specs.Held.{AreSlabsAt};
ghost use Rattle.defect_search.specs.Claims.{AreClaims};
ghost use Rattle.defect_search.specs.Claimed.{HasNoClaim, IsClaimOf};

use crate::Claim;
use crate::root::open_at;
use crate::sizes::size_at;
use book_log::BookLog;
use image_reading::{held_root, roots_of};
use image_tables::WalEntry;
use pmem_lines::OutOfMemory;
use std::alloc::Global;

// The address of the block of a root, 0 where it has none. The block of an open place entry counts as its root's.
fn claim_at(words: &[u64], entry: Option<WalEntry>, root: u32) -> u64
    requires entry { (tables_of words.now).open_entry ≡ entry }
    requires inside { 2048 + (layout_of (version_in words.now)).roots ≤ length words.now }
    ensures { result ≡ claim_at (tables_of words.now) root }
{
    let held = held_root(words, entry, root);
    if held == 0 {
        return open_at(entry, root);
    }
    held
}

// The block of a root, if it has one.
fn claim_of(words: &[u64], log: &BookLog, entry: Option<WalEntry>, root: u32) -> Option<Claim>
    requires reads { Reads log.now words.now }
    requires slabs { AreSlabsAt words.now }
    requires extents { HasExtents words.now }
    requires entry { (tables_of words.now).open_entry ≡ entry }
    requires inside { 2048 + (layout_of (version_in words.now)).roots ≤ length words.now }
    ensures { MatchOption result (HasNoClaim (tables_of words.now) root) (IsClaimOf (tables_of words.now) root) }
{
    let at = claim_at(words, entry, root);
    if at == 0 {
        return None;
    }
    Some(Claim {
        root,
        at,
        size: size_at(words, log, entry, root, at),
    })
}

/// The blocks of all roots, by rising root. The write-ahead lines and the headers of slabs are good.
pub fn claims_of(
    alloc: Global,
    words: &[u64],
    log: &BookLog,
    entry: Option<WalEntry>,
) -> Result<Vec<Claim>, OutOfMemory>
    requires reads { Reads log.now words.now }
    requires slabs { AreSlabsAt words.now }
    requires extents { HasExtents words.now }
    requires wal { IsGoodWal words.now }
    requires entry { (tables_of words.now).open_entry ≡ entry }
    requires inside { 2048 + (layout_of (version_in words.now)).roots ≤ length words.now }
    ensures { IfOk result (λ claims. AreClaims (tables_of words.now) claims.items) }
{
    let mut claims = Vec::new(alloc);
    for root in 0..roots_of(words) {
        if let Some(claim) = claim_of(words, log, entry, root) {
            claims.push(claim)?;
        }
    }
    Ok(claims)
}
