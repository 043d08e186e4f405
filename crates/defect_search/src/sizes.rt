// The size of the block of a root, by its address.
ghost use Rattle.std.specs.Prelude.{◌≡◌, ◌≢◌, ◌<◌, ◌*◌, ◌/◌, ℕ, List, Some, if◌then◌else◌};
ghost use Rattle.image_tables.specs.Tables.{tables_of};
ghost use Rattle.slab_header.specs.State.{class_of, old_of};
ghost use Rattle.book_log.specs.Book.{Reads};
ghost use Rattle.heap_check.specs.Heap.{slab_of, is_old, entry_at, entry_old, size_by, size_at};
ghost use Rattle.image_reading.specs.Extents.{HasExtents};
ghost use Rattle.image_reading.specs.Slabs.{IsRead};
ghost use Rattle.image_reading.specs.Held.{AreSlabsAt};

use crate::open_words::class_of;
use crate::root::open_at;
use book_log::BookLog;
use image_reading::{Slab, has_old, is_large, is_slab, large_at, read_slab};
use image_tables::WalEntry;
use size_classes::size_of_class;
use slab_header::SlabState;

// The class that a slab had before, 0 where it had none.
fn old_of(state: SlabState) -> u8
    ensures { result ≡ old_of state }
{
    match state {
        SlabState::Normal { .. } => 0,
        SlabState::Morphing { old, .. } => old,
        SlabState::Morphed { old, .. } => old,
    }
}

/// The start of the slab that has a granule, where one has it.
pub fn slab_of(log: &BookLog, granule: u32) -> u32
    ensures { (words : List ℕ) → Reads log.now words → result ≡ slab_of (tables_of words).slab granule }
{
    if is_slab(log, granule) {
        return granule;
    }
    if is_slab(log, granule.saturating_sub(1)) {
        return granule.saturating_sub(1);
    }
    if is_slab(log, granule.saturating_sub(2)) {
        return granule.saturating_sub(2);
    }
    granule.saturating_sub(3)
}

// The class of the slab that starts at a granule, or that which it had before; 0 where none does, or it had none.
fn class_by(words: &[u64], log: &BookLog, start: u32, of_old: bool) -> u8
    requires reads { Reads log.now words.now }
    requires slabs { AreSlabsAt words.now }
    ensures class { (if of_old then ((tables_of words.now).header start).old else ((tables_of words.now).header start).class) ≡ result }
    ensures is_class { result < 36 }
{
    if !is_slab(log, start) {
        return 0;
    }
    let slab = read_slab(words, start);
    if of_old {
        old_of(slab.state)
    } else {
        class_of(slab.state)
    }
}

// The size of a block of the slab that has an address, of the class before or of its class. No slab begins past granule
// 65535, and where none has the address, the class is 0.
fn size_by(words: &[u64], log: &BookLog, at: u64, of_old: bool) -> u64
    requires reads { Reads log.now words.now }
    requires slabs { AreSlabsAt words.now }
    ensures { result ≡ size_by (tables_of words.now) at of_old }
{
    let granule = at / 16384;
    if granule >= 65536 {
        return u64::from(size_of_class(0));
    }
    let class = class_by(words, log, slab_of(log, granule as u32), of_old);
    u64::from(size_of_class(class))
}

// A live entry of a slab's index table has its block at this byte.
fn has_old_in(words: &[u64], slab: Slab, at: u64) -> bool
    requires { IsRead words.now slab }
    ensures { result ≡ is_old ((tables_of words.now).header slab.start) slab.start at }
{
    match slab.state {
        SlabState::Normal { .. } => false,
        SlabState::Morphing { old, entries, .. } => has_old(words, slab, old, entries, at),
        SlabState::Morphed { old, entries, .. } => has_old(words, slab, old, entries, at),
    }
}

// The same of the slab that starts at a granule, if one does.
fn is_old_in(words: &[u64], log: &BookLog, start: u32, at: u64) -> bool
    requires reads { Reads log.now words.now }
    requires slabs { AreSlabsAt words.now }
    ensures { result ≡ is_old ((tables_of words.now).header start) start at }
{
    if !is_slab(log, start) {
        return false;
    }
    has_old_in(words, read_slab(words, start), at)
}

// The same of the slab that has the address.
fn is_old_at(words: &[u64], log: &BookLog, at: u64) -> bool
    requires reads { Reads log.now words.now }
    requires slabs { AreSlabsAt words.now }
    ensures { result ≡ is_old ((tables_of words.now).header (slab_of (tables_of words.now).slab (at / 16384))) (slab_of (tables_of words.now).slab (at / 16384)) at }
{
    let granule = at / 16384;
    if granule >= 65536 {
        return false;
    }
    is_old_in(words, log, slab_of(log, granule as u32), at)
}

// An entry is one of an old block.
fn is_old_entry(entry: WalEntry) -> bool
    ensures { result ≡ entry_old (Some entry) }
{
    match entry {
        WalEntry::Place { old, .. } => old,
        WalEntry::Move { .. } => false,
    }
}

// The open entry is one of an old block.
fn is_open_old(entry: Option<WalEntry>) -> bool
    ensures { result ≡ entry_old entry }
{
    match entry {
        None => false,
        Some(open) => is_old_entry(open),
    }
}

// The granules of the large extent that starts at this byte.
fn large_size(log: &BookLog, at: u64) -> u64
    requires { at / 16384 < 65536 }
    ensures { (words : List ℕ) → Reads log.now words → result ≡ 16384 * (tables_of words).large (at / 16384) }
{
    16384 * u64::from(large_at(log, (at / 16384) as u32))
}

/// The size of the block of a root at this byte, other than 0.
pub(crate) fn size_at(
    words: &[u64],
    log: &BookLog,
    entry: Option<WalEntry>,
    root: u32,
    at: u64,
) -> u64
    requires reads { Reads log.now words.now }
    requires slabs { AreSlabsAt words.now }
    requires extents { HasExtents words.now }
    requires entry { (tables_of words.now).open_entry ≡ entry }
    requires some { at ≢ 0 }
    ensures { result ≡ size_at (tables_of words.now) root at }
{
    if is_large(words, log, at) {
        return large_size(log, at);
    }
    if open_at(entry, root) == at {
        return size_by(words, log, at, is_open_old(entry));
    }
    size_by(words, log, at, is_old_at(words, log, at))
}
