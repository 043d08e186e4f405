// Blocks that a slab holds, by address.
ghost use Rattle.std.specs.Prelude.{◌≡◌, ◌↔◌, ◌^◌, ◌<◌, ◌≤◌, ◌+◌, ℕ, true, IsTrue, MatchOption};
ghost use Rattle.size_classes.specs.Classes.{class_capacity};
ghost use Rattle.image_tables.specs.Tables.{is_slab, tables_of};
ghost use Rattle.slab_header.specs.State.{class_of, old_of, entries_of};
ghost use Rattle.book_log.specs.Book.{Reads};
ghost use Rattle.heap_check.specs.Sound.{IsHeld, IsStanding};
ghost use Rattle.heap_check.specs.Heap.{is_large, entry_at};
ghost use Rattle.image_reading.specs.Extents.{HasExtents};
ghost use Rattle.image_reading.specs.Slabs.{IsSlabAt, IsRead};
ghost use Rattle.image_defects.specs.Headers.{IsGoodSlab};
ghost use Rattle.image_reading.specs.Held.{IsHeldBy, HasBitAt, HasOldAt, IsNumberAt, HasNoNumber, AreSlabsAt, HasNoBack, IsReadBack};

use crate::Slab;
use crate::block::{block_at, number_of};
use crate::reading::{bit_at, is_slab, large_at, live_at, number_at, word_at};
use book_log::BookLog;
use pool_layout::granule_at;
use slab_header::{SlabState, state_of};

/// The slab that starts at a granule, whose header is valid.
pub fn read_slab(words: &[u64], start: u32) -> Slab
    requires at { IsSlabAt words.now start }
    requires good { IsGoodSlab words.now start }
    ensures start { result.start ≡ start }
    ensures read { IsRead words.now result }
{
    match state_of(word_at(words, granule_at(start))) {
        Some(state) => Slab { start, state },
        None => unreachable!(),
    }
}

// The block of a set bit begins at this byte.
fn has_bit(words: &[u64], slab: Slab, class: u8, at: u64) -> bool
    requires slab { IsRead words.now slab }
    requires class { class_of slab.state ≡ class }
    requires is_class { class < 36 }
    ensures { IsTrue result ↔ HasBitAt (tables_of words.now) slab.start at }
{
    match number_of(slab.start, class, at) {
        Some(number) => bit_at(words, slab.start, number),
        None => false,
    }
}

// The block of a live index entry begins at this byte.
pub fn has_old(words: &[u64], slab: Slab, old: u8, entries: u8, at: u64) -> bool
    requires slab { IsRead words.now slab }
    requires old { old_of slab.state ≡ old }
    requires is_class { old < 36 }
    requires entries { entries_of slab.state ≡ entries }
    ensures { IsTrue result ↔ HasOldAt (tables_of words.now) slab.start at }
{
    for place in 0..u32::from(entries) {
        if live_at(words, slab.start, place) {
            let number = number_at(words, slab.start, place);
            if u64::from(block_at(slab.start, old, number)) == at {
                return true;
            }
        }
    }
    false
}

// The slab holds a block that begins at this byte.
fn holds(words: &[u64], slab: Slab, at: u64) -> bool
    requires slab { IsRead words.now slab }
    ensures { IsTrue result ↔ IsHeldBy (tables_of words.now) slab.start at }
{
    match slab.state {
        SlabState::Normal { class } => has_bit(words, slab, class, at),
        SlabState::Morphing { old, entries, .. } => has_old(words, slab, old, entries, at),
        SlabState::Morphed {
            class,
            old,
            entries,
        } => has_bit(words, slab, class, at) || has_old(words, slab, old, entries, at),
    }
}

/// The slab that begins so many granules before another, if one does.
pub fn slab_back(words: &[u64], log: &BookLog, last: u32, back: u32) -> Option<Slab>
    requires reads { Reads log.now words.now }
    requires slabs { AreSlabsAt words.now }
    ensures { MatchOption result (HasNoBack words.now last back) (IsReadBack words.now last back) }
{
    if last < back || !is_slab(log, last - back) {
        return None;
    }
    Some(read_slab(words, last - back))
}

/// Some slab holds a block that begins at this byte. It begins at the byte's granule or at one of the three before it.
pub fn is_held(words: &[u64], log: &BookLog, at: u64) -> bool
    requires reads { Reads log.now words.now }
    requires slabs { AreSlabsAt words.now }
    ensures { IsTrue result ↔ IsHeld (tables_of words.now) at }
{
    let granule = at / 16384;
    if granule >= 65536 {
        return false;
    }
    let last = granule as u32;
    for back in 0..4u32 {
        if let Some(slab) = slab_back(words, log, last, back) {
            if holds(words, slab, at) {
                return true;
            }
        }
    }
    false
}

// A live large extent starts at this byte.
pub fn is_large(words: &[u64], log: &BookLog, at: u64) -> bool
    requires reads { Reads log.now words.now }
    requires extents { HasExtents words.now }
    ensures { result ≡ is_large (tables_of words.now).large at }
{
    if at % 16384 != 0 {
        return false;
    }
    let granule = at / 16384;
    if granule >= 65536 {
        return false;
    }
    large_at(log, granule as u32) > 0
}

// A block of a root may stand at this byte, other than 0. `open_at` is the address that the open entry has for the root, or
// 0 where it has none.
pub fn is_standing(words: &[u64], log: &BookLog, open_at: u64, root: u32, at: u64) -> bool
    requires reads { Reads log.now words.now }
    requires slabs { AreSlabsAt words.now }
    requires extents { HasExtents words.now }
    requires entry { entry_at (tables_of words.now).open_entry root ≡ open_at }
    ensures { IsTrue result ↔ IsStanding (tables_of words.now) root at }
{
    if is_large(words, log, at) {
        return true;
    }
    if is_held(words, log, at) {
        return true;
    }
    open_at == at
}
