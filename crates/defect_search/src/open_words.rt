// Entries that may be open.
ghost use Rattle.std.specs.Prelude.{◌≡◌, ◌↔◌, ◌⊎◌, ◌+◌, ◌<◌, ◌≤◌, true, false, length, Some, IsTrue};
ghost use Rattle.pool_layout.specs.Layout.{layout_of};
ghost use Rattle.pool_layout.specs.Header.{version_in};
ghost use Rattle.image_tables.specs.Tables.{tables_of};
ghost use Rattle.image_tables.specs.Updates.{with_open_entry};
ghost use Rattle.slab_header.specs.State.{kind_of, class_of, old_of, entries_of};
ghost use Rattle.book_log.specs.Book.{Reads};
ghost use Rattle.heap_check.specs.Sound.{IsNewEntry, IsOldEntry, IsOpenPlace, IsOpenMove, IsOpenEntry};
ghost use Rattle.heap_check.specs.Image.{bounds_of};
ghost use Rattle.image_defects.specs.Wal.{IsOpenWord};
ghost use Rattle.image_reading.specs.Slabs.{IsRead, AreSlabs};
ghost use Rattle.image_reading.specs.Held.{AreSlabsAt};
ghost use Rattle.defect_search.specs.OpenWords.{IsNewBlock, IsOldBlock, HasNoneMorphing, IsMovable};

use attach_wal::entry_of;
use book_log::BookLog;
use image_reading::{Slab, block_at, number_at, number_of, root_word, roots_of, slab_back};
use image_tables::WalEntry;
use slab_header::SlabState;

/// The class of a slab.
pub(crate) fn class_of(state: SlabState) -> u8
    ensures { result ≡ class_of state }
{
    match state {
        SlabState::Normal { class } => class,
        SlabState::Morphing { class, .. } => class,
        SlabState::Morphed { class, .. } => class,
    }
}

// The slab takes another class.
fn is_morphing(state: SlabState) -> bool
    ensures { IsTrue result ↔ (kind_of state ≡ 2) }
{
    match state {
        SlabState::Morphing { .. } => true,
        _ => false,
    }
}

// No slab takes another class.
fn none_is_morphing(words: &[u64], slabs: &[Slab]) -> bool
    requires { AreSlabs words.now slabs.now }
    ensures { IsTrue result ↔ HasNoneMorphing (tables_of words.now) }
{
    for i in 0..slabs.len() {
        if is_morphing(slabs[i].state) {
            return false;
        }
    }
    true
}

// A block of its class begins at this byte, in a slab that was read.
fn has_new(words: &[u64], slab: Slab, at: u64) -> bool
    requires { IsRead words.now slab }
    ensures { IsTrue result ↔ IsNewBlock (tables_of words.now) slab.start at }
{
    match number_of(slab.start, class_of(slab.state), at) {
        Some(_) => true,
        None => false,
    }
}

// A block of its class begins at this byte, in some slab.
fn is_new(words: &[u64], log: &BookLog, at: u32) -> bool
    requires reads { Reads log.now words.now }
    requires slabs { AreSlabsAt words.now }
    ensures { IsTrue result ↔ IsNewEntry (tables_of words.now) at }
{
    let last = at / 16384;
    for back in 0..4u32 {
        if let Some(slab) = slab_back(words, log, last, back) {
            if has_new(words, slab, u64::from(at)) {
                return true;
            }
        }
    }
    false
}

// A place of the index table of a slab that took another class has its block at this byte.
fn has_old_place(words: &[u64], slab: Slab, old: u8, entries: u8, at: u32, place: u32) -> bool
    requires slab { IsRead words.now slab }
    requires kind { kind_of slab.state ≡ 3 }
    requires old { old_of slab.state ≡ old }
    requires is_class { old < 36 }
    requires entries { entries_of slab.state ≡ entries }
    ensures { IsTrue result ↔ IsOldBlock (tables_of words.now) slab.start at place }
{
    if place >= u32::from(entries) {
        return false;
    }
    at == block_at(slab.start, old, number_at(words, slab.start, place))
}

// The same of a slab that was read, if it took another class.
fn has_old_of(words: &[u64], slab: Slab, at: u32, place: u32) -> bool
    requires { IsRead words.now slab }
    ensures { IsTrue result ↔ IsOldBlock (tables_of words.now) slab.start at place }
{
    match slab.state {
        SlabState::Normal { .. } => false,
        SlabState::Morphing { .. } => false,
        SlabState::Morphed { old, entries, .. } => {
            has_old_place(words, slab, old, entries, at, place)
        }
    }
}

// The place of some slab's index table has its block at this byte.
fn is_old(words: &[u64], log: &BookLog, at: u32, place: u32) -> bool
    requires reads { Reads log.now words.now }
    requires slabs { AreSlabsAt words.now }
    ensures { IsTrue result ↔ IsOldEntry (tables_of words.now) at place }
{
    let last = at / 16384;
    for back in 0..4u32 {
        if let Some(slab) = slab_back(words, log, last, back) {
            if has_old_of(words, slab, at, place) {
                return true;
            }
        }
    }
    false
}

// The word of a root is 0 or this address.
fn is_word_of(words: &[u64], root: u32, at: u32) -> bool
    requires { 2048 + (layout_of (version_in words.now)).roots ≤ length words.now }
    ensures { IsTrue result ↔ (((tables_of words.now).word root ≡ 0) ⊎ ((tables_of words.now).word root ≡ at)) }
{
    let word = root_word(words, root);
    word == 0 || word == u64::from(at)
}

// A block that a place entry may name begins at this byte.
fn has_entry_block(words: &[u64], log: &BookLog, at: u32, old: bool, place: u32) -> bool
    requires reads { Reads log.now words.now }
    requires slabs { AreSlabsAt words.now }
    ensures { IsTrue result ↔ (((old ≡ false) × IsNewEntry (tables_of words.now) at) ⊎ ((old ≡ true) × IsOldEntry (tables_of words.now) at place)) }
{
    if old {
        is_old(words, log, at, place)
    } else {
        is_new(words, log, at)
    }
}

// A place entry may be open alone, but for slabs that take another class.
fn may_place(words: &[u64], log: &BookLog, root: u32, at: u32, old: bool, place: u32) -> bool
    requires reads { Reads log.now words.now }
    requires slabs { AreSlabsAt words.now }
    requires inside { 2048 + (layout_of (version_in words.now)).roots ≤ length words.now }
    ensures { IsTrue result ↔ IsOpenPlace (bounds_of words.now) (with_open_entry (tables_of words.now) (Some (WalEntry.Place root at old place))) root at old place }
{
    if root >= roots_of(words) {
        return false;
    }
    if !is_word_of(words, root, at) {
        return false;
    }
    has_entry_block(words, log, at, old, place)
}

// One of two words at least is not 0, and where neither is, they are the same.
fn are_movable(from: u64, to: u64) -> bool
    ensures { IsTrue result ↔ IsMovable from to }
{
    if from == 0 {
        return to != 0;
    }
    to == 0 || from == to
}

// A move entry may be open alone, but for slabs that take another class.
fn may_move(words: &[u64], from: u32, to: u32) -> bool
    requires { 2048 + (layout_of (version_in words.now)).roots ≤ length words.now }
    ensures { IsTrue result ↔ IsOpenMove (bounds_of words.now) (with_open_entry (tables_of words.now) (Some (WalEntry.Move from to))) from to }
{
    let roots = roots_of(words);
    if from >= roots {
        return false;
    }
    if to >= roots {
        return false;
    }
    if from == to {
        return false;
    }
    are_movable(root_word(words, from), root_word(words, to))
}

// A word of a write-ahead line is an entry that may be open alone. `slabs` has all slabs.
pub(crate) fn is_open_word(words: &[u64], log: &BookLog, slabs: &[Slab], word: u64) -> bool
    requires reads { Reads log.now words.now }
    requires slabs { AreSlabsAt words.now }
    requires list { AreSlabs words.now slabs.now }
    requires inside { 2048 + (layout_of (version_in words.now)).roots ≤ length words.now }
    ensures { IsTrue result ↔ IsOpenWord words.now word }
{
    if !none_is_morphing(words, slabs) {
        return false;
    }
    match entry_of(word) {
        None => false,
        Some(
            WalEntry::Place {
                root,
                at,
                old,
                place,
            },
        ) => may_place(words, log, root, at, old, place),
        Some(WalEntry::Move { from, to }) => may_move(words, from, to),
    }
}
