// Slabs that are nearly done.
ghost use Rattle.std.specs.Prelude.{◌≡◌, ◌↔◌, ◌<◌, ℕ, true, IsTrue, MatchOption};
ghost use Rattle.image_tables.specs.Tables.{tables_of};
ghost use Rattle.heap_model.specs.Machine.{slab_block};
ghost use Rattle.heap_check.specs.Sound.{IsLeaving, IsNearlyDone};
ghost use Rattle.heap_check.specs.Image.{IsSoundImage};
ghost use Rattle.image_defects.specs.Least.{HasNone};
ghost use Rattle.log_steps.specs.Log.{IsBookOf};
ghost use Rattle.recovery_steps.specs.Names.{AreNames};
ghost use Rattle.recovery_steps.specs.Nearly.{HasOtherNear, IsDoneBesides};

use crate::RootNames;
use crate::search::{Loose, find};
use attach_wal::WalEntry;
use book_log::BookLog;
use defect_search::open_entry;
use image_reading::{block_at, held_root, is_slab, live_at, number_at, state_field};

// The kind of a normal slab's state.
const NORMAL: u32 = 1;

// The first byte of the old block in a place of a slab's index table.
fn old_block_at(words: &[u64], start: u32, place: u32) -> u32
    requires image { IsSoundImage words.now }
    requires slab { (tables_of words.now).slab start ≡ true }
    requires place { place < ((tables_of words.now).header start).index_count }
    ensures { let t = tables_of words.now in result ≡ (slab_block start (t.header start).old ((t.header start).number place)).at }
{
    let old = state_field(words, start, 16) as u8;
    block_at(start, old, number_at(words, start, place))
}

// The entry is of the old block in that place, and its root holds nothing.
fn is_leaving(words: &[u64], entry: Option<WalEntry>, start: u32, place: u32) -> bool
    requires image { IsSoundImage words.now }
    requires entry { (tables_of words.now).open_entry ≡ entry }
    requires slab { (tables_of words.now).slab start ≡ true }
    requires place { place < ((tables_of words.now).header start).index_count }
    ensures { IsTrue result ↔ IsLeaving (tables_of words.now) start place }
{
    let (root, at, named) = match entry {
        Some(
            WalEntry::Place {
                root,
                at,
                old: true,
                place: named,
            },
        ) => (root, at, named),
        _ => return false,
    };
    if named != place {
        return false;
    }
    if at != old_block_at(words, start, place) {
        return false;
    }
    held_root(words, entry, root) == 0
}

// Each live old block of a slab is leaving.
fn are_leaving(words: &[u64], entry: Option<WalEntry>, start: u32) -> bool
    requires image { IsSoundImage words.now }
    requires entry { (tables_of words.now).open_entry ≡ entry }
    requires slab { (tables_of words.now).slab start ≡ true }
    ensures { let t = tables_of words.now in IsTrue result ↔ ((place : ℕ) → place < (t.header start).index_count → (t.header start).live place ≡ true → IsLeaving t start place) }
{
    for place in 0..state_field(words, start, 24) {
        if live_at(words, start, place) {
            if !is_leaving(words, entry, start, place) {
                return false;
            }
        }
    }
    true
}

// A slab that is nearly done starts at a granule.
fn is_nearly_done(words: &[u64], log: &BookLog, entry: Option<WalEntry>, start: u32) -> bool
    requires image { IsSoundImage words.now }
    requires book { IsBookOf log.now words.now }
    requires entry { (tables_of words.now).open_entry ≡ entry }
    ensures { IsTrue result ↔ IsNearlyDone (tables_of words.now) start }
{
    if !is_slab(log, start) {
        return false;
    }
    if state_field(words, start, 0) == NORMAL {
        return false;
    }
    are_leaving(words, entry, start)
}

// A slab other than this one is nearly done.
fn has_other_near(words: &[u64], log: &BookLog, entry: Option<WalEntry>, done: u32) -> bool
    requires image { IsSoundImage words.now }
    requires book { IsBookOf log.now words.now }
    requires entry { (tables_of words.now).open_entry ≡ entry }
    ensures { IsTrue result ↔ HasOtherNear (tables_of words.now) done }
{
    for start in 0..log.granules() {
        if start != done {
            if is_nearly_done(words, log, entry, start) {
                return true;
            }
        }
    }
    false
}

/// A slab that is done, where another is nearly so, if there is one.
pub(crate) fn done_besides(words: &[u64], log: &BookLog, names: &RootNames) -> Option<u32>
    requires image { IsSoundImage words.now }
    requires book { IsBookOf log.now words.now }
    requires names { AreNames names.now words.now }
    ensures { MatchOption result (HasNone (IsDoneBesides (tables_of words.now))) (IsDoneBesides (tables_of words.now)) }
{
    let done = match find(words, log, names, Loose::Done) {
        Some(done) => done,
        None => return None,
    };
    if has_other_near(words, log, open_entry(words), done) {
        Some(done)
    } else {
        None
    }
}
