// Headers of slabs.
ghost use Rattle.std.specs.Prelude.{◌≡◌, ◌↔◌, ◌<◌, ◌≤◌, false, IsTrue, MatchOption, IfOk};
ghost use Rattle.pool_layout.specs.Header.{granules_in};
ghost use Rattle.image_tables.specs.Tables.{tables_of};
ghost use Rattle.book_log.specs.Book.{Reads};
ghost use Rattle.image_defects.specs.Headers.{IsGoodSlab, AreGoodSlabs, IsBadPlace, IsBadIndex, IsBadWord, IsFirstBadWord};
ghost use Rattle.image_reading.specs.Slabs.{IsSlabAt, AreSlabs};
ghost use Rattle.image_reading.specs.Held.{AreSlabsAt};
ghost use Rattle.defect_search.specs.Headers.{AreSlabsInside, HasNumber, IsGoodPlace, AreGoodPlaces, IsStateOf, IsGoodIfSlab, IsBadSlabWord};

use book_log::BookLog;
use image_defects::SlabWord;
use image_reading::{Slab, index_word, is_slab, number_at, read_slab, state_word};
use pmem_lines::OutOfMemory;
use size_classes::capacity;
use slab_header::{SlabState, index_of, state_of};
use std::alloc::Global;

// One of the first n places of a slab's index table has this number.
fn has_number(words: &[u64], start: u32, n: u32, number: u32) -> bool
    requires at { IsSlabAt words.now start }
    requires few { n ≤ 64 }
    ensures { IsTrue result ↔ HasNumber (tables_of words.now) start n number }
{
    for place in 0..n {
        if number_at(words, start, place) == number {
            return true;
        }
    }
    false
}

// A place of a slab's index table is of the format.
fn is_good_place(words: &[u64], start: u32, old: u8, place: u32) -> bool
    requires at { IsSlabAt words.now start }
    requires old { ((tables_of words.now).header start).old ≡ old }
    requires is_class { old < 36 }
    requires few { place < 64 }
    requires below { place < ((tables_of words.now).header start).index_count }
    ensures good { IsTrue result → IsGoodPlace words.now start place }
    ensures bad { result ≡ false → IsBadPlace words.now start place }
{
    let entry = match index_of(index_word(words, start, place)) {
        None => return false,
        Some(entry) => entry,
    };
    if entry.number >= capacity(old) {
        return false;
    }
    !has_number(words, start, place, entry.number)
}

// The first word of a slab's index table that is not of the format.
fn bad_index(words: &[u64], start: u32, old: u8, entries: u8) -> Option<u64>
    requires at { IsSlabAt words.now start }
    requires old { ((tables_of words.now).header start).old ≡ old }
    requires is_class { old < 36 }
    requires entries { ((tables_of words.now).header start).index_count ≡ entries }
    requires few { entries ≤ 64 }
    ensures { MatchOption result (AreGoodPlaces words.now start) (IsBadIndex words.now start) }
{
    for place in 0..u32::from(entries) {
        if !is_good_place(words, start, old, place) {
            return Some(index_word(words, start, place));
        }
    }
    None
}

// The same for a slab of this state.
fn bad_entry_of(words: &[u64], start: u32, state: SlabState) -> Option<u64>
    requires at { IsSlabAt words.now start }
    requires state { IsStateOf words.now start state }
    ensures { MatchOption result (AreGoodPlaces words.now start) (IsBadIndex words.now start) }
{
    match state {
        SlabState::Normal { .. } => None,
        SlabState::Morphing { old, entries, .. } => bad_index(words, start, old, entries),
        SlabState::Morphed { old, entries, .. } => bad_index(words, start, old, entries),
    }
}

// The first word of a slab's header that is not of the format: the state word first, then the index table.
fn bad_word(words: &[u64], start: u32) -> Option<u64>
    requires { IsSlabAt words.now start }
    ensures { MatchOption result (IsGoodSlab words.now start) (IsBadWord words.now start) }
{
    let word = state_word(words, start);
    match state_of(word) {
        None => Some(word),
        Some(state) => bad_entry_of(words, start, state),
    }
}

// The same for the slab that starts at a granule, if one does.
fn bad_word_at(words: &[u64], log: &BookLog, start: u32) -> Option<u64>
    requires reads { Reads log.now words.now }
    requires slabs { AreSlabsInside words.now }
    ensures { MatchOption result (IsGoodIfSlab words.now start) (IsBadSlabWord words.now start) }
{
    if !is_slab(log, start) {
        return None;
    }
    bad_word(words, start)
}

/// The first word of a slab's header that is not of the format, of the slabs by rising start.
pub fn bad_slab(words: &[u64], log: &BookLog) -> Option<SlabWord>
    requires reads { Reads log.now words.now }
    requires granules { log.now.granules ≡ granules_in words.now }
    requires slabs { AreSlabsInside words.now }
    ensures { MatchOption result (AreGoodSlabs words.now) (IsFirstBadWord words.now) }
{
    for start in 0..log.granules() {
        if let Some(value) = bad_word_at(words, log, start) {
            return Some(SlabWord { start, value });
        }
    }
    None
}

/// All slabs, by rising start. Their headers are good.
pub fn slabs_of(alloc: Global, words: &[u64], log: &BookLog) -> Result<Vec<Slab>, OutOfMemory>
    requires reads { Reads log.now words.now }
    requires granules { log.now.granules ≡ granules_in words.now }
    requires inside { AreSlabsInside words.now }
    requires slabs { AreSlabsAt words.now }
    ensures { IfOk result (λ slabs. AreSlabs words.now slabs.items) }
{
    let mut slabs = Vec::new(alloc);
    for start in 0..log.granules() {
        if is_slab(log, start) {
            slabs.push(read_slab(words, start))?;
        }
    }
    Ok(slabs)
}
