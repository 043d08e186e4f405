// The loose things that are counted.
ghost use Rattle.std.specs.Prelude.{◌≡◌, ◌≢◌, ◌↔◌, ◌⊎◌, ◌+◌, ◌-◌, ◌*◌, ◌/◌, ◌<◌, ◌≤◌, ◌^◌, ℕ, true, false, List, length, IsTrue, IfOk, if◌then◌else◌};
ghost use Rattle.image_tables.specs.Tables.{is_slab, state_field, tables_of};
ghost use Rattle.pool_layout.specs.Layout.{layout_of};
ghost use Rattle.pool_layout.specs.Header.{version_in, granules_in};
ghost use Rattle.book_log.specs.Book.{Reads};
ghost use Rattle.heap_check.specs.Sound.{IsLooseLarge, IsEmptySlab, IsMorphing, IsDoneSlab, AreFewLoose};
ghost use Rattle.defect_search.specs.Roots.{mark_in, IsNamedStart, IsNamedGranule, AreMarks};
ghost use Rattle.image_reading.specs.Slabs.{IsSlabAt};
ghost use Rattle.image_defects.specs.Loose.{AreLoose, IsTooMany};
ghost use Rattle.defect_search.specs.Arena.{IsArena};

use book_log::BookLog;
use image_defects::Loose;
use image_reading::{held_root, is_slab, large_at, live_at, roots_of, state_field};
use image_tables::WalEntry;
use pmem_lines::OutOfMemory;
use std::alloc::Global;

// One of the four counts is above 1.
fn is_above(loose: &Loose) -> bool
    ensures { IsTrue result ↔ IsTooMany loose.now }
{
    loose.large > 1 || loose.empty > 1 || loose.morphing > 1 || loose.done > 1
}

/// One of the four counts is above 1: else of each kind there is one at most.
pub fn is_too_many(loose: &Loose) -> bool
    ensures many { IsTrue result ↔ IsTooMany loose.now }
    ensures few { (words : List ℕ) → IsArena words → AreLoose (tables_of words) (granules_in words) loose.now → ((result ≡ false) ↔ AreFewLoose (tables_of words)) }
{
    is_above(loose)
}

// No mark for any of so many granules.
fn no_marks(alloc: Global, granules: u32) -> Result<Vec<bool>, OutOfMemory>
    ensures size { IfOk result (λ marks. length marks.items ≡ granules) }
    ensures none { IfOk result (λ marks. (k : ℕ) → mark_in marks.items k ≡ false) }
{
    let mut marks = Vec::with_capacity(alloc, granules as usize)?;
    for _granule in 0..granules {
        marks.push(false)?;
    }
    Ok(marks)
}

// Marks a granule, if there is a mark for it.
fn mark(marks: &mut [bool], k: u64)
    ensures { (j : ℕ) → j < length marks.old → ((mark_in marks.new j ≡ true) ↔ ((mark_in marks.old j ≡ true) ⊎ (j ≡ k))) }
{
    if k < marks.len() as u64 {
        marks[k as usize] = true;
    }
}

// Marks the granule at whose first byte the block of a root begins, by its address.
fn mark_start(marks: &mut [bool], word: u64)
    ensures { (j : ℕ) → j < length marks.old → ((mark_in marks.new j ≡ true) ↔ ((mark_in marks.old j ≡ true) ⊎ ((word ≢ 0) × (word ≡ 16384 * j)))) }
{
    if word != 0 && word % 16384 == 0 {
        mark(marks, word / 16384);
    }
}

// Marks the granule in which the block of a root begins, by its address.
fn mark_granule(marks: &mut [bool], word: u64)
    ensures { (j : ℕ) → j < length marks.old → ((mark_in marks.new j ≡ true) ↔ ((mark_in marks.old j ≡ true) ⊎ ((word ≢ 0) × (word / 16384 ≡ j)))) }
{
    if word != 0 {
        mark(marks, word / 16384);
    }
}

/// The granules, of so many, at whose first byte a root's block begins.
pub fn named_starts(
    alloc: Global,
    words: &[u64],
    entry: Option<WalEntry>,
    granules: u32,
) -> Result<Vec<bool>, OutOfMemory>
    requires entry { (tables_of words.now).open_entry ≡ entry }
    requires inside { 2048 + (layout_of (version_in words.now)).roots ≤ length words.now }
    ensures size { IfOk result (λ marks. length marks.items ≡ granules) }
    ensures named { IfOk result (λ marks. AreMarks (IsNamedStart (tables_of words.now) (layout_of (version_in words.now)).roots) marks.items) }
{
    let mut marks = no_marks(alloc, granules)?;
    for root in 0..roots_of(words) {
        mark_start(&mut marks, held_root(words, entry, root));
    }
    Ok(marks)
}

/// The granules, of so many, in which a root's block begins.
pub fn named_granules(
    alloc: Global,
    words: &[u64],
    entry: Option<WalEntry>,
    granules: u32,
) -> Result<Vec<bool>, OutOfMemory>
    requires entry { (tables_of words.now).open_entry ≡ entry }
    requires inside { 2048 + (layout_of (version_in words.now)).roots ≤ length words.now }
    ensures size { IfOk result (λ marks. length marks.items ≡ granules) }
    ensures named { IfOk result (λ marks. AreMarks (IsNamedGranule (tables_of words.now) (layout_of (version_in words.now)).roots) marks.items) }
{
    let mut marks = no_marks(alloc, granules)?;
    for root in 0..roots_of(words) {
        mark_granule(&mut marks, held_root(words, entry, root));
    }
    Ok(marks)
}

/// A large extent starts at a granule, and no root holds it.
pub fn is_loose_large(words: &[u64], log: &BookLog, starts: &[bool], start: u32) -> bool
    requires arena { IsArena words.now }
    requires reads { Reads log.now words.now }
    requires size { length starts.now ≡ granules_in words.now }
    requires named { AreMarks (IsNamedStart (tables_of words.now) (layout_of (version_in words.now)).roots) starts.now }
    requires inside { start < granules_in words.now }
    ensures { IsTrue result ↔ IsLooseLarge (tables_of words.now) start }
{
    if large_at(log, start) == 0 {
        return false;
    }
    !starts[start as usize]
}

// No root's block begins in the four granules from one on.
fn is_unmet(met: &[bool], start: u32) -> bool
    requires { start + 4 ≤ length met.now }
    ensures { IsTrue result ↔ ((k : ℕ) → start ≤ k → k < start + 4 → mark_in met.now k ≡ false) }
{
    for k in start as usize..start as usize + 4 {
        if met[k] {
            return false;
        }
    }
    true
}

/// A slab starts at a granule, and no root's block lies in it.
pub fn is_empty_slab(words: &[u64], log: &BookLog, met: &[bool], start: u32) -> bool
    requires arena { IsArena words.now }
    requires reads { Reads log.now words.now }
    requires size { length met.now ≡ granules_in words.now }
    requires named { AreMarks (IsNamedGranule (tables_of words.now) (layout_of (version_in words.now)).roots) met.now }
    ensures { IsTrue result ↔ IsEmptySlab (tables_of words.now) start }
{
    if !is_slab(log, start) {
        return false;
    }
    is_unmet(met, start)
}

// A slab of this kind starts at a granule.
fn is_kind(words: &[u64], log: &BookLog, start: u32, kind: u32) -> bool
    requires arena { IsArena words.now }
    requires reads { Reads log.now words.now }
    ensures slab { IsTrue result ↔ ((is_slab words.now start ≡ true) × (((tables_of words.now).header start).kind ≡ kind)) }
    ensures at { IsTrue result → IsSlabAt words.now start }
{
    if !is_slab(log, start) {
        return false;
    }
    state_field(words, start, 0) == kind
}

/// A slab in Morphing starts at a granule.
pub fn is_morphing(words: &[u64], log: &BookLog, start: u32) -> bool
    requires arena { IsArena words.now }
    requires reads { Reads log.now words.now }
    ensures { IsTrue result ↔ IsMorphing (tables_of words.now) start }
{
    is_kind(words, log, start, 2)
}

// No old block of a slab lives.
fn is_all_dead(words: &[u64], start: u32) -> bool
    requires slab { IsSlabAt words.now start }
    requires few { state_field words.now start 24 ≤ 64 }
    ensures { IsTrue result ↔ ((place : ℕ) → place < state_field words.now start 24 → ((tables_of words.now).header start).live place ≡ false) }
{
    for place in 0..state_field(words, start, 24) {
        if live_at(words, start, place) {
            return false;
        }
    }
    true
}

/// A Morphed slab without a live old block starts at a granule.
pub fn is_done(words: &[u64], log: &BookLog, start: u32) -> bool
    requires arena { IsArena words.now }
    requires reads { Reads log.now words.now }
    ensures { IsTrue result ↔ IsDoneSlab (tables_of words.now) start }
{
    if !is_kind(words, log, start, 3) {
        return false;
    }
    is_all_dead(words, start)
}

/// A count, with one more where there is one.
pub fn counted(count: u32, more: bool) -> u32
    requires { count < 2 ^ 32 - 1 }
    ensures { result ≡ (if more then count + 1 else count) }
{
    if more { count + 1 } else { count }
}

// Counts the loose things of the four kinds, granule by granule.
fn count_loose(words: &[u64], log: &BookLog, starts: &[bool], met: &[bool]) -> Loose
    requires arena { IsArena words.now }
    requires reads { Reads log.now words.now }
    requires granules { log.now.granules ≡ granules_in words.now }
    requires starts_size { length starts.now ≡ granules_in words.now }
    requires starts { AreMarks (IsNamedStart (tables_of words.now) (layout_of (version_in words.now)).roots) starts.now }
    requires met_size { length met.now ≡ granules_in words.now }
    requires met { AreMarks (IsNamedGranule (tables_of words.now) (layout_of (version_in words.now)).roots) met.now }
    ensures { AreLoose (tables_of words.now) (granules_in words.now) result }
{
    let mut loose = Loose {
        large: 0,
        empty: 0,
        morphing: 0,
        done: 0,
    };
    for start in 0..log.granules() {
        loose.large = counted(loose.large, is_loose_large(words, log, starts, start));
        loose.empty = counted(loose.empty, is_empty_slab(words, log, met, start));
        loose.morphing = counted(loose.morphing, is_morphing(words, log, start));
        loose.done = counted(loose.done, is_done(words, log, start));
    }
    loose
}

/// Counts the loose things of the four kinds.
pub fn loose_things(
    alloc: Global,
    words: &[u64],
    log: &BookLog,
    entry: Option<WalEntry>,
) -> Result<Loose, OutOfMemory>
    requires entry { (tables_of words.now).open_entry ≡ entry }
    requires arena { IsArena words.now }
    requires reads { Reads log.now words.now }
    requires granules { log.now.granules ≡ granules_in words.now }
    ensures { IfOk result (AreLoose (tables_of words.now) (granules_in words.now)) }
{
    let granules = log.granules();
    let starts = named_starts(alloc, words, entry, granules)?;
    let met = named_granules(alloc, words, entry, granules)?;
    Ok(count_loose(words, log, &starts, &met))
}
