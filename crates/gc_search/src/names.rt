// Which granules the blocks of roots begin in.
ghost use Rattle.std.specs.Prelude.{◌≡◌, ◌≢◌, ◌↔◌, ◌⊎◌, ◌+◌, ◌*◌, ◌/◌, ◌<◌, ◌≤◌, ℕ, true, false, length, IfOk};
ghost use Rattle.pool_layout.specs.Layout.{layout_of};
ghost use Rattle.pool_layout.specs.Header.{version_in, granules_in};
ghost use Rattle.defect_search.specs.Roots.{mark_in, IsNamedStart, IsNamedGranule, AreMarks};
ghost use Rattle.gc_check.specs.Heap.{gc_tables};
ghost use Rattle.gc_search.specs.Names.{AreBlankNames, AreNamesOf};

use crate::root_word::address_of;
use image_reading::{root_word, roots_of};
use pmem_lines::OutOfMemory;
use std::alloc::Global;
use std::marker::Model;

/// Which granules of an arena the blocks of its roots begin in.
#[derive(Drop)]
pub struct GcNames {
    starts: Vec<bool>,
    granules: Vec<bool>,
}

impl Model for GcNames {
    ghost use Rattle.gc_search.specs.Names.{Names};

    ghost Value = { Names };

    ghost view = { λ names. record { starts = names.starts.items; granules = names.granules.items } };
}

impl GcNames {
    /// None of so many granules has a name yet. It takes all the memory.
    pub(crate) fn new(alloc: Global, granules: u32) -> Result<GcNames, OutOfMemory>
        ensures { IfOk result (AreBlankNames granules) }
    {
        let starts = no_marks(alloc, granules)?;
        let granules = no_marks(alloc, granules)?;
        Ok(GcNames { starts, granules })
    }

    /// Reads them off the roots of an arena.
    pub(crate) fn read(&mut self, words: &[u64])
        requires blank { AreBlankNames (granules_in words.now) self.old }
        requires inside { 2048 + (layout_of (version_in words.now)).roots ≤ length words.now }
        ensures { AreNamesOf words.now self.new }
    {
        mark_starts(words, &mut self.starts);
        mark_granules(words, &mut self.granules);
    }

    /// For each granule whether a root's block begins at its first byte.
    pub fn starts(&self) -> &[bool]
        ensures { result.now ≡ self.now.starts }
    {
        &self.starts
    }

    /// For each granule whether a root's block begins in it.
    pub fn granules(&self) -> &[bool]
        ensures { result.now ≡ self.now.granules }
    {
        &self.granules
    }
}

// No mark for any of so many granules.
fn no_marks(alloc: Global, granules: u32) -> Result<Vec<bool>, OutOfMemory>
    ensures size { IfOk result (λ marks. length marks.items ≡ granules) }
    ensures none { IfOk result (λ marks. (k : ℕ) → mark_in marks.items k ≡ false) }
{
    let mut marks = Vec::with_capacity(alloc, granules as usize)?;
    for _granule in 0..granules {
        marks.push(false)?;
    }
    Ok(marks)
}

// Marks a granule, if there is a mark for it.
fn mark(marks: &mut [bool], k: u64)
    ensures { (j : ℕ) → j < length marks.old → ((mark_in marks.new j ≡ true) ↔ ((mark_in marks.old j ≡ true) ⊎ (j ≡ k))) }
{
    if k < marks.len() as u64 {
        marks[k as usize] = true;
    }
}

// Marks the granule at whose first byte the block of a root begins, by its address.
fn mark_start(marks: &mut [bool], at: u64)
    ensures { (j : ℕ) → j < length marks.old → ((mark_in marks.new j ≡ true) ↔ ((mark_in marks.old j ≡ true) ⊎ ((at ≢ 0) × (at ≡ 16384 * j)))) }
{
    if at != 0 && at % 16384 == 0 {
        mark(marks, at / 16384);
    }
}

// Marks the granule in which the block of a root begins, by its address.
fn mark_granule(marks: &mut [bool], at: u64)
    ensures { (j : ℕ) → j < length marks.old → ((mark_in marks.new j ≡ true) ↔ ((mark_in marks.old j ≡ true) ⊎ ((at ≢ 0) × (at / 16384 ≡ j)))) }
{
    if at != 0 {
        mark(marks, at / 16384);
    }
}

// The address of the block of a root, 0 where it has none.
fn held_at(words: &[u64], root: u32) -> u64
    requires { 2048 + (layout_of (version_in words.now)).roots ≤ length words.now }
    ensures { result ≡ (gc_tables words.now).root root }
{
    address_of(root_word(words, root))
}

// Marks the granules at whose first byte a root's block begins.
fn mark_starts(words: &[u64], marks: &mut [bool])
    requires inside { 2048 + (layout_of (version_in words.now)).roots ≤ length words.now }
    requires none { (k : ℕ) → mark_in marks.old k ≡ false }
    ensures size { length marks.new ≡ length marks.old }
    ensures named { AreMarks (IsNamedStart (gc_tables words.now) (layout_of (version_in words.now)).roots) marks.new }
{
    for root in 0..roots_of(words) {
        mark_start(marks, held_at(words, root));
    }
}

// Marks the granules in which a root's block begins.
fn mark_granules(words: &[u64], marks: &mut [bool])
    requires inside { 2048 + (layout_of (version_in words.now)).roots ≤ length words.now }
    requires none { (k : ℕ) → mark_in marks.old k ≡ false }
    ensures size { length marks.new ≡ length marks.old }
    ensures named { AreMarks (IsNamedGranule (gc_tables words.now) (layout_of (version_in words.now)).roots) marks.new }
{
    for root in 0..roots_of(words) {
        mark_granule(marks, held_at(words, root));
    }
}
