// Extents that no root's block lies in.
ghost use Rattle.std.specs.Prelude.{◌≡◌, ◌↔◌, ◌+◌, ◌<◌, ◌≤◌, ℕ, false, length, IsTrue, OnOk, IfErr};
ghost use Rattle.pool_layout.specs.Header.{granules_in};
ghost use Rattle.heap_check.specs.Sound.{IsLooseLarge, IsEmptySlab};
ghost use Rattle.image_defects.specs.Count.{IsCount};
ghost use Rattle.defect_search.specs.Roots.{mark_in};
ghost use Rattle.gc_check.specs.Heap.{gc_tables};
ghost use Rattle.gc_check.specs.Sound.{AreFewGcLoose};
ghost use Rattle.gc_check.specs.Defects.{IsGcLooseDefect};
ghost use Rattle.gc_search.specs.Known.{IsLogRead};
ghost use Rattle.gc_search.specs.Names.{AreNamesOf};

use crate::GcNames;
use book_log::BookLog;
use defect_search::counted;
use image_reading::{is_slab, large_at};
use pool_layout::Defect;

// How many large extents no root names, and in how many slabs no root's block lies.
#[derive(Clone, Copy)]
struct LooseCount {
    large: u32,
    empty: u32,
}

/// A large extent starts at a granule, and no root names it.
pub fn is_loose_large(words: &[u64], log: &BookLog, names: &GcNames, start: u32) -> bool
    requires read { IsLogRead words.now log.now }
    requires names { AreNamesOf words.now names.now }
    requires inside { start < granules_in words.now }
    ensures { IsTrue result ↔ IsLooseLarge (gc_tables words.now) start }
{
    if large_at(log, start) == 0 {
        return false;
    }
    !names.starts()[start as usize]
}

// No root's block begins in the four granules from one on.
fn is_unmet(met: &[bool], start: u32) -> bool
    requires { start + 4 ≤ length met.now }
    ensures { IsTrue result ↔ ((k : ℕ) → start ≤ k → k < start + 4 → mark_in met.now k ≡ false) }
{
    for k in start as usize..start as usize + 4 {
        if met[k] {
            return false;
        }
    }
    true
}

/// A slab starts at a granule, and no root's block lies in it.
pub fn is_empty_slab(words: &[u64], log: &BookLog, names: &GcNames, start: u32) -> bool
    requires read { IsLogRead words.now log.now }
    requires names { AreNamesOf words.now names.now }
    ensures { IsTrue result ↔ IsEmptySlab (gc_tables words.now) start }
{
    if !is_slab(log, start) {
        return false;
    }
    is_unmet(names.granules(), start)
}

// Counts both, granule by granule.
fn count_loose(words: &[u64], log: &BookLog, names: &GcNames) -> LooseCount
    requires read { IsLogRead words.now log.now }
    requires names { AreNamesOf words.now names.now }
    ensures large { IsCount (IsLooseLarge (gc_tables words.now)) (granules_in words.now) result.large }
    ensures empty { IsCount (IsEmptySlab (gc_tables words.now)) (granules_in words.now) result.empty }
{
    let mut count = LooseCount { large: 0, empty: 0 };
    for start in 0..log.granules() {
        count.large = counted(count.large, is_loose_large(words, log, names, start));
        count.empty = counted(count.empty, is_empty_slab(words, log, names, start));
    }
    count
}

/// Looks for more than one large extent that no root names, or more than one slab in which no root's block lies.
pub(crate) fn check_loose(words: &[u64], log: &BookLog, names: &GcNames) -> Result<(), Defect>
    requires read { IsLogRead words.now log.now }
    requires names { AreNamesOf words.now names.now }
    ensures few { OnOk result (AreFewGcLoose (gc_tables words.now)) }
    ensures defect { IfErr result (IsGcLooseDefect words.now) }
{
    let count = count_loose(words, log, names);
    if count.large > 1 || count.empty > 1 {
        return Err(Defect::TooManyLoose {
            large: count.large,
            empty: count.empty,
            morphing: 0,
            done: 0,
        });
    }
    Ok(())
}
