// The map of an arena.
ghost use Rattle.std.specs.Prelude.{◌↔◌, OnOk, IfOk, IfErr};
ghost use Rattle.image_tables.specs.Tables.{tables_of};
ghost use Rattle.heap_check.specs.Image.{bounds_of, IsSoundImage, IsExactImage};
ghost use Rattle.image_defects.specs.Defects.{IsFirstDefect};
ghost use Rattle.image_defects.specs.Summaries.{IsSummary};
ghost use Rattle.image_check.specs.Faults.{IfDefect};
ghost use Rattle.heap_map.specs.LogRules.{log_rules};
ghost use Rattle.heap_map.specs.Cells.{AreCells, AreNoneLoose};
ghost use Rattle.heap_map.specs.Facts.{IsGreatestRequest, AreClassFills, AreFacts};

use crate::cell::Cell;
use crate::classes::class_fills;
use crate::facts::{ClassFill, Facts, Variant};
use crate::reading::read;
use crate::runs::free_counts;
use crate::scanning::{cells_of, version_of};
use crate::turning::count_transitions;
use image_check::{CheckFault, check_arena};
use image_defects::Summary;
use pmem_lines::OutOfMemory;
use std::alloc::Global;

/// What each granule of an arena is, how many there are of each kind, and how full the slabs of each of the 36 classes are.
#[derive(Drop)]
pub struct HeapMap {
    pub cells: Vec<Cell>,
    pub facts: Facts,
    pub classes: Vec<ClassFill>,
}

/// The map of an arena of these words. Ok comes exactly where they are a sound image; a defect exactly where they are not, and
/// it is the first in the order of the format. Either yields to want of memory. No cell is loose exactly where the image is
/// exact; and of the requests above the largest class, which are given whole granules, those find a place that need no more
/// of them than the longest row of free ones has.
pub fn map_of(alloc: Global, words: &[u64]) -> Result<HeapMap, CheckFault>
    ensures sound { OnOk result (IsSoundImage words.now) }
    ensures cells { IfOk result (λ map. AreCells log_rules words.now map.cells.items) }
    ensures exact { IfOk result (λ map. AreNoneLoose map.cells.items ↔ IsExactImage words.now) }
    ensures facts { IfOk result (λ map. AreFacts log_rules words.now map.facts) }
    ensures request { IfOk result (λ map. IsGreatestRequest (bounds_of words.now) (tables_of words.now) map.facts.longest) }
    ensures classes { IfOk result (λ map. AreClassFills log_rules words.now map.classes.items) }
    ensures defect { IfErr result (λ fault. IfDefect fault (IsFirstDefect words.now)) }
{
    let summary = match check_arena(alloc, words) {
        Ok(summary) => summary,
        Err(fault) => return Err(fault),
    };
    match draw(alloc, words, summary) {
        Ok(map) => Ok(map),
        Err(error) => Err(CheckFault::Memory(error)),
    }
}

// The map of a sound image that has this summary.
fn draw(alloc: Global, words: &[u64], summary: Summary) -> Result<HeapMap, OutOfMemory>
    requires sound { IsSoundImage words.now }
    requires summary { IsSummary words.now summary }
    ensures cells { IfOk result (λ map. AreCells log_rules words.now map.cells.items) }
    ensures facts { IfOk result (λ map. AreFacts log_rules words.now map.facts) }
    ensures classes { IfOk result (λ map. AreClassFills log_rules words.now map.classes.items) }
{
    let reading = read(alloc, words)?;
    let cells = cells_of(alloc, words, &reading)?;
    let counts = free_counts(&cells);
    let facts = Facts {
        variant: Variant::Log,
        version: version_of(words),
        granules: cells.len() as u32,
        free: counts.free,
        longest: counts.longest,
        transitions: count_transitions(&cells),
        summary,
    };
    let classes = class_fills(alloc, words, &cells)?;
    Ok(HeapMap {
        cells,
        facts,
        classes,
    })
}
