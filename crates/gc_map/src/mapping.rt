// The map of an arena.
ghost use Rattle.std.specs.Prelude.{◌↔◌, OnOk, IfOk, IfErr};
ghost use Rattle.heap_check.specs.Image.{bounds_of};
ghost use Rattle.gc_check.specs.Heap.{gc_tables};
ghost use Rattle.gc_check.specs.Image.{IsGcSoundImage, IsGcExactImage};
ghost use Rattle.gc_check.specs.Defects.{IsFirstGcDefect};
ghost use Rattle.gc_search.specs.Faults.{IfDefect};
ghost use Rattle.gc_search.specs.Image.{IsSoundWith};
ghost use Rattle.heap_map.specs.Cells.{AreCells, AreNoneLoose};
ghost use Rattle.heap_map.specs.Facts.{IsGreatestRequest, AreClassFills, AreFacts};
ghost use Rattle.gc_map.specs.GcRules.{gc_rules};

use crate::classes::class_fills;
use crate::reading::read;
use crate::scanning::cells_of;
use crate::summary::summary_of;
use gc_search::{GcFault, GcImage, check_gc_arena};
use heap_map::{Facts, HeapMap, Variant, count_transitions, free_counts, version_of};
use pmem_lines::OutOfMemory;
use std::alloc::Global;

/// The map of an arena of the GC variant of these words. Ok comes exactly where they are a sound image; a defect exactly where they
/// are not, and it is the first in the order of the format. Either yields to want of memory. No cell is loose exactly where the
/// image is exact; and of the requests above the largest class, which are given whole granules, those find a place that need no
/// more of them than the longest row of free ones has.
pub fn gc_map_of(alloc: Global, words: &[u64]) -> Result<HeapMap, GcFault>
    ensures sound { OnOk result (IsGcSoundImage words.now) }
    ensures cells { IfOk result (λ map. AreCells gc_rules words.now map.cells.items) }
    ensures exact { IfOk result (λ map. AreNoneLoose map.cells.items ↔ IsGcExactImage words.now) }
    ensures facts { IfOk result (λ map. AreFacts gc_rules words.now map.facts) }
    ensures request { IfOk result (λ map. IsGreatestRequest (bounds_of words.now) (gc_tables words.now) map.facts.longest) }
    ensures classes { IfOk result (λ map. AreClassFills gc_rules words.now map.classes.items) }
    ensures defect { IfErr result (λ fault. IfDefect fault (IsFirstGcDefect words.now)) }
{
    let image = match check_gc_arena(alloc, words) {
        Ok(image) => image,
        Err(fault) => return Err(fault),
    };
    match draw(alloc, words, image) {
        Ok(map) => Ok(map),
        Err(error) => Err(GcFault::Memory(error)),
    }
}

// The map of a sound image, of which the search has read this.
fn draw(alloc: Global, words: &[u64], image: GcImage) -> Result<HeapMap, OutOfMemory>
    requires { IsSoundWith words.now image }
    ensures cells { IfOk result (λ map. AreCells gc_rules words.now map.cells.items) }
    ensures facts { IfOk result (λ map. AreFacts gc_rules words.now map.facts) }
    ensures classes { IfOk result (λ map. AreClassFills gc_rules words.now map.classes.items) }
{
    let reading = read(alloc, words, image)?;
    let cells = cells_of(alloc, words, &reading)?;
    let counts = free_counts(&cells);
    let facts = Facts {
        variant: Variant::Gc,
        version: version_of(words),
        granules: cells.len() as u32,
        free: counts.free,
        longest: counts.longest,
        transitions: count_transitions(&cells),
        summary: summary_of(words, &reading.image),
    };
    let classes = class_fills(alloc, words, &reading)?;
    Ok(HeapMap {
        cells,
        facts,
        classes,
    })
}
