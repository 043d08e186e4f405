// The cells of an arena, granule by granule.
ghost use Rattle.std.specs.Prelude.{◌≡◌, ◌+◌, ◌<◌, ◌≤◌, true, IfOk};
ghost use Rattle.pool_layout.specs.Layout.{layout_of};
ghost use Rattle.pool_layout.specs.Header.{version_in, granules_in};
ghost use Rattle.heap_check.specs.Sound.{granules_at};
ghost use Rattle.gc_check.specs.Heap.{gc_tables};
ghost use Rattle.heap_map.specs.Cells.{IsCell, AreCells};
ghost use Rattle.heap_map.specs.Scans.{IsExtentCell, IsScan};
ghost use Rattle.gc_map.specs.GcRules.{gc_rules};
ghost use Rattle.gc_map.specs.Readings.{IsReading};

use crate::places::class_of_slab;
use crate::reading::Reading;
use crate::tallies::tally_at;
use gc_search::{is_empty_slab, is_loose_large};
use heap_map::{Cell, Kind, Scan, SlabFill, version_of};
use image_reading::{Slab, granules_at, is_slab};
use pmem_lines::OutOfMemory;
use pool_layout::{Layout, layout_of};
use slab_header::SlabState;
use std::alloc::Global;

// The cell of the granules of the slab that begins at a granule.
fn slab_cell(words: &[u64], reading: &Reading, start: u32) -> Cell
    requires reading { IsReading words.now reading.now }
    requires slab { (gc_tables words.now).slab start ≡ true }
    ensures { IsExtentCell gc_rules words.now start result }
{
    let class = class_of_slab(words, &reading.image.log, start);
    let tally = tally_at(&reading.tallies, start);
    let fill = SlabFill {
        slab: Slab {
            start,
            state: SlabState::Normal { class },
        },
        live: tally.live,
        old: tally.old,
        bytes: tally.bytes,
        turns: tally.old > 0,
    };
    Cell {
        kind: Kind::Slab { fill },
        loose: is_empty_slab(words, &reading.image.log, &reading.image.names, start),
    }
}

// The cell of the granules of the large extent that begins at a granule.
fn large_cell(words: &[u64], reading: &Reading, start: u32) -> Cell
    requires reading { IsReading words.now reading.now }
    requires large { 0 < (gc_tables words.now).large start }
    ensures { IsExtentCell gc_rules words.now start result }
{
    Cell {
        kind: Kind::Large { start },
        loose: is_loose_large(words, &reading.image.log, &reading.image.names, start),
    }
}

// The cell of the granules of the extent that begins at a granule.
fn extent_cell(words: &[u64], reading: &Reading, start: u32) -> Cell
    requires reading { IsReading words.now reading.now }
    requires live { 0 < granules_at (gc_tables words.now) start }
    ensures { IsExtentCell gc_rules words.now start result }
{
    if is_slab(&reading.image.log, start) {
        slab_cell(words, reading, start)
    } else {
        large_cell(words, reading, start)
    }
}

// Goes over one granule more.
fn step(words: &[u64], reading: &Reading, scan: Scan, granule: u32) -> Scan
    requires reading { IsReading words.now reading.now }
    requires scan { IsScan gc_rules words.now granule scan }
    ensures { IsScan gc_rules words.now (granule + 1) result }
{
    let granules = granules_at(&reading.image.log, granule);
    if granules == 0 {
        return scan;
    }
    Scan {
        cell: extent_cell(words, reading, granule),
        end: granule + granules,
    }
}

// The cell of a granule before the heap. No entry is ever open.
fn own_cell(words: &[u64], layout: &Layout, granule: u32) -> Cell
    requires layout { layout.now ≡ layout_of (version_in words.now) }
    requires before { granule < (layout_of (version_in words.now)).first_granule }
    requires few { granule < 4096 }
    ensures { IsCell gc_rules words.now granule result }
{
    let _ = words;
    let kind = if granule == 0 {
        Kind::Header
    } else if 16384 * granule < layout.log_at {
        Kind::Roots
    } else {
        Kind::Log
    };
    Cell { kind, loose: false }
}

// The cell of a granule of the heap, once it was gone over.
fn heap_cell(words: &[u64], scan: Scan, granule: u32) -> Cell
    requires scan { IsScan gc_rules words.now (granule + 1) scan }
    requires heap { (layout_of (version_in words.now)).first_granule ≤ granule }
    requires inside { granule < granules_in words.now }
    ensures { IsCell gc_rules words.now granule result }
{
    let _ = words;
    if granule < scan.end {
        return scan.cell;
    }
    Cell {
        kind: Kind::Free,
        loose: false,
    }
}

// The cell of a granule, once it was gone over.
fn cell_of(words: &[u64], layout: &Layout, scan: Scan, granule: u32) -> Cell
    requires layout { layout.now ≡ layout_of (version_in words.now) }
    requires scan { IsScan gc_rules words.now (granule + 1) scan }
    requires inside { granule < granules_in words.now }
    requires few { granule < 4096 }
    ensures { IsCell gc_rules words.now granule result }
{
    if granule < layout.first_granule {
        own_cell(words, layout, granule)
    } else {
        heap_cell(words, scan, granule)
    }
}

/// The cells of all granules of a sound image.
pub(crate) fn cells_of(
    alloc: Global,
    words: &[u64],
    reading: &Reading,
) -> Result<Vec<Cell>, OutOfMemory>
    requires { IsReading words.now reading.now }
    ensures { IfOk result (λ cells. AreCells gc_rules words.now cells.items) }
{
    let granules = reading.image.log.granules();
    let layout = layout_of(version_of(words));
    let mut cells = Vec::with_capacity(alloc, granules as usize)?;
    let mut scan = Scan {
        cell: Cell {
            kind: Kind::Free,
            loose: false,
        },
        end: 0,
    };
    for granule in 0..granules {
        scan = step(words, reading, scan, granule);
        cells.push(cell_of(words, &layout, scan, granule))?;
    }
    Ok(cells)
}
