// The cells of an arena, granule by granule.
ghost use Rattle.std.specs.Prelude.{◌≡◌, ◌↔◌, ◌+◌, ◌<◌, ◌≤◌, length, true, IsTrue, IfOk};
ghost use Rattle.pool_layout.specs.Layout.{layout_of};
ghost use Rattle.pool_layout.specs.Header.{version_in, granules_in};
ghost use Rattle.image_tables.specs.Tables.{tables_of};
ghost use Rattle.heap_check.specs.Sound.{granules_at};
ghost use Rattle.heap_map.specs.LogRules.{log_rules};
ghost use Rattle.heap_map.specs.Cells.{IsLooseSlab, IsCell, AreCells};
ghost use Rattle.heap_map.specs.Scans.{IsReading, IsExtentCell, IsScan};

use crate::cell::{Cell, Kind};
use crate::filling::fill_of;
use crate::reading::Reading;
use defect_search::{is_done, is_empty_slab, is_loose_large, is_morphing};
use image_reading::{granules_at, is_slab, read_slab, word_at};
use pmem_lines::OutOfMemory;
use pool_layout::{Layout, fields_at, layout_of};
use std::alloc::Global;

/// How far the granules were gone through: the cell of the extent that began last, and the granule behind it.
#[derive(Clone, Copy)]
pub struct Scan {
    pub cell: Cell,
    pub end: u32,
}

/// The version of an arena of these words.
pub fn version_of(words: &[u64]) -> u32
    requires { 1 < length words.now }
    ensures { result ≡ version_in words.now }
{
    (word_at(words, fields_at()) % 65536) as u32
}

// The slab that begins at a granule is loose.
fn is_loose_slab(words: &[u64], reading: &Reading, start: u32) -> bool
    requires reading { IsReading words.now reading.now }
    ensures { IsTrue result ↔ IsLooseSlab (tables_of words.now) start }
{
    is_empty_slab(words, &reading.log, &reading.met, start)
        || is_morphing(words, &reading.log, start)
        || is_done(words, &reading.log, start)
}

// The cell of the granules of the slab that begins at a granule.
fn slab_cell(words: &[u64], reading: &Reading, start: u32) -> Cell
    requires reading { IsReading words.now reading.now }
    requires slab { (tables_of words.now).slab start ≡ true }
    ensures { IsExtentCell log_rules words.now start result }
{
    let slab = read_slab(words, start);
    Cell {
        kind: Kind::Slab {
            fill: fill_of(words, slab),
        },
        loose: is_loose_slab(words, reading, start),
    }
}

// The cell of the granules of the large extent that begins at a granule.
fn large_cell(words: &[u64], reading: &Reading, start: u32) -> Cell
    requires reading { IsReading words.now reading.now }
    requires large { 0 < (tables_of words.now).large start }
    ensures { IsExtentCell log_rules words.now start result }
{
    Cell {
        kind: Kind::Large { start },
        loose: is_loose_large(words, &reading.log, &reading.starts, start),
    }
}

// The cell of the granules of the extent that begins at a granule.
fn extent_cell(words: &[u64], reading: &Reading, start: u32) -> Cell
    requires reading { IsReading words.now reading.now }
    requires live { 0 < granules_at (tables_of words.now) start }
    ensures { IsExtentCell log_rules words.now start result }
{
    if is_slab(&reading.log, start) {
        slab_cell(words, reading, start)
    } else {
        large_cell(words, reading, start)
    }
}

// Goes over one granule more.
fn step(words: &[u64], reading: &Reading, scan: Scan, granule: u32) -> Scan
    requires reading { IsReading words.now reading.now }
    requires scan { IsScan log_rules words.now granule scan }
    ensures { IsScan log_rules words.now (granule + 1) result }
{
    let granules = granules_at(&reading.log, granule);
    if granules == 0 {
        return scan;
    }
    Scan {
        cell: extent_cell(words, reading, granule),
        end: granule + granules,
    }
}

// The cell of a granule before the heap.
fn own_cell(words: &[u64], reading: &Reading, layout: &Layout, granule: u32) -> Cell
    requires reading { IsReading words.now reading.now }
    requires layout { layout.now ≡ layout_of (version_in words.now) }
    requires before { granule < (layout_of (version_in words.now)).first_granule }
    ensures { IsCell log_rules words.now granule result }
{
    if granule == 0 {
        return Cell {
            kind: Kind::Header,
            loose: reading.opens,
        };
    }
    let kind = if 16384 * granule < layout.log_at {
        Kind::Roots
    } else {
        Kind::Log
    };
    Cell { kind, loose: false }
}

// The cell of a granule of the heap, once it was gone over.
fn heap_cell(words: &[u64], scan: Scan, granule: u32) -> Cell
    requires scan { IsScan log_rules words.now (granule + 1) scan }
    requires heap { (layout_of (version_in words.now)).first_granule ≤ granule }
    requires inside { granule < granules_in words.now }
    ensures { IsCell log_rules words.now granule result }
{
    if granule < scan.end {
        return scan.cell;
    }
    Cell {
        kind: Kind::Free,
        loose: false,
    }
}

// The cell of a granule, once it was gone over.
fn cell_of(words: &[u64], reading: &Reading, layout: &Layout, scan: Scan, granule: u32) -> Cell
    requires reading { IsReading words.now reading.now }
    requires layout { layout.now ≡ layout_of (version_in words.now) }
    requires scan { IsScan log_rules words.now (granule + 1) scan }
    requires inside { granule < granules_in words.now }
    ensures { IsCell log_rules words.now granule result }
{
    if granule < layout.first_granule {
        own_cell(words, reading, layout, granule)
    } else {
        heap_cell(words, scan, granule)
    }
}

/// The cells of all granules of a sound image.
pub(crate) fn cells_of(
    alloc: Global,
    words: &[u64],
    reading: &Reading,
) -> Result<Vec<Cell>, OutOfMemory>
    requires { IsReading words.now reading.now }
    ensures { IfOk result (λ cells. AreCells log_rules words.now cells.items) }
{
    let layout = layout_of(version_of(words));
    let mut cells = Vec::with_capacity(alloc, reading.log.granules() as usize)?;
    let mut scan = Scan {
        cell: Cell {
            kind: Kind::Free,
            loose: false,
        },
        end: 0,
    };
    for granule in 0..reading.log.granules() {
        scan = step(words, reading, scan, granule);
        cells.push(cell_of(words, reading, &layout, scan, granule))?;
    }
    Ok(cells)
}
