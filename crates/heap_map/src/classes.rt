// How full the slabs of each class are.
ghost use Rattle.std.specs.Prelude.{◌≡◌, ◌≢◌, ◌↔◌, ◌+◌, ◌*◌, ◌<◌, ◌≤◌, IsTrue, IfOk, MatchOption, length};
ghost use Rattle.pool_layout.specs.Header.{granules_in};
ghost use Rattle.image_tables.specs.Forms.{normal_kind};
ghost use Rattle.image_tables.specs.Tables.{tables_of};
ghost use Rattle.slab_header.specs.State.{kind_of, class_of, old_of};
ghost use Rattle.heap_check.specs.Image.{IsSoundImage};
ghost use Rattle.image_defects.specs.Count.{IsCount};
ghost use Rattle.heap_map.specs.LogRules.{log_rules};
ghost use Rattle.heap_map.specs.Cells.{IsKind, AreCells};
ghost use Rattle.heap_map.specs.Facts.{IsOfClass, WasOfClass, HasLive, HasOld, IsClassFill, AreClassFills};
ghost use Rattle.heap_map.specs.Scans.{HasNoFill, IsFillAt};

use crate::cell::{Cell, Kind, SlabFill};
use crate::facts::ClassFill;
use defect_search::counted;
use pmem_lines::OutOfMemory;
use slab_header::SlabState;
use std::alloc::Global;

// How many classes there are.
const CLASSES: u8 = 36;

// The slab that begins at a granule, if this one that has the granule does.
fn fill_here(words: &[u64], granule: u32, fill: SlabFill) -> Option<SlabFill>
    requires sound { IsSoundImage words.now }
    requires kind { IsKind log_rules words.now granule (Kind.Slab fill) }
    ensures { MatchOption result (HasNoFill (tables_of words.now) granule) (IsFillAt (tables_of words.now) granule) }
{
    if fill.slab.start != granule {
        return None;
    }
    Some(fill)
}

// The slab that begins at a granule of this kind, if one does.
fn fill_of_kind(words: &[u64], granule: u32, kind: Kind) -> Option<SlabFill>
    requires sound { IsSoundImage words.now }
    requires kind { IsKind log_rules words.now granule kind }
    ensures { MatchOption result (HasNoFill (tables_of words.now) granule) (IsFillAt (tables_of words.now) granule) }
{
    match kind {
        Kind::Slab { fill } => fill_here(words, granule, fill),
        _ => None,
    }
}

// The slab that begins at a granule, if one does.
fn fill_at(words: &[u64], cells: &[Cell], granule: u32) -> Option<SlabFill>
    requires sound { IsSoundImage words.now }
    requires cells { AreCells log_rules words.now cells.now }
    requires inside { granule < length cells.now }
    ensures { MatchOption result (HasNoFill (tables_of words.now) granule) (IsFillAt (tables_of words.now) granule) }
{
    let cell = cells[granule as usize];
    fill_of_kind(words, granule, cell.kind)
}

// The class of a slab.
fn class_of(state: SlabState) -> u8
    ensures { result ≡ class_of state }
{
    match state {
        SlabState::Normal { class } => class,
        SlabState::Morphing { class, .. } => class,
        SlabState::Morphed { class, .. } => class,
    }
}

// The slab is in transition, and had the class before.
fn was_class(state: SlabState, class: u8) -> bool
    ensures { IsTrue result ↔ ((kind_of state ≢ normal_kind) × (old_of state ≡ class)) }
{
    match state {
        SlabState::Normal { .. } => false,
        SlabState::Morphing { old, .. } => old == class,
        SlabState::Morphed { old, .. } => old == class,
    }
}

// A slab of the class begins at a granule.
fn is_of_class(words: &[u64], cells: &[Cell], class: u8, granule: u32) -> bool
    requires sound { IsSoundImage words.now }
    requires cells { AreCells log_rules words.now cells.now }
    requires inside { granule < length cells.now }
    ensures { IsTrue result ↔ IsOfClass (tables_of words.now) class granule }
{
    match fill_at(words, cells, granule) {
        Some(fill) => class_of(fill.slab.state) == class,
        None => false,
    }
}

// How many blocks of the class live in the slab of the class that begins at a granule.
fn live_at(words: &[u64], cells: &[Cell], class: u8, granule: u32) -> u32
    requires sound { IsSoundImage words.now }
    requires cells { AreCells log_rules words.now cells.now }
    requires inside { granule < length cells.now }
    ensures live { HasLive (tables_of words.now) class granule result }
    ensures few { result ≤ 4096 }
{
    let Some(fill) = fill_at(words, cells, granule) else {
        return 0;
    };
    if class_of(fill.slab.state) != class {
        return 0;
    }
    fill.live
}

// How many blocks of the class live in the slab that begins at a granule and took another class.
fn old_at(words: &[u64], cells: &[Cell], class: u8, granule: u32) -> u32
    requires sound { IsSoundImage words.now }
    requires cells { AreCells log_rules words.now cells.now }
    requires inside { granule < length cells.now }
    ensures old { HasOld (tables_of words.now) class granule result }
    ensures few { result ≤ 64 }
{
    let Some(fill) = fill_at(words, cells, granule) else {
        return 0;
    };
    if !was_class(fill.slab.state, class) {
        return 0;
    }
    fill.old
}

// How full the slabs of a class are.
fn class_fill(words: &[u64], cells: &[Cell], class: u8) -> ClassFill
    requires sound { IsSoundImage words.now }
    requires cells { AreCells log_rules words.now cells.now }
    ensures { IsClassFill (tables_of words.now) (granules_in words.now) class result }
{
    let mut fill = ClassFill {
        slabs: 0,
        live: 0,
        old: 0,
    };
    for granule in 0..cells.len() as u32 {
        fill.slabs = counted(fill.slabs, is_of_class(words, cells, class, granule));
        fill.live += live_at(words, cells, class, granule);
        fill.old += old_at(words, cells, class, granule);
    }
    fill
}

/// How full the slabs of each class are.
pub(crate) fn class_fills(
    alloc: Global,
    words: &[u64],
    cells: &[Cell],
) -> Result<Vec<ClassFill>, OutOfMemory>
    requires sound { IsSoundImage words.now }
    requires cells { AreCells log_rules words.now cells.now }
    ensures { IfOk result (λ fills. AreClassFills log_rules words.now fills.items) }
{
    let mut fills = Vec::with_capacity(alloc, CLASSES as usize)?;
    for class in 0..CLASSES {
        fills.push(class_fill(words, cells, class))?;
    }
    Ok(fills)
}
