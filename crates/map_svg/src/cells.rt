// The granules of an arena as boxes.
ghost use Rattle.std.specs.Prelude.{◌≡◌, ◌+◌, ◌^◌, ◌≤◌, ◌<◌, ◌++◌, length, OnOk};
ghost use Rattle.slab_header.specs.State.{class_of};
ghost use Rattle.map_text.specs.Drawing.{HasSlabClass, HasClass, HaveClasses};
ghost use Rattle.map_svg.specs.Cells.{tone_of, begins_at, whole_box, hatch, bar, slab_bytes, old_bytes, old_tenths, old_bar, slab_marks, edge, label, large_label, slab_label, kind_label, frame, cell_boxes, row_of_boxes, row_of_labels};

use crate::shapes::{Shape, begin_label, end_line, write_box};
use heap_map::{Cell, Kind, SlabFill};
use map_text::tenths_of;
use pmem_lines::OutOfMemory;
use size_classes::{capacity, size_of_class};
use slab_header::SlabState;
use trace_text::{write_bytes, write_number};

// The class of a slab.
fn class_of(state: SlabState) -> u8
    ensures { result ≡ class_of state }
{
    match state {
        SlabState::Normal { class } => class,
        SlabState::Morphing { class, .. } => class,
        SlabState::Morphed { class, .. } => class,
    }
}

// The tone of a granule of a kind.
fn tone_of(kind: Kind) -> u32
    ensures { result ≡ tone_of kind }
{
    match kind {
        Kind::Header => 0,
        Kind::Roots => 1,
        Kind::Log => 2,
        Kind::Free => 3,
        Kind::Large { .. } => 4,
        Kind::Slab { fill } => 5 + u32::from(class_of(fill.slab.state)),
    }
}

// A thing begins at the granule.
fn begins_at(granule: u32, kind: Kind) -> bool
    ensures { result ≡ begins_at granule kind }
{
    match kind {
        Kind::Large { start } => start == granule,
        Kind::Slab { fill } => fill.slab.start == granule,
        _ => false,
    }
}

// Writes a box over a whole granule.
fn write_whole(out: &mut Vec<u8>, tone: u32, granule: u32) -> Result<(), OutOfMemory>
    requires { granule < 4096 }
    ensures { OnOk result (out.new.items ≡ out.old.items ++ whole_box tone granule) }
{
    write_box(
        out,
        Shape {
            tone,
            x: 16 * (granule % 64),
            y: 44 + 20 * (granule / 64),
            width: 16,
            height: 18,
        },
    )
}

// Writes the hatching of a slab in transition.
fn write_hatch(out: &mut Vec<u8>, granule: u32, fill: &SlabFill) -> Result<(), OutOfMemory>
    requires { granule < 4096 }
    ensures { OnOk result (out.new.items ≡ out.old.items ++ hatch granule fill.now) }
{
    if !fill.turns {
        return Ok(());
    }
    write_whole(out, 41, granule)
}

// Writes the bar of what lives in a slab.
fn write_bar(out: &mut Vec<u8>, granule: u32, fill: &SlabFill) -> Result<(), OutOfMemory>
    requires granule { granule < 4096 }
    requires classes { HasSlabClass fill.now }
    ensures { OnOk result (out.new.items ≡ out.old.items ++ bar granule fill.now) }
{
    let tenths = u32::from(tenths_of(fill));
    if tenths == 0 {
        return Ok(());
    }
    write_box(
        out,
        Shape {
            tone: 42,
            x: 16 * (granule % 64),
            y: 44 + 20 * (granule / 64) + 18 - 2 * tenths,
            width: 16,
            height: 2 * tenths,
        },
    )
}

// How many bytes there are in the blocks of other classes that live in a slab.
fn old_bytes(fill: &SlabFill) -> u64
    requires { HasSlabClass fill.now }
    ensures bytes { result ≡ old_bytes fill.now }
    ensures few { result < 2 ^ 32 }
{
    let size = u64::from(size_of_class(class_of(fill.slab.state)));
    u64::from(fill.bytes).saturating_sub(u64::from(fill.live) * size)
}

// How many tenths of a slab these take.
fn old_tenths(fill: &SlabFill) -> u32
    requires { HasSlabClass fill.now }
    ensures tenths { result ≡ old_tenths fill.now }
    ensures most { result ≤ 9 }
{
    let class = class_of(fill.slab.state);
    let whole = u64::from(capacity(class)) * u64::from(size_of_class(class));
    ((10 * old_bytes(fill) + whole - 1) / whole).min(9) as u32
}

// Writes the bar of old blocks.
fn write_old_bar(out: &mut Vec<u8>, granule: u32, fill: &SlabFill) -> Result<(), OutOfMemory>
    requires granule { granule < 4096 }
    requires classes { HasSlabClass fill.now }
    ensures { OnOk result (out.new.items ≡ out.old.items ++ old_bar granule fill.now) }
{
    let tenths = old_tenths(fill);
    if tenths == 0 {
        return Ok(());
    }
    write_box(
        out,
        Shape {
            tone: 45,
            x: 16 * (granule % 64) + 9,
            y: 44 + 20 * (granule / 64) + 18 - 2 * tenths,
            width: 5,
            height: 2 * tenths,
        },
    )
}

// Writes what a slab has besides.
fn write_marks(out: &mut Vec<u8>, granule: u32, cell: Cell) -> Result<(), OutOfMemory>
    requires granule { granule < 4096 }
    requires classes { HasClass cell }
    ensures { OnOk result (out.new.items ≡ out.old.items ++ slab_marks granule cell.kind) }
{
    match cell.kind {
        Kind::Slab { fill } => {
            write_hatch(out, granule, &fill)?;
            write_bar(out, granule, &fill)?;
            write_old_bar(out, granule, &fill)
        }
        _ => Ok(()),
    }
}

// Writes the edge at which a thing begins.
fn write_edge(out: &mut Vec<u8>, granule: u32, kind: Kind) -> Result<(), OutOfMemory>
    requires { granule < 4096 }
    ensures { OnOk result (out.new.items ≡ out.old.items ++ edge granule kind) }
{
    if !begins_at(granule, kind) {
        return Ok(());
    }
    write_box(
        out,
        Shape {
            tone: 43,
            x: 16 * (granule % 64),
            y: 44 + 20 * (granule / 64),
            width: 2,
            height: 18,
        },
    )
}

// Writes a label in a granule.
fn write_label(out: &mut Vec<u8>, granule: u32, says: &[u8]) -> Result<(), OutOfMemory>
    requires { granule < 4096 }
    ensures { OnOk result (out.new.items ≡ out.old.items ++ label granule says.now) }
{
    begin_label(out, 16 * (granule % 64) + 4, 44 + 20 * (granule / 64) + 13)?;
    write_bytes(out, says)?;
    end_line(out)
}

// Writes the label of the granule that a large block begins at.
fn write_large_label(out: &mut Vec<u8>, granule: u32, start: u32) -> Result<(), OutOfMemory>
    requires { granule < 4096 }
    ensures { OnOk result (out.new.items ≡ out.old.items ++ large_label granule start) }
{
    if start != granule {
        return Ok(());
    }
    write_label(out, granule, b"#")
}

// Writes the label of the granule that a slab begins at: the size of its blocks.
fn write_slab_label(out: &mut Vec<u8>, granule: u32, fill: &SlabFill) -> Result<(), OutOfMemory>
    requires granule { granule < 4096 }
    requires classes { HasSlabClass fill.now }
    ensures { OnOk result (out.new.items ≡ out.old.items ++ slab_label granule fill.now) }
{
    if fill.slab.start != granule {
        return Ok(());
    }
    let size = size_of_class(class_of(fill.slab.state));
    begin_label(out, 16 * (granule % 64) + 4, 44 + 20 * (granule / 64) + 13)?;
    write_number(out, u64::from(size))?;
    end_line(out)
}

// Writes the label of a granule, if it has one.
fn write_kind_label(out: &mut Vec<u8>, granule: u32, cell: Cell) -> Result<(), OutOfMemory>
    requires granule { granule < 4096 }
    requires classes { HasClass cell }
    ensures { OnOk result (out.new.items ≡ out.old.items ++ kind_label granule cell.kind) }
{
    match cell.kind {
        Kind::Header => write_label(out, granule, b"h"),
        Kind::Roots => write_label(out, granule, b"r"),
        Kind::Log => write_label(out, granule, b"l"),
        Kind::Free => Ok(()),
        Kind::Large { start } => write_large_label(out, granule, start),
        Kind::Slab { fill } => write_slab_label(out, granule, &fill),
    }
}

// Writes the frame of a granule that is loose.
fn write_frame(out: &mut Vec<u8>, granule: u32, loose: bool) -> Result<(), OutOfMemory>
    requires { granule < 4096 }
    ensures { OnOk result (out.new.items ≡ out.old.items ++ frame granule loose) }
{
    if !loose {
        return Ok(());
    }
    write_whole(out, 44, granule)
}

// Writes the boxes of a granule.
#[tactic(auto, unfolding(crate::specs::Cells::cell_boxes))]
fn write_cell(out: &mut Vec<u8>, granule: u32, cell: Cell) -> Result<(), OutOfMemory>
    requires granule { granule < 4096 }
    requires classes { HasClass cell }
    ensures { OnOk result (out.new.items ≡ out.old.items ++ cell_boxes granule cell) }
{
    write_whole(out, tone_of(cell.kind), granule)?;
    write_marks(out, granule, cell)?;
    write_edge(out, granule, cell.kind)?;
    write_frame(out, granule, cell.loose)
}

/// Writes the boxes of all granules.
pub(crate) fn write_cells(out: &mut Vec<u8>, cells: &[Cell]) -> Result<(), OutOfMemory>
    requires few { length cells.now ≤ 4096 }
    requires classes { HaveClasses cells.now }
    ensures { OnOk result (out.new.items ≡ out.old.items ++ row_of_boxes cells.now) }
{
    for granule in 0..cells.len() as u32 {
        write_cell(out, granule, cells[granule as usize])?;
    }
    Ok(())
}

/// Writes the labels of all granules.
pub(crate) fn write_labels(out: &mut Vec<u8>, cells: &[Cell]) -> Result<(), OutOfMemory>
    requires few { length cells.now ≤ 4096 }
    requires classes { HaveClasses cells.now }
    ensures { OnOk result (out.new.items ≡ out.old.items ++ row_of_labels cells.now) }
{
    for granule in 0..cells.len() as u32 {
        write_kind_label(out, granule, cells[granule as usize])?;
    }
    Ok(())
}
