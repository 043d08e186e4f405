// The rows of free granules: how long each is, and which is the longest.
ghost use Rattle.std.specs.Prelude.{◌≡◌, ◌+◌, ◌<◌, ◌≤◌, ◌++◌, suc, length, OnOk};
ghost use Rattle.map_svg.specs.Rows.{is_free_at, row_before, ends_row, underline, row_count, row_mark, row_marks};

use crate::shapes::{Shape, begin_count, end_line, write_box};
use heap_map::{Cell, Kind};
use pmem_lines::OutOfMemory;
use trace_text::write_number;

// A granule is free.
fn is_free_at(cells: &[Cell], granule: u32) -> bool
    ensures { result ≡ is_free_at cells.now granule }
{
    if granule as usize >= cells.len() {
        return false;
    }
    match cells[granule as usize].kind {
        Kind::Free => true,
        _ => false,
    }
}

// A row ends at the granule.
fn ends_row(cells: &[Cell], granule: u32) -> bool
    requires { granule < 4096 }
    ensures { result ≡ ends_row cells.now granule }
{
    is_free_at(cells, granule) && !is_free_at(cells, granule + 1)
}

// So many free granules stand in a row up to a granule, where so many do right before it.
fn with_granule(cells: &[Cell], granule: u32, before: u32) -> u32
    requires granule { granule < 4096 }
    requires few { before ≤ granule }
    requires before { before ≡ row_before cells.now granule }
    ensures row { result ≡ row_before cells.now (suc granule) }
    ensures few { result ≤ granule + 1 }
{
    if is_free_at(cells, granule) {
        before + 1
    } else {
        0
    }
}

// Writes the line under the last granule of a row, where it is the longest.
fn write_underline(
    out: &mut Vec<u8>,
    longest: u32,
    granule: u32,
    long: u32,
) -> Result<(), OutOfMemory>
    requires { granule < 4096 }
    ensures { OnOk result (out.new.items ≡ out.old.items ++ underline longest granule long) }
{
    if long != longest {
        return Ok(());
    }
    write_box(
        out,
        Shape {
            tone: 46,
            x: 16 * (granule % 64),
            y: 44 + 20 * (granule / 64) + 16,
            width: 16,
            height: 2,
        },
    )
}

// Writes the length of a row into its last granule.
fn write_count(out: &mut Vec<u8>, granule: u32, long: u32) -> Result<(), OutOfMemory>
    requires { granule < 4096 }
    ensures { OnOk result (out.new.items ≡ out.old.items ++ row_count granule long) }
{
    begin_count(out, 16 * (granule % 64) + 14, 44 + 20 * (granule / 64) + 13)?;
    write_number(out, u64::from(long))?;
    end_line(out)
}

// Writes the mark of a row that ends at the granule, if one does, and so many free granules stand in a row up to there.
fn write_mark(
    out: &mut Vec<u8>,
    cells: &[Cell],
    longest: u32,
    granule: u32,
    long: u32,
) -> Result<(), OutOfMemory>
    requires granule { granule < 4096 }
    requires long { long ≡ row_before cells.now (suc granule) }
    ensures { OnOk result (out.new.items ≡ out.old.items ++ row_mark cells.now longest granule) }
{
    if !ends_row(cells, granule) {
        return Ok(());
    }
    write_underline(out, longest, granule, long)?;
    write_count(out, granule, long)
}

/// Writes the marks of all rows of free granules, of which the longest has so many.
pub(crate) fn write_row_marks(
    out: &mut Vec<u8>,
    longest: u32,
    cells: &[Cell],
) -> Result<(), OutOfMemory>
    requires few { length cells.now ≤ 4096 }
    ensures { OnOk result (out.new.items ≡ out.old.items ++ row_marks longest cells.now) }
{
    let mut row = 0;
    for granule in 0..cells.len() as u32 {
        row = with_granule(cells, granule, row);
        write_mark(out, cells, longest, granule, row)?;
    }
    Ok(())
}
