// The granules of an arena as letters.
ghost use Rattle.std.specs.Prelude.{◌≡◌, [], ◌∷◌, ◌+◌, ◌*◌, ◌<◌, ◌≤◌, ◌^◌, ◌++◌, length, OnOk};
ghost use Rattle.slab_header.specs.State.{class_of};
ghost use Rattle.heap_map.specs.Cells.{cell_in};
ghost use Rattle.map_text.specs.Drawing.{legend_line, tenths_of, slab_letter, first_letter, kind_letter, letter_of, padded, gap_before, gap_behind, drawing, HasSlabClass, HasClass, HaveClasses};

use heap_map::{Cell, Kind, SlabFill};
use pmem_lines::OutOfMemory;
use size_classes::{capacity, size_of_class};
use slab_header::SlabState;
use trace_text::{write_bytes, write_number};

/// Writes the line that says what the letters are.
pub fn write_legend(out: &mut Vec<u8>) -> Result<(), OutOfMemory>
    ensures { OnOk result (out.new.items ≡ out.old.items ++ legend_line) }
{
    write_bytes(
        out,
        b"h header, r roots, l log, . free, #= large block, S7 slab and tenths of it live, T7 slab in transition, ! loose\n",
    )
}

// The class of a slab.
fn class_of(state: SlabState) -> u8
    ensures { result ≡ class_of state }
{
    match state {
        SlabState::Normal { class } => class,
        SlabState::Morphing { class, .. } => class,
        SlabState::Morphed { class, .. } => class,
    }
}

/// How many tenths of the bytes of a slab's blocks live, 9 at most.
pub fn tenths_of(fill: &SlabFill) -> u8
    requires { HasSlabClass fill.now }
    ensures tenths { result ≡ tenths_of fill.now }
    ensures most { result ≤ 9 }
{
    let SlabFill { slab, bytes, .. } = *fill;
    let class = class_of(slab.state);
    let whole = u64::from(capacity(class)) * u64::from(size_of_class(class));
    (10 * u64::from(bytes) / whole).min(9) as u8
}

// The first letter of a slab, which is in transition or not.
fn slab_letter(turns: bool) -> u8
    ensures { result ≡ slab_letter turns }
{
    if turns { b'T' } else { b'S' }
}

// The letter of a granule that a thing begins at: what is loose has its own.
fn first_letter(loose: bool, letter: u8) -> u8
    ensures { result ≡ first_letter loose letter }
{
    if loose { b'!' } else { letter }
}

// The letter of a granule in a slab.
fn letter_in_slab(granule: u32, loose: bool, fill: SlabFill) -> u8
    requires { HasSlabClass fill }
    ensures { result ≡ kind_letter granule loose (Kind.Slab fill) }
{
    if fill.slab.start == granule {
        first_letter(loose, slab_letter(fill.turns))
    } else {
        b'0' + tenths_of(&fill)
    }
}

// The letter of a granule.
fn letter_of(granule: u32, cell: Cell) -> u8
    requires { HasClass cell }
    ensures { result ≡ letter_of granule cell }
{
    match cell.kind {
        Kind::Header => first_letter(cell.loose, b'h'),
        Kind::Roots => b'r',
        Kind::Log => b'l',
        Kind::Free => b'.',
        Kind::Large { start } => {
            if start == granule {
                first_letter(cell.loose, b'#')
            } else {
                b'='
            }
        }
        Kind::Slab { fill } => letter_in_slab(granule, cell.loose, fill),
    }
}

// Writes the number of a granule, to the right in four places.
fn write_padded(out: &mut Vec<u8>, granule: u32) -> Result<(), OutOfMemory>
    ensures { OnOk result (out.new.items ≡ out.old.items ++ padded granule) }
{
    if granule < 10 {
        write_bytes(out, b"   ")?;
    } else if granule < 100 {
        write_bytes(out, b"  ")?;
    } else if granule < 1000 {
        write_bytes(out, b" ")?;
    }
    write_number(out, u64::from(granule))
}

// Writes what stands before the letter of a granule.
fn write_before(out: &mut Vec<u8>, granule: u32) -> Result<(), OutOfMemory>
    ensures { OnOk result (out.new.items ≡ out.old.items ++ gap_before granule) }
{
    if granule % 64 == 0 {
        write_padded(out, granule)?;
        return write_bytes(out, b"  ");
    }
    if granule % 16 == 0 {
        return write_bytes(out, b" ");
    }
    Ok(())
}

// Writes what stands behind the letter of a granule, which is one of so many.
fn write_behind(out: &mut Vec<u8>, granules: u32, granule: u32) -> Result<(), OutOfMemory>
    requires { granule < granules }
    ensures { OnOk result (out.new.items ≡ out.old.items ++ gap_behind granules granule) }
{
    if granule % 64 == 63 || granule + 1 == granules {
        return write_bytes(out, b"\n");
    }
    Ok(())
}

// Writes the letter of a granule, with what stands around it.
fn write_cell(out: &mut Vec<u8>, granules: u32, granule: u32, cell: Cell) -> Result<(), OutOfMemory>
    requires inside { granule < granules }
    requires classes { HasClass cell }
    ensures { OnOk result (out.new.items ≡ out.old.items ++ (gap_before granule ++ letter_of granule cell ∷ gap_behind granules granule)) }
{
    write_before(out, granule)?;
    write_bytes(out, &[letter_of(granule, cell)])?;
    write_behind(out, granules, granule)
}

/// Writes the granules of an arena behind what stands in `out`: a letter for each, 64 a line in groups of 16, behind the number
/// of the first.
pub(crate) fn write_drawing(out: &mut Vec<u8>, cells: &[Cell]) -> Result<(), OutOfMemory>
    requires few { length cells.now ≤ 4096 }
    requires classes { HaveClasses cells.now }
    ensures { OnOk result (out.new.items ≡ out.old.items ++ drawing cells.now) }
{
    let granules = cells.len() as u32;
    for granule in 0..granules {
        write_cell(out, granules, granule, cells[granule as usize])?;
    }
    Ok(())
}
