// The picture of an arena.
ghost use Rattle.std.specs.Prelude.{◌≡◌, ◌<◌, ◌≤◌, ◌++◌, ◌^◌, length, OnOk};
ghost use Rattle.map_text.specs.Drawing.{HaveClasses};
ghost use Rattle.map_text.specs.Maps.{IsWritable};
ghost use Rattle.map_svg.specs.Arenas.{rows_of, arena_height, variant_words, heading, counts, class_words, class_entry, class_entries, place, place_end, arena_picture};

use crate::cells::{write_cells, write_labels};
use crate::rows::write_row_marks;
use crate::shapes::{Shape, begin_line, end_line, write_box};
use heap_map::{Cell, ClassFill, Facts, HeapMap, Variant};
use map_text::request_of;
use pmem_lines::OutOfMemory;
use size_classes::{capacity, size_of_class};
use trace_text::{write_bytes, write_number, write_word};

// How many classes there are.
const CLASSES: u8 = 36;

/// How high the picture of an arena of so many granules is.
pub fn arena_height(granules: u32) -> u32
    requires { granules ≤ 4096 }
    ensures { result ≡ arena_height granules }
{
    20 * rows_of(granules) + 290
}

// How many rows so many granules have.
fn rows_of(granules: u32) -> u32
    requires { granules ≤ 4096 }
    ensures { result ≡ rows_of granules }
{
    (granules + 63) / 64
}

// Writes which variant an arena is of, where that is not the LOG variant.
fn write_variant(out: &mut Vec<u8>, variant: Variant) -> Result<(), OutOfMemory>
    ensures { OnOk result (out.new.items ≡ out.old.items ++ variant_words variant) }
{
    match variant {
        Variant::Log => Ok(()),
        Variant::Gc => write_bytes(out, b", GC variant"),
    }
}

// Writes the heading.
#[tactic(auto, unfolding(crate::specs::Arenas::heading))]
fn write_heading(out: &mut Vec<u8>, arena: u32, facts: &Facts) -> Result<(), OutOfMemory>
    ensures { OnOk result (out.new.items ≡ out.old.items ++ heading arena facts.now) }
{
    begin_line(out, 0, 14)?;
    write_word(out, b"arena ", u64::from(arena))?;
    write_variant(out, facts.variant)?;
    write_word(out, b": version ", u64::from(facts.version))?;
    write_word(out, b"; granules: ", u64::from(facts.granules))?;
    write_word(out, b", free: ", u64::from(facts.free))?;
    write_word(
        out,
        b", longest row of free ones: ",
        u64::from(facts.longest),
    )?;
    write_word(
        out,
        b"; largest request of whole granules: ",
        request_of(facts.longest),
    )?;
    write_bytes(out, b" bytes")?;
    end_line(out)
}

// Writes how many blocks, extents and loose things there are.
#[tactic(auto, unfolding(crate::specs::Arenas::counts))]
fn write_counts(out: &mut Vec<u8>, facts: &Facts) -> Result<(), OutOfMemory>
    ensures { OnOk result (out.new.items ≡ out.old.items ++ counts facts.now) }
{
    begin_line(out, 0, 32)?;
    write_word(
        out,
        b"roots that hold a block: ",
        u64::from(facts.summary.blocks),
    )?;
    write_word(out, b"; large blocks: ", u64::from(facts.summary.large))?;
    write_word(out, b"; slabs: ", u64::from(facts.summary.slabs))?;
    write_word(out, b", in transition: ", u64::from(facts.transitions))?;
    write_word(out, b"; loose things: ", u64::from(facts.summary.loose))?;
    end_line(out)
}

// Writes the words of a class.
fn write_words(out: &mut Vec<u8>, class: u8, fill: ClassFill) -> Result<(), OutOfMemory>
    requires { class < 36 }
    ensures { OnOk result (out.new.items ≡ out.old.items ++ class_words class fill) }
{
    write_number(out, u64::from(size_of_class(class)))?;
    write_word(out, b" bytes: slabs ", u64::from(fill.slabs))?;
    write_word(out, b", live ", u64::from(fill.live))?;
    write_word(
        out,
        b" of ",
        u64::from(fill.slabs) * u64::from(capacity(class)),
    )?;
    write_word(out, b", old ", u64::from(fill.old))
}

// Writes a class: a box of its tone, and its words; nothing where it has no slab and no old block.
#[tactic(auto, unfolding(crate::specs::Arenas::class_entry))]
fn write_class(
    out: &mut Vec<u8>,
    granules: u32,
    class: u8,
    fill: ClassFill,
) -> Result<(), OutOfMemory>
    requires granules { granules ≤ 4096 }
    requires class { class < 36 }
    ensures { OnOk result (out.new.items ≡ out.old.items ++ class_entry granules class fill) }
{
    if fill.slabs == 0 && fill.old == 0 {
        return Ok(());
    }
    let x = 340 * (u32::from(class) / 12);
    let y = 64 + 20 * rows_of(granules) + 16 * (u32::from(class) % 12);
    write_box(
        out,
        Shape {
            tone: 5 + u32::from(class),
            x,
            y,
            width: 12,
            height: 12,
        },
    )?;
    begin_line(out, x + 18, y + 11)?;
    write_words(out, class, fill)?;
    end_line(out)
}

// Writes all classes.
fn write_classes(out: &mut Vec<u8>, granules: u32, classes: &[ClassFill]) -> Result<(), OutOfMemory>
    requires granules { granules ≤ 4096 }
    requires classes { length classes.now ≡ 36 }
    ensures { OnOk result (out.new.items ≡ out.old.items ++ class_entries granules classes.now) }
{
    for class in 0..CLASSES {
        write_class(out, granules, class, classes[class as usize])?;
    }
    Ok(())
}

// Writes where the arena is.
#[tactic(auto, unfolding(crate::specs::Arenas::place))]
fn write_place(out: &mut Vec<u8>, y: u32) -> Result<(), OutOfMemory>
    ensures { OnOk result (out.new.items ≡ out.old.items ++ place y) }
{
    write_word(out, b"<g transform='translate(32,", u64::from(y))?;
    write_bytes(out, b")'>\n")
}

// Writes the picture of an arena.
fn write_arena(
    out: &mut Vec<u8>,
    arena: u32,
    y: u32,
    cells: &[Cell],
    facts: &Facts,
    classes: &[ClassFill],
) -> Result<(), OutOfMemory>
    requires few { length cells.now ≤ 4096 }
    requires granules { facts.now.granules ≤ 4096 }
    requires cells { HaveClasses cells.now }
    requires classes { length classes.now ≡ 36 }
    ensures { OnOk result (out.new.items ≡ out.old.items ++ arena_picture arena y cells.now facts.now classes.now) }
{
    write_place(out, y)?;
    write_heading(out, arena, facts)?;
    write_counts(out, facts)?;
    write_cells(out, cells)?;
    write_labels(out, cells)?;
    write_row_marks(out, facts.longest, cells)?;
    write_classes(out, facts.granules, classes)?;
    write_bytes(out, b"</g>\n")
}

/// Writes the picture of an arena behind what stands in `out`, by its map, so many units below the top of the page.
pub fn write_picture(
    out: &mut Vec<u8>,
    arena: u32,
    y: u32,
    map: &HeapMap,
) -> Result<(), OutOfMemory>
    requires { IsWritable map.now }
    ensures { OnOk result (out.new.items ≡ out.old.items ++ arena_picture arena y map.now.cells.items map.now.facts map.now.classes.items) }
{
    write_arena(out, arena, y, &map.cells, &map.facts, &map.classes)
}
