// What is told of an arena in numbers.
ghost use Rattle.std.specs.Prelude.{◌≡◌, [], ◌∷◌, ◌+◌, ◌*◌, ◌<◌, ◌≤◌, ◌^◌, ◌++◌, codes, decimal, length, OnOk};
ghost use Rattle.size_classes.specs.Classes.{class_size, class_capacity};
ghost use Rattle.map_text.specs.Facts.{request_of, fact_line, class_line, granule_lines, extent_lines, class_lines, word_line, variant_line, facts_text};

use heap_map::{ClassFill, Facts, Variant};
use pmem_lines::OutOfMemory;
use size_classes::{capacity, size_of_class};
use trace_text::{write_bytes, write_word};

// How many classes there are.
const CLASSES: u8 = 36;

/// The largest request in bytes that whole granules are found for, where so many are free in a row.
pub fn request_of(longest: u32) -> u64
    ensures { result ≡ request_of longest }
{
    if longest < 2 {
        return 0;
    }
    16384 * u64::from(longest)
}

// Writes a number of an arena behind its name.
#[tactic(auto, unfolding(crate::specs::Facts::fact_line))]
fn write_fact(out: &mut Vec<u8>, arena: u32, name: &[u8], value: u64) -> Result<(), OutOfMemory>
    ensures { OnOk result (out.new.items ≡ out.old.items ++ fact_line arena name.now value) }
{
    write_word(out, b"arena ", u64::from(arena))?;
    write_word(out, name, value)?;
    write_bytes(out, b"\n")
}

// Writes how many granules there are.
#[tactic(auto, unfolding(crate::specs::Facts::granule_lines))]
fn write_granules(out: &mut Vec<u8>, arena: u32, facts: &Facts) -> Result<(), OutOfMemory>
    ensures { OnOk result (out.new.items ≡ out.old.items ++ granule_lines arena facts.now) }
{
    write_fact(out, arena, b" version ", u64::from(facts.version))?;
    write_fact(out, arena, b" granules ", u64::from(facts.granules))?;
    write_fact(out, arena, b" free ", u64::from(facts.free))?;
    write_fact(out, arena, b" longest ", u64::from(facts.longest))?;
    write_fact(out, arena, b" request ", request_of(facts.longest))
}

// Writes how many extents and blocks there are, and how many things are loose.
#[tactic(auto, unfolding(crate::specs::Facts::extent_lines))]
fn write_extents(out: &mut Vec<u8>, arena: u32, facts: &Facts) -> Result<(), OutOfMemory>
    ensures { OnOk result (out.new.items ≡ out.old.items ++ extent_lines arena facts.now) }
{
    write_fact(out, arena, b" large ", u64::from(facts.summary.large))?;
    write_fact(out, arena, b" slabs ", u64::from(facts.summary.slabs))?;
    write_fact(out, arena, b" transition ", u64::from(facts.transitions))?;
    write_fact(out, arena, b" live ", u64::from(facts.summary.blocks))?;
    write_fact(out, arena, b" loose ", u64::from(facts.summary.loose))
}

// Writes the counts of a class behind its size.
fn write_fill(out: &mut Vec<u8>, class: u8, fill: ClassFill) -> Result<(), OutOfMemory>
    requires { class < 36 }
    ensures { OnOk result (out.new.items ≡ out.old.items ++ (codes " slabs " ++ decimal fill.slabs ++ codes " live " ++ decimal fill.live ++ codes " of " ++ decimal (fill.slabs * class_capacity class) ++ codes " old " ++ decimal fill.old ++ 10 ∷ [])) }
{
    write_word(out, b" slabs ", u64::from(fill.slabs))?;
    write_word(out, b" live ", u64::from(fill.live))?;
    write_word(
        out,
        b" of ",
        u64::from(fill.slabs) * u64::from(capacity(class)),
    )?;
    write_word(out, b" old ", u64::from(fill.old))?;
    write_bytes(out, b"\n")
}

// Writes how full the slabs of a class are, where there is one or a block of the class lives in another.
fn write_class(out: &mut Vec<u8>, arena: u32, class: u8, fill: ClassFill) -> Result<(), OutOfMemory>
    requires { class < 36 }
    ensures { OnOk result (out.new.items ≡ out.old.items ++ class_line arena class fill) }
{
    if fill.slabs == 0 && fill.old == 0 {
        return Ok(());
    }
    write_word(out, b"arena ", u64::from(arena))?;
    write_word(out, b" class ", u64::from(size_of_class(class)))?;
    write_fill(out, class, fill)
}

// Writes how full the slabs of each class are.
fn write_classes(out: &mut Vec<u8>, arena: u32, classes: &[ClassFill]) -> Result<(), OutOfMemory>
    requires { length classes.now ≡ 36 }
    ensures { OnOk result (out.new.items ≡ out.old.items ++ class_lines arena classes.now) }
{
    for class in 0..CLASSES {
        write_class(out, arena, class, classes[class as usize])?;
    }
    Ok(())
}

// Writes what is said of an arena in words.
#[tactic(auto, unfolding(crate::specs::Facts::word_line))]
fn write_words(out: &mut Vec<u8>, arena: u32, says: &[u8]) -> Result<(), OutOfMemory>
    ensures { OnOk result (out.new.items ≡ out.old.items ++ word_line arena says.now) }
{
    write_word(out, b"arena ", u64::from(arena))?;
    write_bytes(out, says)?;
    write_bytes(out, b"\n")
}

// Writes which variant an arena is of, where that is not the LOG variant.
fn write_variant(out: &mut Vec<u8>, arena: u32, variant: Variant) -> Result<(), OutOfMemory>
    ensures { OnOk result (out.new.items ≡ out.old.items ++ variant_line arena variant) }
{
    match variant {
        Variant::Log => Ok(()),
        Variant::Gc => write_words(out, arena, b" variant gc"),
    }
}

/// Writes what is told of an arena in numbers behind what stands in `out`, a line for each: the variant, where it is not the LOG
/// variant, the version, granules, those that
/// are free and the most of them in a row, the largest request in bytes that is given whole granules, large extents, slabs,
/// those in transition, roots that hold a block, loose things, and how full the slabs of each class are.
pub(crate) fn write_facts(
    out: &mut Vec<u8>,
    arena: u32,
    facts: &Facts,
    classes: &[ClassFill],
) -> Result<(), OutOfMemory>
    requires { length classes.now ≡ 36 }
    ensures { OnOk result (out.new.items ≡ out.old.items ++ facts_text arena facts.now classes.now) }
{
    write_variant(out, arena, facts.variant)?;
    write_granules(out, arena, facts)?;
    write_extents(out, arena, facts)?;
    write_classes(out, arena, classes)
}
