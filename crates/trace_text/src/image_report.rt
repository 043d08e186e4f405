// What is printed of images: what each arena has, its heap once it is recovered, and why an image is refused.
ghost use Rattle.std.specs.Prelude.{◌≡◌, ◌++◌, OnOk, OnErr};
ghost use Rattle.trace_text.specs.Fronts.{BeginsWith};
ghost use Rattle.trace_text.specs.ImageReport.{summary_line, recovered_text, defect_place, defect_line, version_line};

use crate::report::write_heap;
use crate::writing::{write_bytes, write_word};
use heap_model::Block;
use pmem_lines::OutOfMemory;
use pool_layout::Defect;

/// Writes the line of an arena whose image is sound behind what stands in `out`: how many live large extents, live slabs,
/// root words that are not 0 and loose things it has. Where memory runs out, what stood there still stands at the front.
pub fn write_summary(
    out: &mut Vec<u8>,
    arena: u32,
    large: u32,
    slabs: u32,
    blocks: u32,
    loose: u32,
) -> Result<(), OutOfMemory>
    ensures text { OnOk result (out.new.items ≡ out.old.items ++ summary_line arena large slabs blocks loose) }
    ensures kept { OnErr result (BeginsWith out.new.items out.old.items) }
{
    write_word(out, b"arena ", u64::from(arena))?;
    write_word(out, b" large ", u64::from(large))?;
    write_word(out, b" slabs ", u64::from(slabs))?;
    write_word(out, b" blocks ", u64::from(blocks))?;
    write_word(out, b" loose ", u64::from(loose))?;
    write_bytes(out, b"\n")
}

/// Writes the heap of an arena that was recovered behind what stands in `out`: how many blocks, and each of them. Where
/// memory runs out, what stood there still stands at the front.
pub fn write_recovered(out: &mut Vec<u8>, arena: u32, blocks: &[Block]) -> Result<(), OutOfMemory>
    ensures text { OnOk result (out.new.items ≡ out.old.items ++ recovered_text arena blocks.now) }
    ensures kept { OnErr result (BeginsWith out.new.items out.old.items) }
{
    write_word(out, b"arena ", u64::from(arena))?;
    write_bytes(out, b" ")?;
    write_heap(out, blocks)
}

/// Writes whose defect it is: a length is that of the whole image, and any other that of an arena.
fn write_place(out: &mut Vec<u8>, arena: u32, defect: &Defect) -> Result<(), OutOfMemory>
    ensures text { OnOk result (out.new.items ≡ out.old.items ++ defect_place arena defect.now) }
    ensures kept { OnErr result (BeginsWith out.new.items out.old.items) }
{
    match defect {
        Defect::BadLength { .. } => Ok(()),
        _ => {
            write_word(out, b"arena ", u64::from(arena))?;
            write_bytes(out, b" ")
        }
    }
}

/// Writes the line of a defect of an arena's image behind what stands in `out`. Where memory runs out, what stood there
/// still stands at the front.
pub fn write_defect(out: &mut Vec<u8>, arena: u32, defect: &Defect) -> Result<(), OutOfMemory>
    ensures text { OnOk result (out.new.items ≡ out.old.items ++ defect_line arena defect.now) }
    ensures kept { OnErr result (BeginsWith out.new.items out.old.items) }
{
    write_place(out, arena, defect)?;
    defect.append_text(out)?;
    write_bytes(out, b"\n")
}

/// Writes the line of an image that is refused for its version behind what stands in `out`. Where memory runs out, what
/// stood there still stands at the front.
pub fn write_version(out: &mut Vec<u8>, version: u32) -> Result<(), OutOfMemory>
    ensures text { OnOk result (out.new.items ≡ out.old.items ++ version_line version) }
    ensures kept { OnErr result (BeginsWith out.new.items out.old.items) }
{
    write_word(out, b"version ", u64::from(version))?;
    write_bytes(out, b"\n")
}
