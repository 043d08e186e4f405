// The text of the map of an arena.
ghost use Rattle.std.specs.Prelude.{◌≡◌, ◌++◌, OnOk};
ghost use Rattle.map_text.specs.Facts.{facts_text};
ghost use Rattle.map_text.specs.Maps.{arena_line, map_text, IsWritable};

use crate::drawing::write_drawing;
use crate::facts::write_facts;
use heap_map::HeapMap;
use pmem_lines::OutOfMemory;
use trace_text::{write_bytes, write_word};

/// Writes the numbers of a map of an arena behind what stands in `out`.
pub fn write_info(out: &mut Vec<u8>, arena: u32, map: &HeapMap) -> Result<(), OutOfMemory>
    requires { IsWritable map.now }
    ensures { OnOk result (out.new.items ≡ out.old.items ++ facts_text arena map.now.facts map.now.classes.items) }
{
    write_facts(out, arena, &map.facts, &map.classes)
}

// Writes the line that says which arena it is.
#[tactic(auto, unfolding(crate::specs::Maps::arena_line))]
fn write_arena(out: &mut Vec<u8>, arena: u32) -> Result<(), OutOfMemory>
    ensures { OnOk result (out.new.items ≡ out.old.items ++ arena_line arena) }
{
    write_word(out, b"arena ", u64::from(arena))?;
    write_bytes(out, b"\n")
}

/// Writes the granules of a map of an arena as letters, and its numbers, behind what stands in `out`.
pub fn write_text(out: &mut Vec<u8>, arena: u32, map: &HeapMap) -> Result<(), OutOfMemory>
    requires { IsWritable map.now }
    ensures { OnOk result (out.new.items ≡ out.old.items ++ map_text arena map.now.cells.items map.now.facts map.now.classes.items) }
{
    write_arena(out, arena)?;
    write_drawing(out, &map.cells)?;
    write_facts(out, arena, &map.facts, &map.classes)
}
