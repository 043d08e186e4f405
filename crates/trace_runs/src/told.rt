// What is told of arenas, and the report of one.
ghost use Rattle.std.specs.Prelude.{◌≡◌, ◌++◌, OnOk};
ghost use Rattle.trace_text.specs.Report.{arena_text};

use heap_model::{Block, Entry};
use pmem_lines::{OutOfMemory, Pmem};
use trace_text::{write_arena, write_entry, write_heap};

/// What is told of arenas, and the devices that went through their journals, by arena.
#[derive(Drop)]
pub struct Told<P: Pmem + Drop> {
    pub text: Vec<u8>,
    pub devices: Vec<P>,
}

/// Writes the report of an arena behind what stands in a text: its journal, and its blocks by rising root.
pub fn put_report(
    text: &mut Vec<u8>,
    number: u32,
    journal: &[Entry],
    blocks: &[Block],
) -> Result<(), OutOfMemory>
    ensures { OnOk result (text.new.items ≡ text.old.items ++ arena_text number journal.now blocks.now) }
{
    write_arena(text, number, journal.len() as u64)?;
    for entry in journal.iter() {
        write_entry(text, *entry)?;
    }
    write_heap(text, blocks)
}
