// The blocks of an arena, by rising root.
ghost use Rattle.std.specs.Prelude.{◌≡◌, ◌≤◌, ◌++◌, ◌-◌, IfOk, OnOk};
ghost use Rattle.pmem_lines.specs.Pmem.{words_of};
ghost use Rattle.image_tables.specs.Tables.{tables_of};
ghost use Rattle.heap_check.specs.Heap.{heap};
ghost use Rattle.heap_check.specs.Image.{bounds_of};
ghost use Rattle.trace_runs.specs.Blocks.{blocks_from, blocks_in};

use arena_core::Arena;
use heap_model::Block;
use pmem_lines::{OutOfMemory, Pmem};
use pool_layout::{fields_at, layout_of};
use std::alloc::Global;

/// The blocks of an arena, by rising root: of as many roots as the version has that its words say. It takes the memory of
/// the list.
pub fn blocks_of<P: Pmem>(alloc: Global, arena: &Arena<P>) -> Result<Vec<Block>, OutOfMemory>
    ensures { IfOk result (λ blocks. blocks.items ≡ blocks_in (words_of arena.now.device)) }
{
    let mut blocks = Vec::new(alloc);
    add_blocks(&mut blocks, arena, 0, roots_of(arena))?;
    Ok(blocks)
}

// How many roots an arena has.
fn roots_of<P: Pmem>(arena: &Arena<P>) -> u32
    ensures { result ≡ (bounds_of (words_of arena.now.device)).roots }
{
    let version = arena.pmem().load(fields_at()) % 65536;
    layout_of(version as u32).roots
}

// Adds the blocks of the roots from one on and below another.
fn add_blocks<P: Pmem>(
    blocks: &mut Vec<Block>,
    arena: &Arena<P>,
    from: u32,
    to: u32,
) -> Result<(), OutOfMemory>
    requires { from ≤ to }
    ensures { OnOk result (blocks.new.items ≡ blocks.old.items ++ blocks_from (heap (tables_of (words_of arena.now.device))) from (to - from)) }
{
    for root in from..to {
        if let Some(block) = arena.block(root) {
            blocks.push(block)?;
        }
    }
    Ok(())
}
