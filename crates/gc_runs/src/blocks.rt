// The blocks of an arena, by rising root.
ghost use Rattle.std.specs.Prelude.{◌≡◌, ◌≤◌, ◌++◌, ◌-◌, IfOk, OnOk};
ghost use Rattle.pmem_lines.specs.Pmem.{words_of};
ghost use Rattle.trace_runs.specs.Blocks.{blocks_from};
ghost use Rattle.gc_check.specs.State.{gc_blocks};
ghost use Rattle.gc_runs.specs.Told.{gc_blocks_in};

use gc_heap::GcArena;
use heap_model::Block;
use pmem_lines::{OutOfMemory, Pmem};
use pool_layout::layout_of;
use std::alloc::Global;

// The version whose layout an arena of this variant has.
const VERSION: u32 = 1;

/// The blocks of an arena, by rising root. It takes the memory of the list.
pub fn gc_blocks_of<P: Pmem>(alloc: Global, arena: &GcArena<P>) -> Result<Vec<Block>, OutOfMemory>
    ensures { IfOk result (λ blocks. blocks.items ≡ gc_blocks_in (words_of arena.now.device)) }
{
    let _device = arena.pmem();
    let mut blocks = Vec::new(alloc);
    add_blocks(&mut blocks, arena, 0, layout_of(VERSION).roots)?;
    Ok(blocks)
}

// Adds the blocks of the roots from one on and below another.
fn add_blocks<P: Pmem>(
    blocks: &mut Vec<Block>,
    arena: &GcArena<P>,
    from: u32,
    to: u32,
) -> Result<(), OutOfMemory>
    requires { from ≤ to }
    ensures { OnOk result (blocks.new.items ≡ blocks.old.items ++ blocks_from (gc_blocks (words_of arena.now.device)) from (to - from)) }
{
    for root in from..to {
        if let Some(block) = arena.block(root) {
            blocks.push(block)?;
        }
    }
    Ok(())
}
