// The lengths of the journals, asked of the pool once all workers have ended.
ghost use Rattle.std.specs.Prelude.{◌≡◌, ◌≤◌, ◌<◌, length, IfOk};
ghost use Rattle.shared_pool.specs.Passes.{IsPassOf, part_at, mine_at};
ghost use Rattle.trace_runs.specs.Each.{EachFrom};
ghost use Rattle.trace_workers.specs.Workers.{AllOf};
ghost use Rattle.trace_workers.specs.Lengths.{HasAsked, AllAsked, AreInOrder, IsCounted};

use pmem_lines::{OutOfMemory, Pmem};
use shared_pool::{Pass, SharedPool};
use std::alloc::Global;

// The published length of an arena's journal, asked with a pass.
fn ask<P: Pmem>(pool: &SharedPool<P>, pass: &mut Pass, arena: u32) -> u64
    requires pass { IsPassOf pool.now pass.old }
    requires arena { arena < length pool.now.locks }
    ensures pass { IsPassOf pool.now pass.new }
    ensures asked { HasAsked pass.old pass.new }
    ensures known { (part_at pass.new arena).known ≡ result }
    ensures own { length (mine_at pass.new arena) ≤ result }
{
    pool.published(pass, arena)
}

// The place of the pass with which an arena is asked: that of its number where there is one, else the first.
fn asking(passes: usize, arena: usize) -> usize
    requires { 0 < passes }
    ensures inside { result < passes }
    ensures own { arena < passes → arena ≡ result }
{
    if arena < passes { arena } else { 0 }
}

// The published length of an arena's journal, asked with the pass of the arena's number where there is one.
fn ask_own<P: Pmem>(pool: &SharedPool<P>, passes: &mut [Pass], arena: u32) -> u64
    requires of { AllOf pool.now passes.old }
    requires order { AreInOrder 0 passes.old }
    requires some { 0 < length passes.old }
    requires arena { arena < length pool.now.locks }
    ensures of { AllOf pool.now passes.new }
    ensures asked { AllAsked passes.old passes.new }
    ensures counted { IsCounted passes.new arena result }
{
    let number = asking(passes.len(), arena as usize);
    ask(pool, &mut passes[number], arena)
}

/// The published length of the journal of each arena, of which there are so many.
pub(crate) fn lengths_of<P: Pmem>(
    alloc: Global,
    pool: &SharedPool<P>,
    passes: &mut [Pass],
    arenas: u32,
) -> Result<Vec<u64>, OutOfMemory>
    requires of { AllOf pool.now passes.old }
    requires order { AreInOrder 0 passes.old }
    requires some { 0 < length passes.old }
    requires arenas { arenas ≤ length pool.now.locks }
    ensures of { AllOf pool.now passes.new }
    ensures asked { AllAsked passes.old passes.new }
    ensures counted { IfOk result (λ counts. EachFrom (IsCounted passes.new) 0 counts.items) }
    ensures all { IfOk result (λ counts. length counts.items ≡ arenas) }
{
    let mut counts = Vec::new(alloc);
    for arena in 0..arenas {
        counts.push(ask_own(pool, passes, arena))?;
    }
    Ok(counts)
}
