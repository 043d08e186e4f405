// An arena of a trace's pool, made anew.
ghost use Rattle.std.specs.Prelude.{◌≡◌, ◌≤◌, ◌<◌, ◌*◌, IfOk};
ghost use Rattle.pmem_lines.specs.Pmem.{IsZeroed};
ghost use Rattle.pool_layout.specs.Layout.{layout_of};
ghost use Rattle.trace_text.specs.declared.call.PoolSize.{PoolSize};
ghost use Rattle.trace_text.specs.Grammar.{IsPool};
ghost use Rattle.trace_runs.specs.Arenas.{header_for};
ghost use Rattle.gc_runs.specs.Arenas.{IsNewGcArena};

use gc_heap::{GcArena, GcRoom};
use pmem_lines::{OutOfMemory, Pmem};
use std::alloc::Global;
use trace_text::PoolSize;

/// Formats a device of zeros, with the room of version 1, as the arena of this number of a pool of version 1.
pub fn new_gc_arena<P: Pmem + Drop>(
    alloc: Global,
    device: P,
    pool: PoolSize,
    arena: u32,
) -> Result<GcArena<P>, OutOfMemory>
    requires pool { IsPool pool }
    requires first { pool.version ≡ 1 }
    requires inside { arena < pool.arenas }
    requires zeroed { IsZeroed (P.state device) (256 * pool.granules) (layout_of pool.version).room }
    ensures { IfOk result (λ made. IsNewGcArena (header_for pool arena) made) }
{
    let room = GcRoom::new(alloc, pool.granules)?;
    Ok(GcArena::format(room, device, arena, pool.arenas))
}
