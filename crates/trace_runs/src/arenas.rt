// An arena of a trace's pool, made anew.
ghost use Rattle.std.specs.Prelude.{◌≤◌, ◌<◌, ◌*◌, IfOk};
ghost use Rattle.pmem_lines.specs.Pmem.{IsZeroed};
ghost use Rattle.pool_layout.specs.Layout.{layout_of};
ghost use Rattle.trace_text.specs.declared.call.PoolSize.{PoolSize};
ghost use Rattle.trace_text.specs.Grammar.{IsPool};
ghost use Rattle.trace_runs.specs.Arenas.{header_for, IsNewArena};

use arena_core::{Arena, ArenaRoom};
use pmem_lines::{OutOfMemory, Pmem};
use std::alloc::Global;
use trace_text::PoolSize;

/// Formats a device of zeros, with the room of the pool's version, as the arena of this number of the pool.
pub fn new_arena<P: Pmem + Drop>(
    alloc: Global,
    device: P,
    pool: PoolSize,
    arena: u32,
) -> Result<Arena<P>, OutOfMemory>
    requires pool { IsPool pool }
    requires inside { arena < pool.arenas }
    requires zeroed { IsZeroed (P.state device) (256 * pool.granules) (layout_of pool.version).room }
    ensures { IfOk result (λ made. IsNewArena (header_for pool arena) made) }
{
    let room = ArenaRoom::new(alloc, pool.granules)?;
    if pool.version == 2 {
        return Ok(Arena::format_v2(room, device, arena, pool.arenas));
    }
    Ok(Arena::format(room, device, arena, pool.arenas))
}
