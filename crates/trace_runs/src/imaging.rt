// The calls of a trace, made on one arena for the device that they leave.
ghost use Rattle.std.specs.Prelude.{◌≤◌, ◌<◌, ◌*◌, ◌^◌, length, IfOk};
ghost use Rattle.std.specs.List.{All};
ghost use Rattle.pmem_lines.specs.Pmem.{words_of, IsZeroed};
ghost use Rattle.pool_layout.specs.Layout.{layout_of};
ghost use Rattle.heap_check.specs.Image.{IsExactImage};
ghost use Rattle.arena_core.specs.Call.{IsReady};
ghost use Rattle.trace_text.specs.Grammar.{pool_of};
ghost use Rattle.trace_runs.specs.Arenas.{header_for};
ghost use Rattle.trace_runs.specs.Calls.{calls_of, CanBeMade, IsArenaOf, HasMadeAll};
ghost use Rattle.trace_runs.specs.Journals.{IsRunThrough};

use crate::arenas::new_arena;
use arena_core::Arena;
use arena_journal::answer;
use pmem_lines::{OutOfMemory, Pmem};
use std::alloc::Global;
use trace_text::{Trace, TraceCall};

/// Makes the calls of a trace that are those of one arena, in the order of the lines, on the arena over a new device of
/// zeros, which has the room of the pool's version, and gives the device.
pub fn run_calls<P: Pmem + Drop>(
    alloc: Global,
    trace: &Trace,
    arena: u32,
    device: P,
) -> Result<P, OutOfMemory>
    requires arena { IsArenaOf (pool_of trace.now) trace.now.calls.items arena }
    requires few { length trace.now.calls.items < 2 ^ 32 }
    requires zeroed { IsZeroed (P.state device) (256 * trace.now.granules) (layout_of trace.now.version).room }
    ensures { IfOk result (λ left. IsRunThrough (header_for (pool_of trace.now) arena) (calls_of arena trace.now.calls.items) (P.state left)) }
{
    let mut made = new_arena(alloc, device, trace.pool(), arena)?;
    make_calls(&mut made, arena, &trace.calls);
    Ok(made.into_pmem())
}

// Makes those calls that are of the arena of this number, in order.
fn make_calls<P: Pmem>(made: &mut Arena<P>, arena: u32, calls: &[TraceCall])
    requires each { All CanBeMade calls.now }
    ensures { HasMadeAll made.old made.new (calls_of arena calls.now) }
{
    let _device = made.pmem();
    for call in calls {
        if call.arena != arena {
            continue;
        }
        answer(made, call.thread, call.call);
    }
}
