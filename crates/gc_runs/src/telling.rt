// The calls of a trace on one arena, and the report of them.
ghost use Rattle.std.specs.Prelude.{◌≡◌, ◌<◌, ◌*◌, ◌^◌, length, IfOk, OnOk};
ghost use Rattle.std.specs.List.{All};
ghost use Rattle.pmem_lines.specs.Pmem.{IsZeroed};
ghost use Rattle.pool_layout.specs.Layout.{layout_of};
ghost use Rattle.trace_text.specs.Grammar.{pool_of, IsStill};
ghost use Rattle.trace_runs.specs.Calls.{calls_of, CanBeMade};
ghost use Rattle.gc_runs.specs.Told.{AreStillCalls, HasToldArena};
ghost use Rattle.gc_runs.specs.Kept.{HasToldGc, HasReportedGc};

use crate::answering::answer;
use crate::arenas::new_gc_arena;
use crate::blocks::gc_blocks_of;
use gc_heap::GcArena;
use pmem_lines::{OutOfMemory, Pmem};
use std::alloc::Global;
use trace_text::{Trace, TraceCall, write_arena, write_entry, write_heap};

/// Makes the calls of a trace that are those of one arena, in the order of the lines, on the arena over a new device of zeros, which
/// has the room of version 1. It writes the report of the arena behind what stands in a text, and gives the device.
pub fn run_gc_calls<P: Pmem + Drop>(
    alloc: Global,
    trace: &Trace,
    arena: u32,
    device: P,
    text: &mut Vec<u8>,
) -> Result<P, OutOfMemory>
    requires calls { AreStillCalls (pool_of trace.now) trace.now.calls.items }
    requires inside { arena < trace.now.arenas }
    requires few { length trace.now.calls.items < 2 ^ 32 }
    requires zeroed { IsZeroed (P.state device) (256 * trace.now.granules) (layout_of trace.now.version).room }
    ensures { IfOk result (λ left. HasToldArena (pool_of trace.now) trace.now.calls.items arena text.old.items text.new.items (P.state left)) }
{
    let mut made = new_gc_arena(alloc, device, trace.pool(), arena)?;
    let told = report_calls(alloc, &mut made, arena, &trace.calls, text);
    let left = made.into_pmem();
    match told {
        Ok(()) => Ok(left),
        Err(fault) => Err(fault),
    }
}

// Makes those calls that are of the arena of this number, in order, and writes the report of the arena behind a text.
fn report_calls<P: Pmem>(
    alloc: Global,
    made: &mut GcArena<P>,
    arena: u32,
    calls: &[TraceCall],
    text: &mut Vec<u8>,
) -> Result<(), OutOfMemory>
    requires each { All CanBeMade calls.now }
    requires still { All (λ call. IsStill call.call) calls.now }
    requires few { length calls.now < 2 ^ 32 }
    ensures { OnOk result (HasReportedGc made.old made.new (calls_of arena calls.now) arena text.old.items text.new.items) }
{
    let many = count_calls(calls, arena);
    write_arena(text, arena, many)?;
    tell_calls(made, arena, calls, text)?;
    let blocks = gc_blocks_of(alloc, made)?;
    write_heap(text, &blocks)
}

// How many calls are of the arena of this number.
fn count_calls(calls: &[TraceCall], arena: u32) -> u64
    requires { length calls.now < 2 ^ 32 }
    ensures { result ≡ length (calls_of arena calls.now) }
{
    let mut many: u64 = 0;
    for call in calls {
        if call.arena == arena {
            many += 1;
        }
    }
    many
}

// Makes those calls that are of the arena of this number, in order, and writes the line of each. The line goes right behind the text, so
// that no journal takes memory.
fn tell_calls<P: Pmem>(
    made: &mut GcArena<P>,
    arena: u32,
    calls: &[TraceCall],
    text: &mut Vec<u8>,
) -> Result<(), OutOfMemory>
    requires each { All CanBeMade calls.now }
    requires still { All (λ call. IsStill call.call) calls.now }
    ensures { OnOk result (HasToldGc made.old made.new (calls_of arena calls.now) text.old.items text.new.items) }
{
    for call in calls {
        if call.arena != arena {
            continue;
        }
        write_entry(text, answer(made, call.thread, call.call))?;
    }
    Ok(())
}
