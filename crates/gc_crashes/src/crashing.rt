// What a crash leaves after a chosen event of the calls of a trace.
ghost use Rattle.std.specs.Prelude.{◌≡◌, ◌<◌, IfOk, IfErr};
ghost use Rattle.gc_check.specs.Image.{IsGcSoundImage};
ghost use Rattle.trace_text.specs.Grammar.{pool_of};
ghost use Rattle.trace_runs.specs.Arenas.{header_for};
ghost use Rattle.trace_runs.specs.Calls.{calls_of};
ghost use Rattle.trace_crashes.specs.Crash.{left_of};
ghost use Rattle.gc_runs.specs.Told.{AreStillCalls};
ghost use Rattle.gc_crashes.specs.Crash.{IsGcCrashOf, IfNoGcEvent};

use crate::arenas::GcSimArena;
use std::alloc::Global;
use trace_crashes::{CrashFault, Crashed, crash_of};
use trace_text::Trace;

/// What a crash leaves after the first `event` events of the calls of one arena of a trace without moves, as a generator from `seed`
/// picks. The calls are made on a simulated device, in the order of the lines, up to and with the one that is under way. `NoEvent`
/// comes exactly where they have fewer events.
pub fn gc_crash(
    alloc: Global,
    trace: &Trace,
    arena: u32,
    event: u64,
    seed: u64,
) -> Result<Crashed, CrashFault>
    requires calls { AreStillCalls (pool_of trace.now) trace.now.calls.items }
    requires inside { arena < trace.now.arenas }
    ensures crashed { IfOk result (λ crashed. IsGcCrashOf (header_for (pool_of trace.now) arena) (calls_of arena trace.now.calls.items) event seed (left_of crashed)) }
    ensures sound { IfOk result (λ crashed. IsGcSoundImage crashed.image.items) }
    ensures fault { IfErr result (IfNoGcEvent (header_for (pool_of trace.now) arena) (calls_of arena trace.now.calls.items) event) }
{
    crash_of::<GcSimArena>(alloc, trace, arena, event, seed)
}
