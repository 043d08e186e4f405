// What a crash leaves after a chosen event of the calls of a trace.
ghost use Rattle.std.specs.Prelude.{◌≡◌, IfOk, IfErr};
ghost use Rattle.std.specs.List.{All};
ghost use Rattle.heap_check.specs.Image.{IsSoundImage};
ghost use Rattle.trace_text.specs.Grammar.{pool_of};
ghost use Rattle.trace_runs.specs.Arenas.{header_for};
ghost use Rattle.trace_runs.specs.Calls.{calls_of, IsArenaOf};
ghost use Rattle.trace_crashes.specs.declared.crashing.CrashFault.TheVariants as faults;
ghost use Rattle.trace_crashes.specs.Crash.{left_of, IsCrashOf, IfNoEvent, IsCrash, IfTooFew};
ghost use Rattle.trace_crashes.specs.Steps.{runs_from};

use crate::arenas::SimArena;
use crate::leaving::{Crashed, left_idle, left_within};
use crate::seeking::{Sought, Stopped, stop_at};
use arena_core::Arena;
use pmem_lines::{OutOfMemory, SimPmem};
use std::alloc::Global;
use thiserror::Error;
use trace_text::Trace;

/// Why there is no report of a crash.
#[derive(Debug, Drop, Error)]
pub enum CrashFault {
    /// There was no memory.
    #[error("Memory")]
    Memory(OutOfMemory),
    /// The calls have so many events, which are fewer than were asked for.
    #[error("NoEvent")]
    NoEvent { events: u64 },
}

impl From<OutOfMemory> for CrashFault {
    ghost from_gives = { λ error fault. fault ≡ faults.Memory error };

    fn from(error: OutOfMemory) -> Self {
        CrashFault::Memory(error)
    }
}

/// What a crash leaves after the first `event` events of the calls of one arena of a trace, as a generator from `seed`
/// picks. The calls are made on a simulated device, in the order of the lines, up to and with the one that is under way.
/// `NoEvent` comes exactly where they have fewer events.
pub fn crash(
    alloc: Global,
    trace: &Trace,
    arena: u32,
    event: u64,
    seed: u64,
) -> Result<Crashed, CrashFault>
    requires { IsArenaOf (pool_of trace.now) trace.now.calls.items arena }
    ensures crashed { IfOk result (λ crashed. IsCrashOf (header_for (pool_of trace.now) arena) (calls_of arena trace.now.calls.items) event seed (left_of crashed)) }
    ensures sound { IfOk result (λ crashed. IsSoundImage crashed.image.items) }
    ensures fault { IfErr result (IfNoEvent (header_for (pool_of trace.now) arena) (calls_of arena trace.now.calls.items) event) }
{
    crash_of::<Arena<SimPmem>>(alloc, trace, arena, event, seed)
}

/// The same on an arena of either variant.
pub fn crash_of<A: SimArena>(
    alloc: Global,
    trace: &Trace,
    arena: u32,
    event: u64,
    seed: u64,
) -> Result<Crashed, CrashFault>
    requires of { IsArenaOf (pool_of trace.now) trace.now.calls.items arena }
    requires can { A.can_format (pool_of trace.now) }
    requires each { All (λ call. A.can_answer call.call) trace.now.calls.items }
    ensures crashed { IfOk result (λ crashed. let header = header_for (pool_of trace.now) arena in IsCrash A.variant (runs_from A A.step (A.is_new header)) (A.formatted header) (calls_of arena trace.now.calls.items) event seed (left_of crashed)) }
    ensures whole { IfOk result (λ crashed. A.variant.IsWhole crashed.image.items) }
    ensures fault { IfErr result (IfTooFew (runs_from A A.step (A.is_new (header_for (pool_of trace.now) arena))) (calls_of arena trace.now.calls.items) event) }
{
    let Stopped { device, sought } = stop_at::<A>(alloc, trace, arena, event)?;
    match sought {
        Sought::UnderWay {
            number,
            entry,
            done,
        } => Ok(left_within::<A>(alloc, &device, &entry, number, done, seed)?),
        Sought::Past { events } if event > events => Err(CrashFault::NoEvent { events }),
        Sought::Past { .. } => Ok(left_idle::<A>(alloc, trace, arena)?),
    }
}
