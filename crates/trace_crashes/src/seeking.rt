// The call under way at an event: calls are made up to it.
ghost use Rattle.std.specs.Prelude.{◌≡◌, ◌<◌, if◌then◌else◌, length, IfOk};
ghost use Rattle.std.specs.List.{All};
ghost use Rattle.pool_layout.specs.declared.header.PoolHeader.{PoolHeader};
ghost use Rattle.arena_journal.specs.Journals.{begins_call};
ghost use Rattle.trace_text.specs.Grammar.{pool_of};
ghost use Rattle.trace_runs.specs.Arenas.{header_for};
ghost use Rattle.trace_runs.specs.Calls.{calls_of, CanBeMade, IsArenaOf};
ghost use Rattle.trace_crashes.specs.Seek.{IsSought, IsReportable};
ghost use Rattle.trace_crashes.specs.Steps.{runs_from};

use crate::arenas::{SimArena, format_new};
use heap_model::{Call, Entry};
use pmem_lines::{OutOfMemory, SimPmem};
use std::alloc::Global;
use trace_text::{Trace, TraceCall};

/// Where an event of the calls lies.
#[derive(Drop)]
pub(crate) enum Sought {
    /// In the call of this number, counted from 1, with this entry, of whose events this many are done.
    UnderWay {
        number: u64,
        entry: Entry,
        done: u32,
    },
    /// In no call; all calls together have this many events.
    Past {
        events: u64,
    },
}

/// The device of an arena behind the call under way, or behind all calls, and where the event lies.
#[derive(Drop)]
pub(crate) struct Stopped {
    pub device: SimPmem,
    pub sought: Sought,
}

/// Makes the calls of a new arena of a trace in order, up to and with the one that is under way at an event, counted over
/// all of them.
pub(crate) fn stop_at<A: SimArena>(
    alloc: Global,
    trace: &Trace,
    arena: u32,
    event: u64,
) -> Result<Stopped, OutOfMemory>
    requires of { IsArenaOf (pool_of trace.now) trace.now.calls.items arena }
    requires can { A.can_format (pool_of trace.now) }
    requires each { All (λ call. A.can_answer call.call) trace.now.calls.items }
    ensures sought { IfOk result (λ s. let header = header_for (pool_of trace.now) arena in IsSought A.variant (runs_from A A.step (A.is_new header)) (A.formatted header) (calls_of arena trace.now.calls.items) event s.device s.sought) }
    ensures next { IfOk result (λ s. IsReportable A.variant s.device s.sought) }
{
    let mut made: A = format_new(alloc, trace, arena)?;
    let sought = seek(&mut made, arena, &trace.calls, event);
    Ok(Stopped {
        device: made.into_device(),
        sought,
    })
}

// The same on an arena that is there.
fn seek<A: SimArena>(made: &mut A, arena: u32, calls: &[TraceCall], event: u64) -> Sought
    requires each { All CanBeMade calls.now }
    requires can { All (λ call. A.can_answer call.call) calls.now }
    ensures sought { (header : PoolHeader) → A.is_new header made.old → IsSought A.variant (runs_from A A.step (A.is_new header)) (A.formatted header) (calls_of arena calls.now) event (A.state made.new) result }
    ensures next { IsReportable A.variant (A.state made.new) result }
{
    let mut left = event;
    let mut events: u64 = 0;
    let mut number: u64 = 0;
    for call in calls {
        if call.arena != arena {
            continue;
        }
        let entry = made.answer(call);
        number += 1;
        let count = u64::from(events_of(made, &call.call));
        if count > 0 && left <= count {
            return Sought::UnderWay {
                number,
                entry,
                done: left as u32,
            };
        }
        left -= count;
        events += count;
    }
    Sought::Past { events }
}

// How many events the call has that an arena answered last: those of the device where the call begins one there.
fn events_of<A: SimArena>(made: &A, call: &Call) -> u32
    ensures { result ≡ (if begins_call call.now then length (A.state made.now).events else 0) }
{
    let count = made.device().event_count();
    if begins_call(call) { count } else { 0 }
}

// Whether a call begins one on the device: all but a Read do.
fn begins_call(call: &Call) -> bool
    ensures { result ≡ begins_call call.now }
{
    !matches!(call, Call::Read { .. })
}
