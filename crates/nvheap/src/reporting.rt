// What `replay` and `serve` have to say of their input, and the devices that they leave.
ghost use Rattle.std.specs.Prelude.{◌≡◌, ◌<◌, ◌≤◌, ◌^◌, length, IfOk, IfErr, OnErr};
ghost use Rattle.std.specs.List.{All};
ghost use Rattle.trace_text.specs.Grammar.{pool_of, IsPool, IsTrace, IsTraceCall, IsRefusedLine};
ghost use Rattle.shared_pool.specs.Rows.{each_of};
ghost use Rattle.trace_runs.specs.Threads.{IsWorkOf};
ghost use Rattle.trace_runs.specs.Told.{IsReported, AreNew};
ghost use Rattle.nvheap.specs.Reporting.{reporting, seats_of};
ghost use Rattle.nvheap.specs.Ends.{IsAnswer, IsBadLine};

use crate::answers::trace_of;
use crate::shelf::{Shelf, put_all};
use arena_core::Arena;
use pmem_lines::{OutOfMemory, Pmem};
use pool_layout::layout_of;
use program_io::Answer;
use serve_runs::serve;
use shared_pool::Gate;
use std::alloc::Global;
use std::sync::Wait;
use std::thread::Threads;
use trace_runs::{Told, new_arena};
use trace_text::{PoolSize, Trace};
use trace_workers::{Account, replay};

/// The bytes of a granule, in lines.
pub(crate) const GRANULE_LINES: u32 = 256;

/// Who makes the calls of a trace.
#[derive(Clone, Copy)]
pub(crate) enum Crew {
    /// A worker for each thread.
    Workers,
    /// An owner for each arena, whom a sender for each thread sends them.
    Owners,
}

/// The report of a trace, whose calls are made by this crew. Each arena's device comes from the shelf, and is put into the place
/// of the arena's number once all calls are made. The input is let go once it is read, and the trace once its calls are made.
pub(crate) fn report_answer<R: Threads + Wait + Sync, G: Gate + Sync, H: Shelf>(
    rt: &R,
    alloc: Global,
    crew: Crew,
    input: Vec<u8>,
    gate: &G,
    shelf: &mut H,
) -> Result<Answer, OutOfMemory>
    requires { length input.items < 2 ^ 32 }
    ensures answer { IfOk result (IsAnswer (reporting (seats_of crew)) input.items (H.places shelf.old) (H.places shelf.new)) }
    ensures kept { OnErr result (H.places shelf.new ≡ H.places shelf.old) }
    ensures images { H.images shelf.new ≡ H.images shelf.old }
{
    let trace = match last_trace_of(alloc, input) {
        Ok(trace) => trace,
        Err(answer) => return answer,
    };
    let arenas = take_arenas(alloc, &trace, shelf)?;
    let done = report(rt, alloc, crew, trace, arenas, gate)?;
    put_all(shelf, done.devices);
    Ok(Answer::Output(done.text))
}

// The trace that an input says, or the line that refuses it, as `trace_of` gives them. The input is let go.
fn last_trace_of(alloc: Global, input: Vec<u8>) -> Result<Trace, Result<Answer, OutOfMemory>>
    ensures trace { IfOk result (λ trace. IsTrace input.items (pool_of trace) trace.calls.items) }
    ensures pool { IfOk result (λ trace. IsPool (pool_of trace)) }
    ensures each { IfOk result (λ trace. All (IsTraceCall trace.arenas) trace.calls.items) }
    ensures few { IfOk result (λ trace. length trace.calls.items ≤ length input.items) }
    ensures refused { IfErr result (λ answer. IfOk answer (IsBadLine (IsRefusedLine input.items))) }
{
    trace_of(alloc, &input)
}

// Has the crew make the calls.
fn report<R: Threads + Wait + Sync, P: Pmem + Drop + Send, G: Gate + Sync>(
    rt: &R,
    alloc: Global,
    crew: Crew,
    trace: Trace,
    arenas: Vec<Arena<P>>,
    gate: &G,
) -> Result<Told<P>, OutOfMemory>
    requires work { IsWorkOf (pool_of trace) trace.calls.items (length arenas.items) }
    requires new { AreNew (pool_of trace) 0 arenas.items }
    ensures { IfOk result (λ done. IsReported (seats_of crew) (pool_of trace) trace.calls.items done.text.items (each_of done.devices.items (λ d. P.state d))) }
{
    match crew {
        Crew::Workers => replay(rt, alloc, Account::Report, trace, arenas, gate),
        Crew::Owners => serve(rt, alloc, trace, arenas, gate),
    }
}

/// The arenas of a trace's pool, formatted over devices of the shelf.
pub(crate) fn take_arenas<H: Shelf>(
    alloc: Global,
    trace: &Trace,
    shelf: &mut H,
) -> Result<Vec<Arena<H::Device>>, OutOfMemory>
    requires { IsPool (pool_of trace.now) }
    ensures all { IfOk result (λ arenas. length arenas.items ≡ trace.now.arenas) }
    ensures new { IfOk result (λ arenas. AreNew (pool_of trace.now) 0 arenas.items) }
    ensures places { H.places shelf.new ≡ H.places shelf.old }
    ensures images { H.images shelf.new ≡ H.images shelf.old }
{
    let pool = PoolSize {
        version: trace.version,
        arenas: trace.arenas,
        granules: trace.granules,
    };
    let mut arenas = Vec::new(alloc);
    for number in 0..pool.arenas {
        let room = layout_of(pool.version).room;
        let device = shelf.take(alloc, GRANULE_LINES * pool.granules, room)?;
        arenas.push(new_arena(alloc, device, pool, number)?)?;
    }
    Ok(arenas)
}
