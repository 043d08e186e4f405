// The calls of a trace, served, and the report of them.
ghost use Rattle.std.specs.Prelude.{◌≡◌, ◌≤◌, ◌<◌, ◌^◌, map, length, IfOk};
ghost use Rattle.arena_journal.specs.Journals.{opened};
ghost use Rattle.arena_lock.specs.Journal.{Each};
ghost use Rattle.arena_lock.specs.Known.{Lock};
ghost use Rattle.shared_pool.specs.Rows.{each_of};
ghost use Rattle.trace_text.specs.Grammar.{pool_of};
ghost use Rattle.trace_text.specs.Report.{arena_text};
ghost use Rattle.trace_runs.specs.Answers.{by_owner, AllAnswer};
ghost use Rattle.trace_runs.specs.Each.{EachFrom};
ghost use Rattle.trace_runs.specs.Threads.{AllIn, AllBy, IsWorkOf};
ghost use Rattle.trace_runs.specs.Told.{IsTold, AreNew};
ghost use Rattle.arena_server.specs.Senders.{numbers};
ghost use Rattle.arena_server.specs.Servers.{IsSenderOf};
ghost use Rattle.arena_server.specs.Started.{new_senders};
ghost use Rattle.serve_runs.specs.Clerks.{IsReady};
ghost use Rattle.serve_runs.specs.Sent.{HasSentNothing};

use crate::clerk::{Clerk, clerks_of};
use crate::closing::close_told;
use crate::running::run_all;
use crate::telling::tell_all;
use arena_core::Arena;
use arena_server::{Opened, Sender, Server};
use pmem_lines::{OutOfMemory, Pmem};
use shared_pool::{ClosedArena, Gate};
use std::alloc::Global;
use std::sync::Wait;
use std::thread::Threads;
use trace_runs::{Told, threads_of};
use trace_text::{Trace, TraceCall};

// How many requests fit into each arena's queue.
const ROOM: u32 = 1024;

/// Carries out the calls of a trace on the arenas of its pool, which are new: each thread's are sent by a sender of its own, and
/// each arena's served by its owner. It gives the report of the journals, in which a sender's number is a thread's, and the devices
/// that went through them. The trace is let go before anything is told.
///
/// It waits for ever where no thread can be made and an arena has more than 1,024 calls.
pub fn serve<R: Threads + Wait + Sync, P: Pmem + Drop + Send, G: Gate + Sync>(
    rt: &R,
    alloc: Global,
    trace: Trace,
    arenas: Vec<Arena<P>>,
    gate: &G,
) -> Result<Told<P>, OutOfMemory>
    requires work { IsWorkOf (pool_of trace) trace.calls.items (length arenas.items) }
    requires new { AreNew (pool_of trace) 0 arenas.items }
    ensures { IfOk result (λ done. IsTold by_owner arena_text (pool_of trace) trace.calls.items done.text.items (each_of done.devices.items (λ d. P.state d))) }
{
    let closed = make_last_calls(rt, alloc, trace, arenas, gate)?;
    tell_all(alloc, closed)
}

// Carries out the calls of a trace as `make_calls` does, and lets the trace go.
fn make_last_calls<R: Threads + Wait + Sync, P: Pmem + Drop + Send, G: Gate + Sync>(
    rt: &R,
    alloc: Global,
    trace: Trace,
    arenas: Vec<Arena<P>>,
    gate: &G,
) -> Result<Vec<ClosedArena<P>>, OutOfMemory>
    requires { IsWorkOf (pool_of trace) trace.calls.items (length arenas.items) }
    ensures { IfOk result (λ closed. AllAnswer by_owner trace.calls.items 0 (each_of arenas.items (λ a. opened a)) (each_of closed.items (λ c. (c.journal.items, c.arena)))) }
{
    make_calls(rt, alloc, &trace, arenas, ROOM, gate)
}

/// Carries out the calls of a trace on the arenas of its pool, by a server with room for 1 to 65,536 requests in each arena's queue,
/// and gives each arena with its journal. The gate is called by senders: ahead of each send, and behind it, with no pass.
pub fn make_calls<R: Threads + Wait + Sync, P: Pmem + Drop + Send, G: Gate + Sync>(
    rt: &R,
    alloc: Global,
    trace: &Trace,
    arenas: Vec<Arena<P>>,
    room: u32,
    gate: &G,
) -> Result<Vec<ClosedArena<P>>, OutOfMemory>
    requires work { IsWorkOf (pool_of trace.now) trace.now.calls.items (length arenas.items) }
    requires room { (1 ≤ room) × (room ≤ 65536) }
    ensures { IfOk result (λ closed. AllAnswer by_owner trace.now.calls.items 0 (each_of arenas.items (λ a. opened a)) (each_of closed.items (λ c. (c.journal.items, c.arena)))) }
{
    let senders = threads_of(&trace.calls);
    serve_calls(rt, alloc, arenas, senders, room, &trace.calls, gate)
}

// Starts a server with so many senders, and has it serve the calls.
fn serve_calls<R: Threads + Wait + Sync, P: Pmem + Drop + Send, G: Gate + Sync>(
    rt: &R,
    alloc: Global,
    arenas: Vec<Arena<P>>,
    senders: u32,
    room: u32,
    calls: &[TraceCall],
    gate: &G,
) -> Result<Vec<ClosedArena<P>>, OutOfMemory>
    requires arenas { (1 ≤ length arenas.items) × (length arenas.items ≤ 16) }
    requires senders { (1 ≤ senders) × (senders ≤ 64) }
    requires room { (1 ≤ room) × (room ≤ 65536) }
    requires threads { AllBy senders calls.now }
    requires inside { AllIn (length arenas.items) calls.now }
    requires few { length calls.now < 2 ^ 32 }
    ensures { IfOk result (λ closed. AllAnswer by_owner calls.now 0 (each_of arenas.items (λ a. opened a)) (each_of closed.items (λ c. (c.journal.items, c.arena)))) }
{
    let Opened {
        server,
        senders,
        owners,
    } = match Server::start(alloc, arenas, senders, room) {
        Ok(opened) => opened,
        Err((fault, _arenas)) => return Err(fault),
    };
    match clerks_of(alloc, owners, calls) {
        Ok(clerks) => serve_opened(rt, alloc, server, senders, clerks, calls, gate),
        Err(fault) => {
            drop(server);
            Err(fault)
        }
    }
}

// Has a new server serve the calls, and closes it.
fn serve_opened<R: Threads + Wait + Sync, P: Pmem + Drop + Send, G: Gate + Sync>(
    rt: &R,
    alloc: Global,
    server: Server<P>,
    mut senders: Vec<Sender>,
    mut clerks: Vec<Clerk>,
    calls: &[TraceCall],
    gate: &G,
) -> Result<Vec<ClosedArena<P>>, OutOfMemory>
    requires ready { Each (IsReady server calls.now) clerks.items }
    requires order { EachFrom (λ number c. c.owner.pass.number ≡ number) 0 clerks.items }
    requires all { length clerks.items ≡ length server.queues }
    requires senders { Each (λ s. IsSenderOf server s) senders.items }
    requires numbers { numbers senders.items ≡ numbers (new_senders server.queues 0 server.senders) }
    requires none { Each HasSentNothing senders.items }
    requires threads { AllBy server.senders calls.now }
    requires inside { AllIn (length server.queues) calls.now }
    requires few { length calls.now < 2 ^ 32 }
    ensures { IfOk result (λ closed. AllAnswer by_owner calls.now 0 (map (λ (l : Lock). l.opening) server.pool.locks) (each_of closed.items (λ c. (c.journal.items, c.arena)))) }
{
    let senders_in = senders.as_mut_slice();
    match run_all(
        rt,
        alloc,
        &server,
        clerks.as_mut_slice(),
        senders_in,
        calls,
        gate,
    ) {
        Ok(()) => close_told(rt, alloc, server, senders, clerks, calls),
        Err(fault) => {
            drop(server);
            Err(fault)
        }
    }
}
