// The calls of a trace, and what is told of them.
ghost use Rattle.std.specs.Prelude.{◌≡◌, length, IfOk};
ghost use Rattle.std.specs.List.{All};
ghost use Rattle.arena_journal.specs.Journals.{opened};
ghost use Rattle.shared_pool.specs.Rows.{each_of};
ghost use Rattle.trace_text.specs.Grammar.{pool_of};
ghost use Rattle.trace_gen.specs.Draws.{IsOwn};
ghost use Rattle.trace_runs.specs.Answers.{by_threads, AllAnswer};
ghost use Rattle.trace_runs.specs.Threads.{IsWorkOf};
ghost use Rattle.trace_runs.specs.Told.{IsTold, AreNew};
ghost use Rattle.trace_workers.specs.Summaries.{telling_of, lengths_of};
ghost use Rattle.trace_workers.specs.declared.telling.Account.TheVariants as accounts;

use crate::running::{Ended, run_trace};
use crate::telling::{Account, tell_all};
use arena_core::Arena;
use pmem_lines::{OutOfMemory, Pmem};
use shared_pool::Gate;
use std::alloc::Global;
use std::sync::Wait;
use std::thread::Threads;
use trace_runs::{Told, threads_of};
use trace_text::Trace;

/// Carries out the calls of a trace on the arenas of its pool, which are new, each thread's by a worker of its own. It gives
/// what is told of the journals, and the devices that went through them. For a summary each arena has one thread. The trace is
/// let go before anything is told.
pub fn replay<R: Threads + Wait + Sync, P: Pmem + Drop + Send, G: Gate + Sync>(
    rt: &R,
    alloc: Global,
    account: Account,
    trace: Trace,
    arenas: Vec<Arena<P>>,
    gate: &G,
) -> Result<Told<P>, OutOfMemory>
    requires work { IsWorkOf (pool_of trace) trace.calls.items (length arenas.items) }
    requires own { account ≡ accounts.Summary → All IsOwn trace.calls.items }
    requires new { AreNew (pool_of trace) 0 arenas.items }
    ensures { IfOk result (λ done. IsTold by_threads (telling_of account) (pool_of trace) trace.calls.items done.text.items (each_of done.devices.items (λ d. P.state d))) }
{
    let Ended { lengths, closed } = make_last_calls(rt, alloc, trace, arenas, gate)?;
    tell_all(alloc, account, lengths, closed)
}

// Carries out the calls of a trace as `make_calls` does, and lets the trace go.
fn make_last_calls<R: Threads + Wait + Sync, P: Pmem + Drop + Send, G: Gate + Sync>(
    rt: &R,
    alloc: Global,
    trace: Trace,
    arenas: Vec<Arena<P>>,
    gate: &G,
) -> Result<Ended<P>, OutOfMemory>
    requires { IsWorkOf (pool_of trace) trace.calls.items (length arenas.items) }
    ensures answers { IfOk result (λ e. AllAnswer by_threads trace.calls.items 0 (each_of arenas.items (λ a. opened a)) (each_of e.closed.items (λ c. (c.journal.items, c.arena)))) }
    ensures lengths { IfOk result (λ e. All IsOwn trace.calls.items → e.lengths.items ≡ lengths_of (each_of e.closed.items (λ c. (c.journal.items, c.arena)))) }
{
    make_calls(rt, alloc, &trace, arenas, gate)
}

/// Carries out the calls of a trace on the arenas of its pool, each thread's by a worker of its own, and gives each arena with
/// its journal, and the lengths of these, as `run_trace` does.
pub fn make_calls<R: Threads + Wait + Sync, P: Pmem + Drop + Send, G: Gate + Sync>(
    rt: &R,
    alloc: Global,
    trace: &Trace,
    arenas: Vec<Arena<P>>,
    gate: &G,
) -> Result<Ended<P>, OutOfMemory>
    requires { IsWorkOf (pool_of trace.now) trace.now.calls.items (length arenas.items) }
    ensures answers { IfOk result (λ e. AllAnswer by_threads trace.now.calls.items 0 (each_of arenas.items (λ a. opened a)) (each_of e.closed.items (λ c. (c.journal.items, c.arena)))) }
    ensures lengths { IfOk result (λ e. All IsOwn trace.now.calls.items → e.lengths.items ≡ lengths_of (each_of e.closed.items (λ c. (c.journal.items, c.arena)))) }
{
    let seats = threads_of(&trace.calls);
    run_trace(rt, alloc, arenas, seats, &trace.calls, gate)
}
