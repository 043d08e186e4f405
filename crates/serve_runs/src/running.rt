// All senders and all owners at once.
ghost use Rattle.std.specs.Prelude.{◌≡◌, ◌<◌, ◌^◌, map, length, IfOk};
ghost use Rattle.std.specs.Thread.{IsSync};
ghost use Rattle.arena_lock.specs.Journal.{Each};
ghost use Rattle.shared_pool.specs.Rows.{each_of};
ghost use Rattle.trace_runs.specs.Threads.{AllIn};
ghost use Rattle.arena_server.specs.Closed.{owner_numbers};
ghost use Rattle.arena_server.specs.Senders.{numbers};
ghost use Rattle.arena_server.specs.Servers.{IsSenderOf};
ghost use Rattle.serve_runs.specs.Clerks.{IsReady, AllClerksOf, HasServedAll};
ghost use Rattle.serve_runs.specs.Sent.{HasSentNothing, HasSentAll};

use crate::clerk::Clerk;
use crate::sending::send_calls;
use crate::serving::serve_arena;
use arena_server::{Sender, Server};
use pmem_lines::{OutOfMemory, Pmem};
use shared_pool::Gate;
use std::alloc::Global;
use std::sync::Wait;
use std::thread::{Threads, join_mut};
use trace_text::TraceCall;

// Each sender sends its calls, in a thread of its own where one can be made.
#[tactic(auto, using(crate::proofs::Eaches::senders_join))]
fn send_all<R: Threads + Wait + Sync, P: Pmem + Drop + Send, G: Gate + Sync>(
    rt: &R,
    server: &Server<P>,
    senders: &mut [Sender],
    calls: &[TraceCall],
    gate: &G,
)
    requires senders { Each (λ s. IsSenderOf server.now s) senders.old }
    requires none { Each HasSentNothing senders.old }
    requires arenas { AllIn (length server.now.queues) calls.now }
    requires few { length calls.now < 2 ^ 32 }
    ensures senders { Each (λ s. IsSenderOf server.now s) senders.new }
    ensures numbers { numbers senders.new ≡ numbers senders.old }
    ensures sent { Each (HasSentAll calls.now) senders.new }
{
    if senders.is_empty() {
        return;
    }
    if senders.len() == 1 {
        return send_calls(rt, server, &mut senders[0], calls, gate);
    }
    let (front, back) = senders.split_at_mut(senders.len() / 2);
    join_mut(
        rt,
        &mut || -> ()
            requires { IsSync R.row × IsSync G.row × Each (λ s. IsSenderOf server.now s) front.now × Each HasSentNothing front.now × AllIn (length server.now.queues) calls.now × (length calls.now < 2 ^ 32) }
            ensures { Each (λ s. IsSenderOf server.entry.now s) front.exit.now × (numbers front.exit.now ≡ numbers front.entry.now) × Each (HasSentAll calls.entry.now) front.exit.now }
        { send_all(rt, server, front, calls, gate) },
        &mut || -> ()
            requires { IsSync R.row × IsSync G.row × Each (λ s. IsSenderOf server.now s) back.now × Each HasSentNothing back.now × AllIn (length server.now.queues) calls.now × (length calls.now < 2 ^ 32) }
            ensures { Each (λ s. IsSenderOf server.entry.now s) back.exit.now × (numbers back.exit.now ≡ numbers back.entry.now) × Each (HasSentAll calls.entry.now) back.exit.now }
        { send_all(rt, server, back, calls, gate) },
    );
}

// Each owner serves its arena, in a thread of its own where one can be made.
#[tactic(auto, using(crate::proofs::Eaches::clerks_join))]
fn serve_all<R: Threads + Wait + Sync, P: Pmem + Drop + Send>(
    rt: &R,
    alloc: Global,
    server: &Server<P>,
    clerks: &mut [Clerk],
    calls: &[TraceCall],
) -> Result<(), OutOfMemory>
    requires ready { Each (IsReady server.now calls.now) clerks.old }
    requires few { length calls.now < 2 ^ 32 }
    ensures of { AllClerksOf server.now clerks.new }
    ensures numbers { owner_numbers (each_of clerks.new (λ c. c.owner)) ≡ owner_numbers (each_of clerks.old (λ c. c.owner)) }
    ensures served { IfOk result (λ _. Each (HasServedAll calls.now) clerks.new) }
{
    if clerks.is_empty() {
        return Ok(());
    }
    if clerks.len() == 1 {
        return serve_arena(rt, alloc, server, &mut clerks[0], calls);
    }
    let (front, back) = clerks.split_at_mut(clerks.len() / 2);
    let (first, second) = join_mut(
        rt,
        &mut || -> Result<(), OutOfMemory>
            requires { IsSync R.row × Each (IsReady server.now calls.now) front.now × (length calls.now < 2 ^ 32) }
            ensures { AllClerksOf server.entry.now front.exit.now × (owner_numbers (each_of front.exit.now (λ c. c.owner)) ≡ owner_numbers (each_of front.entry.now (λ c. c.owner))) × IfOk result (λ _. Each (HasServedAll calls.entry.now) front.exit.now) }
        { serve_all(rt, alloc, server, front, calls) },
        &mut || -> Result<(), OutOfMemory>
            requires { IsSync R.row × Each (IsReady server.now calls.now) back.now × (length calls.now < 2 ^ 32) }
            ensures { AllClerksOf server.entry.now back.exit.now × (owner_numbers (each_of back.exit.now (λ c. c.owner)) ≡ owner_numbers (each_of back.entry.now (λ c. c.owner))) × IfOk result (λ _. Each (HasServedAll calls.entry.now) back.exit.now) }
        { serve_all(rt, alloc, server, back, calls) },
    );
    first?;
    second
}

/// All senders and all owners. Where no thread can be made, all is sent before the first request is served.
pub(crate) fn run_all<R: Threads + Wait + Sync, P: Pmem + Drop + Send, G: Gate + Sync>(
    rt: &R,
    alloc: Global,
    server: &Server<P>,
    clerks: &mut [Clerk],
    senders: &mut [Sender],
    calls: &[TraceCall],
    gate: &G,
) -> Result<(), OutOfMemory>
    requires ready { Each (IsReady server.now calls.now) clerks.old }
    requires senders { Each (λ s. IsSenderOf server.now s) senders.old }
    requires none { Each HasSentNothing senders.old }
    requires arenas { AllIn (length server.now.queues) calls.now }
    requires few { length calls.now < 2 ^ 32 }
    ensures of { AllClerksOf server.now clerks.new }
    ensures owners { owner_numbers (each_of clerks.new (λ c. c.owner)) ≡ owner_numbers (each_of clerks.old (λ c. c.owner)) }
    ensures served { IfOk result (λ _. Each (HasServedAll calls.now) clerks.new) }
    ensures senders { Each (λ s. IsSenderOf server.now s) senders.new }
    ensures numbers { numbers senders.new ≡ numbers senders.old }
    ensures sent { Each (HasSentAll calls.now) senders.new }
{
    let (served, ()) = join_mut(
        rt,
        &mut || -> Result<(), OutOfMemory>
            requires { IsSync R.row × Each (IsReady server.now calls.now) clerks.now × (length calls.now < 2 ^ 32) }
            ensures { AllClerksOf server.entry.now clerks.exit.now × (owner_numbers (each_of clerks.exit.now (λ c. c.owner)) ≡ owner_numbers (each_of clerks.entry.now (λ c. c.owner))) × IfOk result (λ _. Each (HasServedAll calls.entry.now) clerks.exit.now) }
        { serve_all(rt, alloc, server, clerks, calls) },
        &mut || -> ()
            requires { IsSync R.row × IsSync G.row × Each (λ s. IsSenderOf server.now s) senders.now × Each HasSentNothing senders.now × AllIn (length server.now.queues) calls.now × (length calls.now < 2 ^ 32) }
            ensures { Each (λ s. IsSenderOf server.entry.now s) senders.exit.now × (numbers senders.exit.now ≡ numbers senders.entry.now) × Each (HasSentAll calls.entry.now) senders.exit.now }
        { send_all(rt, server, senders, calls, gate) },
    );
    served
}
