// The end of a server that served all calls of a trace: journals are told with the numbers of those who sent the requests.
ghost use Rattle.std.specs.Prelude.{◌≡◌, ◌<◌, ◌^◌, List, map, length, IfOk};
ghost use Rattle.arena_lock.specs.Journal.{Each};
ghost use Rattle.arena_lock.specs.Known.{Lock};
ghost use Rattle.heap_model.specs.declared.call.Entry.{Entry};
ghost use Rattle.arena_core.specs.Arena.{ArenaState};
ghost use Rattle.shared_pool.specs.Rows.{each_of};
ghost use Rattle.trace_runs.specs.Answers.{by_owner, AllAnswer};
ghost use Rattle.trace_runs.specs.Each.{EachFrom};
ghost use Rattle.trace_runs.specs.Threads.{AllBy};
ghost use Rattle.arena_server.specs.Senders.{numbers};
ghost use Rattle.arena_server.specs.Started.{new_senders};
ghost use Rattle.arena_server.specs.Servers.{IsSenderOf};
ghost use Rattle.serve_runs.specs.Clerks.{AllClerksOf, HasServedAll};
ghost use Rattle.serve_runs.specs.Sent.{HasSentAll};
ghost use Rattle.serve_runs.specs.Signed.{signed, all_signed, AllFit};

use crate::clerk::Clerk;
use arena_server::{ClosedDesk, Owner, Sender, Server};
use heap_model::Entry;
use pmem_lines::{OutOfMemory, Pmem};
use shared_pool::ClosedArena;
use std::alloc::Global;
use std::sync::Wait;
use trace_text::TraceCall;

// Puts the number of its place into each entry.
fn sign(journal: &mut [Entry], senders: &[u32])
    requires { length senders.now ≡ length journal.old }
    ensures { journal.new ≡ signed senders.now journal.old }
{
    for k in 0..senders.len() {
        journal[k] = Entry {
            seat: senders[k],
            call: journal[k].call,
            reply: journal[k].reply,
        };
    }
}

// The arenas of desks, each journal with the numbers of those who sent its requests.
fn sign_all<P: Pmem + Drop>(
    alloc: Global,
    mut desks: Vec<ClosedDesk<P>>,
    mut notes: Vec<Vec<u32>>,
) -> Result<Vec<ClosedArena<P>>, OutOfMemory>
    requires { AllFit (each_of notes.items (λ n. n.items)) (each_of {B = List Entry × ArenaState} desks.items (λ d. (d.journal.items, d.arena))) }
    ensures { IfOk result (λ closed. each_of {B = List Entry × ArenaState} closed.items (λ c. (c.journal.items, c.arena)) ≡ all_signed (each_of notes.items (λ n. n.items)) (each_of {B = List Entry × ArenaState} desks.items (λ d. (d.journal.items, d.arena)))) }
{
    let mut closed = Vec::with_capacity(alloc, desks.len())?;
    while !desks.is_empty() {
        let ClosedDesk {
            mut journal,
            left: _,
            arena,
        } = desks.remove(0);
        let senders = notes.remove(0);
        sign(journal.as_mut_slice(), &senders);
        closed.push_reserved(ClosedArena { journal, arena });
    }
    Ok(closed)
}

// The owners of clerks, and what these noted.
fn part_clerks(
    alloc: Global,
    mut clerks: Vec<Clerk>,
) -> Result<(Vec<Owner>, Vec<Vec<u32>>), OutOfMemory>
    ensures owners { IfOk result (λ r. r.0.items ≡ each_of clerks.items (λ c. c.owner)) }
    ensures notes { IfOk result (λ r. each_of r.1.items (λ n. n.items) ≡ each_of clerks.items (λ c. c.senders.items)) }
{
    let mut owners = Vec::with_capacity(alloc, clerks.len())?;
    let mut notes = Vec::with_capacity(alloc, clerks.len())?;
    while !clerks.is_empty() {
        let Clerk { owner, senders } = clerks.remove(0);
        owners.push_reserved(owner);
        notes.push_reserved(senders);
    }
    Ok((owners, notes))
}

/// Closes a server whose owners served all calls that its senders sent, and gives each arena with its journal, in which each entry
/// bears the number of the sender that asked for it.
pub(crate) fn close_told<R: Wait, P: Pmem + Drop>(
    rt: &R,
    alloc: Global,
    server: Server<P>,
    senders: Vec<Sender>,
    clerks: Vec<Clerk>,
    calls: &[TraceCall],
) -> Result<Vec<ClosedArena<P>>, OutOfMemory>
    requires senders { Each (λ s. IsSenderOf server s) senders.items }
    requires numbers { numbers senders.items ≡ numbers (new_senders server.queues 0 server.senders) }
    requires sent { Each (HasSentAll calls.now) senders.items }
    requires owners { AllClerksOf server clerks.items }
    requires order { EachFrom (λ number c. c.owner.pass.number ≡ number) 0 clerks.items }
    requires all { length clerks.items ≡ length server.queues }
    requires served { Each (HasServedAll calls.now) clerks.items }
    requires threads { AllBy server.senders calls.now }
    ensures { IfOk result (λ closed. AllAnswer by_owner calls.now 0 (map (λ (l : Lock). l.opening) server.pool.locks) (each_of closed.items (λ c. (c.journal.items, c.arena)))) }
{
    let _calls = calls;
    let (owners, notes) = match part_clerks(alloc, clerks) {
        Ok((owners, notes)) => (owners, notes),
        Err(fault) => {
            drop(server);
            return Err(fault);
        }
    };
    match server.close(rt, alloc, senders, owners) {
        Ok(desks) => sign_all(alloc, desks, notes),
        Err((fault, server, _senders, _owners)) => {
            drop(server);
            Err(fault)
        }
    }
}
