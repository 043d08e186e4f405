// The end of a server: each queue is emptied, once its senders have ended.
ghost use Rattle.std.specs.Prelude.{◌≡◌, ℕ, true, ◌≤◌, ◌<◌, ◌+◌, ◌++◌, ◌∷◌, [], List, map, length, vec_len, IfOk};
ghost use Rattle.std.specs.Vec.{vec_capacity};
ghost use Rattle.atomic_table.specs.Seated.{TableId};
ghost use Rattle.crossbeam_queue.specs.Passes.{view, IsSamePass, IsPassOf, ruled_capacity};
ghost use Rattle.heap_model.specs.declared.call.Entry.{Entry};
ghost use Rattle.arena_core.specs.Arena.{ArenaState};
ghost use Rattle.shared_pool.specs.Closed.{is_in, HasAll};
ghost use Rattle.shared_pool.specs.Rows.{each_of, AllRoom};
ghost use Rattle.arena_server.specs.Parts.{IsTaker};
ghost use Rattle.arena_server.specs.Senders.{AllSendTo, behead_sender, numbers};
ghost use Rattle.arena_server.specs.Owners.{IsTill, till_list, senders_of, held_list};
ghost use Rattle.arena_server.specs.Emptied.{AllTakeThere, arenas_of, place_of, after_all_ending, IsEmptied, AllEmptied};
ghost use Rattle.arena_server.specs.Servers.{queue_ids, AllHaveRoom};

use crate::owner::Till;
use crate::parting::rooms;
use crate::queue::{Queue, Token, empty, end};
use crate::request::Request;
use crate::sender::Sender;
use arena_core::Arena;
use heap_model::Entry;
use pmem_lines::{OutOfMemory, Pmem};
use shared_pool::{ClosedArena, Pass};
use std::alloc::Global;
use std::sync::Wait;

/// An arena after its server, with the journal of the calls that it had there and the requests that were left.
#[derive(Drop)]
pub struct ClosedDesk<P: Pmem> {
    pub journal: Vec<Entry>,
    pub left: Vec<Request>,
    pub arena: Arena<P>,
}

/// What the end of a server takes memory for: its owners in their parts, and for each arena the requests that are left, and all
/// that is given back.
pub(crate) struct ClosingRoom<P: Pmem> {
    pub passes: Vec<Pass>,
    pub tills: Vec<Till>,
    pub lefts: Vec<Vec<Request>>,
    pub out: Vec<ClosedDesk<P>>,
}

/// Room for so many owners, and for so many arenas with so many requests each.
pub(crate) fn closing_room<P: Pmem>(
    alloc: Global,
    owners: usize,
    arenas: usize,
    requests: usize,
) -> Result<ClosingRoom<P>, OutOfMemory>
    ensures passes { IfOk result (λ r. (vec_len r.passes ≡ 0) × (owners ≤ vec_capacity r.passes)) }
    ensures tills { IfOk result (λ r. (vec_len r.tills ≡ 0) × (owners ≤ vec_capacity r.tills)) }
    ensures lefts { IfOk result (λ r. (length r.lefts.items ≡ arenas) × AllRoom requests (each_of r.lefts.items (λ l. (vec_len l, vec_capacity l)))) }
    ensures out { IfOk result (λ r. (vec_len r.out ≡ 0) × (arenas ≤ vec_capacity r.out)) }
{
    let passes = Vec::with_capacity(alloc, owners)?;
    let tills = Vec::with_capacity(alloc, owners)?;
    let lefts = rooms(alloc, arenas, requests)?;
    let out = Vec::with_capacity(alloc, arenas)?;
    Ok(ClosingRoom {
        passes,
        tills,
        lefts,
        out,
    })
}

// Ends each sender at the queue of its first line.
fn end_all(queue: &Queue, token: &mut Token, senders: &mut [Sender])
    requires queue { IsPassOf queue.now token.old }
    requires takes { IsTaker (view token.old) }
    requires lines { (queues : List TableId) × AllSendTo (queue.now.table.shared.table_id ∷ queues) senders.old }
    ensures queue { IsSamePass token.old token.new }
    ensures ended { view token.new ≡ after_all_ending (view token.old) senders.old }
    ensures senders { senders.new ≡ map behead_sender senders.old }
{
    match senders.split_first_mut() {
        None => {}
        Some((first, rest)) => {
            end(queue, token, first.first());
            end_all(queue, token, rest);
        }
    }
}

// The request that was held, where there is one.
fn with_held(mut left: Vec<Request>, held: Option<Request>) -> Vec<Request>
    requires { vec_len left < vec_capacity left }
    ensures items { result.items ≡ left.items ++ held_list held }
    ensures room { (vec_len result ≤ vec_len left + 1) × (vec_capacity result ≡ vec_capacity left) }
{
    match held {
        Some(request) => {
            left.push_reserved(request);
            left
        }
        None => left,
    }
}

// Empties the queue of each sender's first line: the request that the owner held comes first.
fn empty_first<R: Wait>(
    rt: &R,
    queue: Queue,
    till: Till,
    senders: &mut Vec<Sender>,
    left: Vec<Request>,
    enlisted: u32,
) -> Vec<Request>
    requires till { IsTill till × (till.token.table_id ≡ queue.table.shared.table_id) × (senders_of (view till.token) ≡ enlisted) }
    requires lines { (queues : List TableId) × AllSendTo (queue.table.shared.table_id ∷ queues) senders.old.items }
    requires all { HasAll enlisted (numbers senders.old.items) }
    requires room { (vec_len left ≡ 0) × (ruled_capacity queue + 1 ≤ vec_capacity left) }
    ensures senders { senders.new.items ≡ map behead_sender senders.old.items }
    ensures emptied { IsEmptied 0 senders.old.items (till_list till) till.held result.items }
{
    let Till {
        arena: _,
        mut token,
        held,
        skipped: _,
    } = till;
    end_all(&queue, &mut token, senders.as_mut_slice());
    empty(rt, &queue, token, with_held(left, held))
}

// The place of the first one that serves an arena.
fn place_of(tills: &[Till], arena: usize) -> usize
    requires { is_in arena (arenas_of tills.now) ≡ true }
    ensures place { result ≡ place_of arena tills.now }
    ensures inside { result < length tills.now }
{
    match tills.split_first() {
        None => unreachable!(),
        Some((first, rest)) => {
            if first.arena as usize == arena {
                0
            } else {
                place_of(rest, arena) + 1
            }
        }
    }
}

/// Empties each queue, the first one first, and puts what is left beside the arena and its journal.
pub(crate) fn close_all<R: Wait, P: Pmem>(
    rt: &R,
    mut queues: Vec<Queue>,
    mut tills: Vec<Till>,
    mut closed: Vec<ClosedArena<P>>,
    mut senders: Vec<Sender>,
    mut lefts: Vec<Vec<Request>>,
    mut out: Vec<ClosedDesk<P>>,
    enlisted: u32,
    room: u32,
) -> Vec<ClosedDesk<P>>
    requires queues { AllHaveRoom room queues.items × (length closed.items ≡ length queues.items) }
    requires tills { AllTakeThere (queue_ids queues.items) enlisted tills.items × HasAll (length queues.items) (arenas_of tills.items) }
    requires senders { AllSendTo (queue_ids queues.items) senders.items × HasAll enlisted (numbers senders.items) }
    requires lefts { (length lefts.items ≡ length queues.items) × AllRoom (room + 1) (each_of lefts.items (λ l. (vec_len l, vec_capacity l))) }
    requires out { (vec_len out ≡ 0) × (length queues.items ≤ vec_capacity out) }
    ensures emptied { AllEmptied 0 senders.items tills.items (each_of result.items (λ d. d.left.items)) }
    ensures closed { each_of {B = List Entry × ArenaState} result.items (λ d. (d.journal.items, d.arena)) ≡ each_of {B = List Entry × ArenaState} closed.items (λ c. (c.journal.items, c.arena)) }
{
    while !queues.is_empty() {
        let queue = queues.remove(0);
        let place = place_of(tills.as_slice(), out.len());
        let till = tills.remove(place);
        let left = empty_first(rt, queue, till, &mut senders, lefts.remove(0), enlisted);
        let ClosedArena { journal, arena } = closed.remove(0);
        out.push_reserved(ClosedDesk {
            journal,
            left,
            arena,
        });
    }
    closed.destroy_empty();
    out
}
