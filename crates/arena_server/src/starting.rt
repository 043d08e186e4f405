// The queues of a new server, its senders and its owners.
ghost use Rattle.std.specs.Prelude.{◌≡◌, ℕ, ◌≤◌, ◌<◌, ◌+◌, ◌++◌, ◌∷◌, [], List, length, vec_len, IfOk};
ghost use Rattle.std.specs.Vec.{vec_capacity};
ghost use Rattle.atomic_table.specs.Seated.{TableId};
ghost use Rattle.crossbeam_queue.specs.Passes.{view, IsSamePass, IsPassOf};
ghost use Rattle.arena_lock.specs.Known.{Lock};
ghost use Rattle.shared_pool.specs.Passes.{fresh_passes};
ghost use Rattle.shared_pool.specs.Rows.{each_of, AllRoom};
ghost use Rattle.arena_server.specs.Parts.{IsTaker};
ghost use Rattle.arena_server.specs.Owners.{senders_of};
ghost use Rattle.arena_server.specs.Servers.{queue_ids, AllHaveRoom};
ghost use Rattle.arena_server.specs.Started.{new_senders, new_owners, after_enlisting_all, AllNewRows, AllSpace, AllNewTakers};

use crate::owner::{Owner, Till};
use crate::parting::rooms;
use crate::queue::{Queue, Token, enlist, open};
use crate::sender::Sender;
use pmem_lines::OutOfMemory;
use shared_pool::Pass;
use std::alloc::Global;

/// Queues, the tokens by which their owners take, and the senders.
#[derive(Drop)]
pub(crate) struct Queues {
    pub queues: Vec<Queue>,
    pub takers: Vec<Token>,
    pub senders: Vec<Sender>,
}

// Enlists a sender for each row, and puts its token at the row's end.
fn enlist_all(queue: &Queue, taker: &mut Token, rows: &mut [Vec<Token>])
    requires queue { IsPassOf queue.now taker.old }
    requires takes { IsTaker (view taker.old) }
    requires room { (k : ℕ) × (0 < k) × AllSpace k (each_of rows.old (λ r. (vec_len r, vec_capacity r))) }
    ensures queue { IsSamePass taker.old taker.new }
    ensures enlisted { view taker.new ≡ after_enlisting_all (view taker.old) (length rows.old) }
    ensures room { (k : ℕ) → AllSpace (k + 1) (each_of rows.old (λ r. (vec_len r, vec_capacity r))) → AllSpace k (each_of rows.new (λ r. (vec_len r, vec_capacity r))) }
    ensures rows { (queues : List TableId) → AllNewRows (senders_of (view taker.old)) queues (each_of rows.old (λ r. r.items)) → AllNewRows (senders_of (view taker.old)) (queues ++ queue.now.table.shared.table_id ∷ []) (each_of rows.new (λ r. r.items)) }
{
    match rows.split_first_mut() {
        None => {}
        Some((first, rest)) => {
            first.push_reserved(enlist(queue, taker));
            enlist_all(queue, taker, rest);
        }
    }
}

// A sender for each row of tokens.
fn number_all(mut rows: Vec<Vec<Token>>, mut senders: Vec<Sender>, count: u32) -> Vec<Sender>
    requires rows { (queues : List TableId) × AllNewRows 0 queues (each_of rows.items (λ r. r.items)) }
    requires count { length rows.items ≡ count }
    requires senders { (vec_len senders ≡ 0) × (count ≤ vec_capacity senders) }
    ensures { (queues : List TableId) → AllNewRows 0 queues (each_of rows.items (λ r. r.items)) → result.items ≡ new_senders queues 0 count }
{
    for number in 0..count {
        senders.push_reserved(Sender {
            number,
            tokens: rows.remove(0),
        });
    }
    senders
}

/// So many queues with this much room, and so many senders with a token of each. It takes all memory that they need.
pub(crate) fn open_all(
    alloc: Global,
    count: usize,
    senders: u32,
    room: u32,
) -> Result<Queues, OutOfMemory>
    requires room { 0 < room }
    ensures queues { IfOk result (λ q. AllHaveRoom room q.queues.items × (length q.queues.items ≡ count)) }
    ensures takers { IfOk result (λ q. AllNewTakers (queue_ids q.queues.items) senders q.takers.items) }
    ensures senders { IfOk result (λ q. q.senders.items ≡ new_senders (queue_ids q.queues.items) 0 senders) }
{
    let mut rows: Vec<Vec<Token>> = rooms(alloc, senders as usize, count)?;
    let row = Vec::with_capacity(alloc, senders as usize)?;
    let mut takers = Vec::with_capacity(alloc, count)?;
    let mut queues = Vec::with_capacity(alloc, count)?;
    for _ in 0..count {
        let (queue, mut taker) = open(alloc, room as usize)?;
        enlist_all(&queue, &mut taker, rows.as_mut_slice());
        takers.push_reserved(taker);
        queues.push_reserved(queue);
    }
    Ok(Queues {
        queues,
        takers,
        senders: number_all(rows, row, senders),
    })
}

/// An owner for each pass and each token.
pub(crate) fn seat_all(
    mut passes: Vec<Pass>,
    mut takers: Vec<Token>,
    mut owners: Vec<Owner>,
    count: u32,
    senders: u32,
) -> Vec<Owner>
    requires passes { (locks : List Lock) × (passes.items ≡ fresh_passes locks 0 count) }
    requires takers { (queues : List TableId) × AllNewTakers queues senders takers.items × (length queues ≡ count) }
    requires owners { (vec_len owners ≡ 0) × (count ≤ vec_capacity owners) }
    ensures { (locks : List Lock) (queues : List TableId) → passes.items ≡ fresh_passes locks 0 count → AllNewTakers queues senders takers.items → length queues ≡ count → result.items ≡ new_owners locks senders 0 queues }
{
    for arena in 0..count {
        owners.push_reserved(Owner {
            pass: passes.remove(0),
            till: Till {
                arena,
                token: takers.remove(0),
                held: None,
                skipped: false,
            },
        });
    }
    owners
}
