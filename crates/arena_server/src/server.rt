// The server, and the calls of senders and owners.
ghost use Rattle.std.specs.Prelude.{◌≡◌, ◌≤◌, ◌<◌, ℕ, false, map, length, Some, IfSome, IfOk, IfErr};
ghost use Rattle.arena_journal.specs.Journals.{opened};
ghost use Rattle.arena_lock.specs.Known.{Lock};
ghost use Rattle.shared_pool.specs.Passes.{part_at};
ghost use Rattle.shared_pool.specs.Closed.{HasAll};
ghost use Rattle.shared_pool.specs.Rows.{each_of};
ghost use Rattle.arena_server.specs.Closed.{Desk, AllDesks, owner_numbers};
ghost use Rattle.arena_server.specs.Senders.{after_sending, AllSendTo, numbers};
ghost use Rattle.arena_server.specs.Started.{new_senders, new_owners};
ghost use Rattle.arena_server.specs.Servers.{AllOwnersOf, IsSenderOf, IsOwnerOf, HasServed, HasSkipped, after_holding};

use crate::closing::{ClosedDesk, ClosingRoom, close_all, closing_room};
use crate::owner::Owner;
use crate::parting::{join_owners, part_owners};
use crate::queue::{Queue, put, take};
use crate::request::{Request, Served};
use crate::sender::Sender;
use crate::starting::{Queues, open_all, seat_all};
use arena_core::Arena;
use heap_model::Call;
use pmem_lines::{OutOfMemory, Pmem};
use shared_pool::{SharedPool, Started};
use std::alloc::Global;
use std::marker::Model;
use std::sync::Wait;

/// A pool of arenas, each behind a queue of requests, that threads share by reference. In contracts it has its pool, the
/// queue of each arena, and how many senders it was started with.
#[derive(Drop)]
pub struct Server<P: Pmem> {
    pub(crate) pool: SharedPool<P>,
    pub(crate) queues: Vec<Queue>,
    pub(crate) senders: u32,
    pub(crate) room: u32,
}

impl<P: Pmem> Model for Server<P> {
    ghost use Rattle.arena_server.specs.Servers.{ServerState, queue_ids, AllHaveRoom};
    ghost use Rattle.std.specs.Prelude.{◌≡◌, ◌≤◌, ◌<◌, length};

    ghost Value = { ServerState };

    ghost view = { λ s. record { pool = s.pool; queues = queue_ids s.queues.items; senders = s.senders } };

    ghost invariant = { λ s. (length s.queues.items ≡ length s.pool.locks) × AllHaveRoom s.room s.queues.items × (s.room ≤ 65536) × (1 ≤ length s.queues.items) × (s.pool.seats ≡ length s.queues.items) };
}

/// A server with its senders and owners.
#[derive(Drop)]
pub struct Opened<P: Pmem> {
    pub server: Server<P>,
    pub senders: Vec<Sender>,
    pub owners: Vec<Owner>,
}

impl<P: Pmem> Server<P> {
    /// Puts 1 to 16 arenas into a pool, each behind a queue with room for 1 to 65536 requests. It makes 1 to 64 senders,
    /// with the numbers from 0 on, in order, and an owner for each arena, whose pass has the arena's number. Nothing was sent,
    /// served or skipped. On want of memory the arenas come back as they were.
    pub fn start(
        alloc: Global,
        arenas: Vec<Arena<P>>,
        senders: u32,
        room: u32,
    ) -> Result<Opened<P>, (OutOfMemory, Vec<Arena<P>>)>
        requires arenas { (1 ≤ length arenas.items) × (length arenas.items ≤ 16) }
        requires senders { (1 ≤ senders) × (senders ≤ 64) }
        requires room { (1 ≤ room) × (room ≤ 65536) }
        ensures openings { IfOk result (λ o. map (λ (l : Lock). l.opening) o.server.pool.locks ≡ each_of arenas.items (λ a. opened a)) }
        ensures server { IfOk result (λ o. (o.server.senders ≡ senders) × (length o.server.queues ≡ length arenas.items)) }
        ensures senders { IfOk result (λ o. o.senders.items ≡ new_senders o.server.queues 0 senders) }
        ensures owners { IfOk result (λ o. o.owners.items ≡ new_owners o.server.pool.locks senders 0 o.server.queues) }
        ensures handed_back { IfErr result (λ r. r.1.items ≡ arenas.items) }
    {
        let count = arenas.len();
        let Ok(owners) = Vec::with_capacity(alloc, count) else {
            return Err((OutOfMemory, arenas));
        };
        let Ok(made) = open_all(alloc, count, senders, room) else {
            return Err((OutOfMemory, arenas));
        };
        let Queues {
            queues,
            takers,
            senders: made,
        } = made;
        match SharedPool::start(alloc, arenas, count as u32) {
            Err(back) => Err(back),
            Ok(Started { pool, passes }) => Ok(Opened {
                server: Server {
                    pool,
                    queues,
                    senders,
                    room,
                },
                senders: made,
                owners: seat_all(passes, takers, owners, count as u32, senders),
            }),
        }
    }

    /// Sends a call to an arena: a request of the sender's number goes to the end of the arena's queue, for which the call
    /// waits while the queue is full. The sender's list for the arena gains it at the end. It takes no memory.
    pub fn send<R: Wait>(&self, rt: &R, sender: &mut Sender, arena: u32, call: Call)
        requires sender { IsSenderOf self.now sender.old }
        requires arena { arena < length self.now.queues }
        ensures { sender.new ≡ after_sending sender.old arena (record { sender = sender.old.number; arena = arena; call = call }) }
    {
        let request = Request {
            sender: sender.number,
            arena,
            call,
        };
        put(
            rt,
            &self.queues[arena as usize],
            &mut sender.tokens[arena as usize],
            request,
        );
    }

    // The owner holds a request: the one that it held, or else the front of its queue, for which the call waits.
    fn hold<R: Wait>(&self, rt: &R, owner: &mut Owner) -> Request
        requires owner { IsOwnerOf self.now owner.old }
        ensures holds { owner.new ≡ after_holding owner.old result }
        ensures held { IfSome owner.old.held (λ r. result ≡ r) }
    {
        if let Some(request) = owner.till.held {
            return request;
        }
        let arena = owner.pass.number();
        let request = take(rt, &self.queues[arena as usize], &mut owner.till.token);
        owner.till.held = Some(request);
        request
    }

    /// Serves the request that is held, or else the front of the owner's queue, for which it waits: the request's call is made
    /// by the owner's pass, in a turn at the arena's lock, as `SharedPool` makes it, and the owner's list gains the request at
    /// the end. An owner that has skipped serves no more. On want of memory the request is held: the list stays, the arena has
    /// no event and the journal no entry.
    pub fn serve_one<R: Wait>(
        &self,
        rt: &R,
        _alloc: Global,
        owner: &mut Owner,
    ) -> Result<Served, OutOfMemory>
        requires owner { IsOwnerOf self.now owner.old }
        requires not_skipped { owner.old.skipped ≡ false }
        requires turn { 0 < (part_at owner.old.pass owner.old.pass.number).turns }
        ensures owner { IsOwnerOf self.now owner.new }
        ensures served { HasServed owner.old owner.new result }
    {
        let request = self.hold(rt, owner);
        let arena = owner.pass.number();
        let receipt = self.pool.call(rt, &mut owner.pass, arena, request.call)?;
        owner.till.held = None;
        Ok(Served { request, receipt })
    }

    /// Gives out the request that is held, or else the front of the owner's queue, for which it waits, and does not serve it.
    /// The owner's list gains it at the end, and the owner has skipped; its pass stays as it was. It takes no memory.
    pub fn skip_one<R: Wait>(&self, rt: &R, owner: &mut Owner) -> Request
        requires owner { IsOwnerOf self.now owner.old }
        ensures { HasSkipped owner.old owner.new result }
    {
        let request = self.hold(rt, owner);
        owner.till.held = None;
        owner.till.skipped = true;
        request
    }

    /// Ends the server, and gives each arena in order, with its journal and the requests that are left: the one that its owner
    /// held, and then those of its queue from the front. The senders and the owners are all those of the server, in any order.
    /// It takes all its memory and closes the pool before it empties a queue: on want of memory all comes back as it was.
    pub fn close<R: Wait>(
        self,
        rt: &R,
        alloc: Global,
        senders: Vec<Sender>,
        owners: Vec<Owner>,
    ) -> Result<Vec<ClosedDesk<P>>, (OutOfMemory, Server<P>, Vec<Sender>, Vec<Owner>)>
        requires senders { AllSendTo self.queues senders.items }
        requires all_senders { HasAll self.senders (numbers senders.items) }
        requires owners { AllOwnersOf self owners.items }
        requires all_owners { HasAll (length self.queues) (owner_numbers owners.items) }
        ensures arenas { IfOk result (λ v. length v.items ≡ length self.queues) }
        ensures closed { IfOk result (λ v. AllDesks 0 senders.items owners.items (map (λ (l : Lock). l.opening) self.pool.locks) (each_of {B = Desk} v.items (λ d. record { journal = d.journal.items; left = d.left.items; arena = d.arena }))) }
        ensures handed_back { IfErr result (λ r. (r.1 ≡ self) × (r.2 ≡ senders) × (r.3.items ≡ owners.items)) }
    {
        let count = self.queues.len();
        let Ok(made) = closing_room(alloc, owners.len(), count, self.room as usize + 1) else {
            return Err((OutOfMemory, self, senders, owners));
        };
        let ClosingRoom {
            passes,
            tills,
            lefts,
            out,
        } = made;
        let (owners, passes, tills) = part_owners(owners, passes, tills);
        let Server {
            pool,
            queues,
            senders: enlisted,
            room,
        } = self;
        match pool.close(alloc, passes) {
            Ok(closed) => Ok(close_all(
                rt, queues, tills, closed, senders, lefts, out, enlisted, room,
            )),
            Err((error, pool, passes)) => {
                out.destroy_empty();
                let server = Server {
                    pool,
                    queues,
                    senders: enlisted,
                    room,
                };
                Err((error, server, senders, join_owners(owners, passes, tills)))
            }
        }
    }
}
