// A server of one arena, with its one sender and its owner.
ghost use Rattle.std.specs.Prelude.{◌≡◌, ℕ, ◌≤◌, ◌<◌, ◌^◌, false, [], ◌∷◌, length, IfOk};
ghost use Rattle.arena_lock.specs.declared.opening.Opening.{Opening};
ghost use Rattle.shared_pool.specs.Passes.{part_at};
ghost use Rattle.arena_server.specs.Closed.{IsDesk};
ghost use Rattle.arena_server.specs.Senders.{sent_at};
ghost use Rattle.arena_server.specs.Servers.{IsSenderOf, IsOwnerOf};

use arena_core::{Arena, ArenaRoom};
use arena_server::{ClosedDesk, Opened, Owner, Sender, Server};
use pmem_lines::{OutOfMemory, Pmem, SimPmem};
use std::alloc::Global;
use std::sync::Wait;

/// A server of one arena.
#[derive(Drop)]
pub struct Single<P: Pmem> {
    pub server: Server<P>,
    pub sender: Sender,
    pub owner: Owner,
}

/// An arena of 16 granules over new memory.
#[tactic(auto, using(arena_core::proofs::Readiness::first_room, arena_core::proofs::Readiness::first_most))]
pub fn empty_arena(alloc: Global) -> Result<Arena<SimPmem>, OutOfMemory> {
    let device = SimPmem::zeroed(alloc, 4096, 2048)?;
    let room = ArenaRoom::new(alloc, 16)?;
    Ok(Arena::format(room, device, 0, 1))
}

/// Starts a server of one arena with one sender, who has sent nothing, and a queue with this much room.
pub fn open_one<P: Pmem + Drop>(
    alloc: Global,
    arena: Arena<P>,
    room: u32,
) -> Result<Single<P>, OutOfMemory>
    requires room { (1 ≤ room) × (room ≤ 65536) }
    ensures server { IfOk result (λ s. (s.server.senders ≡ 1) × (length s.server.queues ≡ 1)) }
    ensures sender { IfOk result (λ s. IsSenderOf s.server s.sender × (sent_at s.sender 0 ≡ []) × (s.sender.number ≡ 0)) }
    ensures owner { IfOk result (λ s. IsOwnerOf s.server s.owner × (s.owner.list ≡ []) × (s.owner.skipped ≡ false) × ((part_at s.owner.pass s.owner.pass.number).turns ≡ 2 ^ 57) × (s.owner.pass.number ≡ 0)) }
{
    let mut arenas = Vec::with_capacity(alloc, 1)?;
    arenas.push_reserved(arena);
    let Opened {
        server,
        mut senders,
        mut owners,
    } = match Server::start(alloc, arenas, 1, room) {
        Ok(opened) => opened,
        Err((error, _arenas)) => return Err(error),
    };
    let sender = senders.remove(0);
    let owner = owners.remove(0);
    Ok(Single {
        server,
        sender,
        owner,
    })
}

/// Closes a server of one arena, with its one sender and its owner.
pub fn close_one<R: Wait, P: Pmem + Drop>(
    rt: &R,
    alloc: Global,
    server: Server<P>,
    sender: Sender,
    owner: Owner,
) -> Result<ClosedDesk<P>, OutOfMemory>
    requires server { (server.senders ≡ 1) × (length server.queues ≡ 1) }
    requires sender { IsSenderOf server sender × (sender.number ≡ 0) }
    requires owner { IsOwnerOf server owner × (owner.pass.number ≡ 0) }
    ensures { IfOk result (λ d. (opening : Opening) × IsDesk 0 (sender ∷ []) owner opening (record { journal = d.journal.items; left = d.left.items; arena = d.arena })) }
{
    let senders = vec![in alloc; sender]?;
    let owners = vec![in alloc; owner]?;
    match server.close(rt, alloc, senders, owners) {
        Ok(mut desks) => Ok(desks.remove(0)),
        Err((error, _server, _senders, _owners)) => Err(error),
    }
}
