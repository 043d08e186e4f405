// One sender sends all calls to one arena from a thread of its own, and the arena's owner serves them on another.
ghost use Rattle.std.specs.Prelude.{◌≡◌, ◌≤◌, ◌<◌, ◌^◌, [], length, IfOk};
ghost use Rattle.std.specs.Thread.{IsSync};
ghost use Rattle.shared_pool.specs.Passes.{part_at};
ghost use Rattle.arena_server.specs.Senders.{sent_at};
ghost use Rattle.arena_server.specs.Owners.{asked, made};
ghost use Rattle.arena_server.specs.Servers.{IsSenderOf, IsOwnerOf};

use crate::one_arena::{Single, close_one, open_one};
use arena_core::Arena;
use arena_server::{ClosedDesk, Owner, Sender, Server};
use heap_model::Call;
use pmem_lines::{OutOfMemory, Pmem};
use std::alloc::Global;
use std::sync::Wait;
use std::thread;
use std::thread::Threads;

// Sends the calls to the first arena, in order.
fn send_all<R: Wait, P: Pmem>(
    rt: &R,
    server: &Server<P>,
    mut sender: Sender,
    calls: &[Call],
) -> Sender
    requires sender { IsSenderOf server.now sender × (0 < length server.now.queues) }
    requires none { sent_at sender 0 ≡ [] }
    ensures sender { IsSenderOf server.now result × (result.number ≡ sender.number) }
    ensures sent { asked (sent_at result 0) ≡ calls.now }
{
    for call in calls {
        server.send(rt, &mut sender, 0, *call);
    }
    sender
}

// Serves so many requests. At the first want of memory it skips that request and all behind it, so that no sender waits for
// ever.
fn serve_all<R: Wait, P: Pmem>(
    rt: &R,
    alloc: Global,
    server: &Server<P>,
    mut owner: Owner,
    count: usize,
) -> Owner
    requires owner { IsOwnerOf server.now owner }
    requires none { owner.list ≡ [] }
    requires turns { count < (part_at owner.pass owner.pass.number).turns }
    ensures owner { IsOwnerOf server.now result × (result.pass.number ≡ owner.pass.number) }
    ensures all { length result.list ≡ count }
{
    for _ in 0..count {
        if owner.has_skipped() || server.serve_one(rt, alloc, &mut owner).is_err() {
            server.skip_one(rt, &mut owner);
        }
    }
    owner
}

/// Sends the calls to an arena from one thread, and serves them on another. At the end the journal has just these calls, in
/// order, and nothing is left.
pub fn serve<R: Threads + Wait + Sync, P: Pmem + Drop + Send>(
    rt: &R,
    alloc: Global,
    arena: Arena<P>,
    calls: &[Call],
    room: u32,
) -> Result<ClosedDesk<P>, OutOfMemory>
    requires room { (1 ≤ room) × (room ≤ 65536) }
    requires few { length calls.now < 2 ^ 57 }
    ensures journal { IfOk result (λ d. made d.journal.items ≡ calls.now) }
    ensures left { IfOk result (λ d. d.left.items ≡ []) }
{
    let single = open_one(alloc, arena, room)?;
    let Single {
        server,
        sender,
        owner,
    } = single;
    let desk = &server;
    let count = calls.len();
    let (sender, owner) = thread::join(
        rt,
        move || -> Sender
            requires { IsSync R.row × IsSenderOf desk.now sender × (0 < length desk.now.queues) × (sent_at sender 0 ≡ []) }
            ensures { IsSenderOf desk.entry.now result × (result.number ≡ sender.number) × (asked (sent_at result 0) ≡ calls.entry.now) }
        { send_all(rt, desk, sender, calls) },
        move || -> Owner
            requires { IsSync R.row × IsOwnerOf desk.now owner × (owner.list ≡ []) × (count < (part_at owner.pass owner.pass.number).turns) }
            ensures { IsOwnerOf desk.entry.now result × (result.pass.number ≡ owner.pass.number) × (length result.list ≡ count) }
        { serve_all(rt, alloc, desk, owner, count) },
    );
    if owner.has_skipped() {
        return Err(OutOfMemory);
    }
    close_one(rt, alloc, server, sender, owner)
}
