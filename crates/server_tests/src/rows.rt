// Requests that are served, skipped and left, on one thread and on two.
ghost use Rattle.std.specs.Prelude.{◌≡◌, ◌<◌, false, length};
ghost use Rattle.shared_pool.specs.Passes.{part_at};
ghost use Rattle.arena_server.specs.Servers.{IsSenderOf, IsOwnerOf};

use crate::values::same;
use arena_server::{ClosedDesk, Owner, Request, Sender, Served, Server};
use heap_model::{Call, Reply};
use pmem_lines::{OutOfMemory, SimPmem};
use single_server::{Single, close_one, empty_arena, open_one, serve};
use std::alloc::Global;
use std::process::Abort;
use std::sync::Wait;

const MALLOC: Call = Call::Malloc { root: 5, size: 100 };

const FREE: Call = Call::Free { root: 5 };

const READ: Call = Call::Read { root: 5, index: 0 };

// The reply of the first block of 112 bytes of an empty arena.
const PLACED: Reply = Reply::Placed {
    at: 67584,
    size: 112,
};

fn of_sender_0(call: Call) -> Request {
    Request {
        sender: 0,
        arena: 0,
        call,
    }
}

// With room for one request, on one thread: the first is served, the second skipped, and the third is left.
#[test]
fn served_skipped_and_left(rt: HostRuntime) -> Result<(), OutOfMemory> {
    let alloc = rt.alloc();
    let Single {
        server,
        mut sender,
        mut owner,
    } = open_one(alloc, empty_arena(alloc)?, 1)?;
    assert!(&rt; !owner.has_skipped());
    let asked = ask_three(&rt, alloc, &server, &mut sender, &mut owner);
    let skipped = owner.has_skipped();
    let desk = close_one(&rt, alloc, server, sender, owner)?;
    let tested = is_left(&rt, &desk, asked);
    drop(desk);
    assert!(&rt; skipped);
    tested
}

// The first call is the journal's one entry, and the last one is what the queue had.
fn is_left<R: Abort>(
    rt: &R,
    desk: &ClosedDesk<SimPmem>,
    asked: Result<(Served, Request), OutOfMemory>,
) -> Result<(), OutOfMemory> {
    let (served, given_out) = asked?;
    same(rt, &served.request, &of_sender_0(MALLOC));
    same(rt, &served.receipt.place, &0);
    same(rt, &served.receipt.entry.reply, &PLACED);
    same(rt, &given_out, &of_sender_0(FREE));
    let entries = [served.receipt.entry];
    same(rt, &desk.journal.as_slice(), &entries.as_slice());
    same(rt, &desk.left.as_slice(), &[of_sender_0(READ)].as_slice());
    assert!(rt; desk.arena.block(5).is_some());
    Ok(())
}

fn ask_three<R: Wait>(
    rt: &R,
    alloc: Global,
    server: &Server<SimPmem>,
    sender: &mut Sender,
    owner: &mut Owner,
) -> Result<(Served, Request), OutOfMemory>
    requires arena { 0 < length server.now.queues }
    requires sender { IsSenderOf server.now sender.old }
    requires owner { IsOwnerOf server.now owner.old × (owner.old.skipped ≡ false) }
    requires turn { 0 < (part_at owner.old.pass owner.old.pass.number).turns }
    ensures sender { IsSenderOf server.now sender.new × (sender.new.number ≡ sender.old.number) }
    ensures owner { IsOwnerOf server.now owner.new × (owner.new.pass.number ≡ owner.old.pass.number) }
{
    server.send(rt, sender, 0, MALLOC);
    let served = server.serve_one(rt, alloc, owner)?;
    server.send(rt, sender, 0, FREE);
    let given_out = server.skip_one(rt, owner);
    server.send(rt, sender, 0, READ);
    Ok((served, given_out))
}

// A sender and an owner on two threads, with room for one request.
#[test]
fn two_threads_at_a_narrow_queue(rt: HostRuntime) -> Result<(), OutOfMemory> {
    let alloc = rt.alloc();
    let write = Call::Write {
        root: 5,
        index: 0,
        value: 77,
    };
    let calls = [MALLOC, write, READ, FREE, MALLOC];
    let desk = serve(&rt, alloc, empty_arena(alloc)?, &calls, 1)?;
    has_five_entries(&rt, &desk);
    drop(desk);
    Ok(())
}

// The first call got the block, and the third read what the second wrote.
fn has_five_entries<R: Abort>(rt: &R, desk: &ClosedDesk<SimPmem>) {
    same(rt, &desk.journal.len(), &5);
    assert!(rt; desk.left.is_empty());
    for (i, entry) in desk.journal.iter().enumerate() {
        same(rt, &entry.seat, &0);
        if i == 0 {
            same(rt, &entry.reply, &PLACED);
        }
        if i == 2 {
            same(rt, &entry.reply, &Reply::Value { word: 77 });
        }
    }
}
