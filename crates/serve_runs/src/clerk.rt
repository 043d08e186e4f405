// An owner that notes who sent what it serves.
ghost use Rattle.std.specs.Prelude.{◌≡◌, ◌≤◌, ◌<◌, ◌+◌, length, vec_len, IfOk};
ghost use Rattle.std.specs.Vec.{vec_capacity};
ghost use Rattle.shared_pool.specs.Rows.{each_of};
ghost use Rattle.trace_runs.specs.Calls.{calls_of};
ghost use Rattle.arena_lock.specs.Journal.{Each};
ghost use Rattle.arena_server.specs.Servers.{ServerState, IsOwnerOf};
ghost use Rattle.serve_runs.specs.Clerks.{HasNoted, turns_left, IsNewOwner, IsReady};

use arena_server::{Owner, Server};
use pmem_lines::{OutOfMemory, Pmem};
use std::alloc::Global;
use std::sync::Wait;
use trace_text::TraceCall;

/// An owner, and the numbers of the senders whose requests it served, in order.
#[derive(Drop)]
pub(crate) struct Clerk {
    pub owner: Owner,
    pub senders: Vec<u32>,
}

impl Clerk {
    /// Serves a request, or skips it where memory ran out, for this request or an earlier one. It notes who sent a request that
    /// it served.
    pub fn serve_or_skip<R: Wait, P: Pmem>(&mut self, rt: &R, alloc: Global, server: &Server<P>)
        requires of { IsOwnerOf server.now self.old.owner }
        requires turn { 0 < turns_left self.old.owner }
        requires room { vec_len self.old.senders < vec_capacity self.old.senders }
        requires noted { HasNoted self.old }
        ensures of { IsOwnerOf server.now self.new.owner }
        ensures number { self.new.owner.pass.number ≡ self.old.owner.pass.number }
        ensures one { length self.new.owner.list ≡ length self.old.owner.list + 1 }
        ensures turn { turns_left self.old.owner ≤ turns_left self.new.owner + 1 }
        ensures room { (vec_len self.new.senders ≤ vec_len self.old.senders + 1) × (vec_capacity self.new.senders ≡ vec_capacity self.old.senders) }
        ensures noted { HasNoted self.new }
    {
        if self.owner.has_skipped() {
            server.skip_one(rt, &mut self.owner);
            return;
        }
        match server.serve_one(rt, alloc, &mut self.owner) {
            Ok(served) => self.senders.push_reserved(served.request.sender),
            Err(_) => {
                server.skip_one(rt, &mut self.owner);
            }
        }
    }
}

/// How many of these calls are of an arena.
pub(crate) fn calls_for(calls: &[TraceCall], arena: u32) -> usize
    ensures { result ≡ length (calls_of arena calls.now) }
{
    let mut count = 0;
    for call in calls {
        if call.arena == arena {
            count += 1;
        }
    }
    count
}

/// A clerk for each owner, with room for the numbers of as many senders as these calls have of the owner's arena.
pub(crate) fn clerks_of(
    alloc: Global,
    mut owners: Vec<Owner>,
    calls: &[TraceCall],
) -> Result<Vec<Clerk>, OutOfMemory>
    ensures ready { IfOk result (λ clerks. (server : ServerState) → Each (IsNewOwner server) owners.items → Each (IsReady server calls.now) clerks.items) }
    ensures owners { IfOk result (λ clerks. each_of clerks.items (λ c. c.owner) ≡ owners.items) }
{
    let mut clerks = Vec::new(alloc);
    while !owners.is_empty() {
        let owner = owners.remove(0);
        let senders = Vec::with_capacity(alloc, calls_for(calls, owner.number()))?;
        clerks.push(Clerk { owner, senders })?;
    }
    Ok(clerks)
}
