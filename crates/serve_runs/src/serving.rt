// What one owner serves.
ghost use Rattle.std.specs.Prelude.{◌≡◌, ◌<◌, ◌^◌, length, IfOk};
ghost use Rattle.arena_server.specs.Servers.{IsOwnerOf};
ghost use Rattle.serve_runs.specs.Clerks.{IsReady, HasServedAll};

use crate::clerk::{Clerk, calls_for};
use arena_server::Server;
use pmem_lines::{OutOfMemory, Pmem};
use std::alloc::Global;
use std::sync::Wait;
use trace_text::TraceCall;

/// Serves as many requests as these calls have of the owner's arena. After want of memory it skips the rest, so that no sender
/// waits for ever.
pub(crate) fn serve_arena<R: Wait, P: Pmem>(
    rt: &R,
    alloc: Global,
    server: &Server<P>,
    clerk: &mut Clerk,
    calls: &[TraceCall],
) -> Result<(), OutOfMemory>
    requires ready { IsReady server.now calls.now clerk.old }
    requires few { length calls.now < 2 ^ 32 }
    ensures of { IsOwnerOf server.now clerk.new.owner }
    ensures number { clerk.new.owner.pass.number ≡ clerk.old.owner.pass.number }
    ensures served { IfOk result (λ _. HasServedAll calls.now clerk.new) }
{
    let count = calls_for(calls, clerk.owner.number());
    for _ in 0..count {
        clerk.serve_or_skip(rt, alloc, server);
    }
    if clerk.owner.has_skipped() {
        return Err(OutOfMemory);
    }
    Ok(())
}
