// What one sender sends.
ghost use Rattle.std.specs.Prelude.{◌≡◌, ◌<◌, ◌^◌, length};
ghost use Rattle.trace_runs.specs.Threads.{AllIn};
ghost use Rattle.arena_server.specs.Servers.{IsSenderOf};
ghost use Rattle.serve_runs.specs.Sent.{HasSentNothing, HasSentAll};

use arena_server::{Sender, Server};
use pmem_lines::Pmem;
use shared_pool::Gate;
use std::sync::Wait;
use trace_text::TraceCall;

/// Sends the calls of the thread of the sender's number, in order.
pub(crate) fn send_calls<R: Wait, P: Pmem, G: Gate>(
    rt: &R,
    server: &Server<P>,
    sender: &mut Sender,
    calls: &[TraceCall],
    gate: &G,
)
    requires sender { IsSenderOf server.now sender.old }
    requires none { HasSentNothing sender.old }
    requires arenas { AllIn (length server.now.queues) calls.now }
    requires few { length calls.now < 2 ^ 32 }
    ensures sender { IsSenderOf server.now sender.new }
    ensures number { sender.new.number ≡ sender.old.number }
    ensures sent { HasSentAll calls.now sender.new }
{
    let number = sender.number();
    let mut sent = 0;
    for k in 0..calls.len() {
        let call = calls[k];
        if call.thread == number {
            sent += 1;
            gate.before(rt, number, sent);
            server.send(rt, sender, call.arena, call.call);
            gate.after(rt, number, sent, None);
        }
    }
}
