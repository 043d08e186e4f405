// An arena's queue, and the steps that its passes make there.
ghost use Rattle.std.specs.Prelude.{◌≡◌, ℕ, ◌+◌, ◌≤◌, ◌<◌, List, [], ◌∷◌, ◌++◌, length, vec_len, IfOk};
ghost use Rattle.std.specs.Vec.{vec_capacity};
ghost use Rattle.crossbeam_queue.specs.Passes.{view, IsSamePass, IsPassOf, ruled_capacity};
ghost use Rattle.arena_server.specs.Parts.{first_part, after_enlisting, new_sender, after_put, after_take, after_ending, IsTaker, IsSending, SendsFor, KnowsWhole, HaveAllEnded};

use crate::part::Part;
use crate::request::Request;
use crate::rule::{Ending, Enlisting, InOrder, Putting, Taking};
use crossbeam_queue::{Pass, RuledArrayQueue};
use pmem_lines::OutOfMemory;
use std::alloc::Global;
use std::sync::Wait;
use std::thread;

/// The requests of one arena, in the order in which they were sent.
pub type Queue = RuledArrayQueue<Request, Part, InOrder>;

/// A pass of such a queue.
pub type Token = Pass<Request, Part>;

/// A queue with room for so many requests, and the token of the one that takes them out.
pub(crate) fn open(alloc: Global, room: usize) -> Result<(Queue, Token), OutOfMemory>
    requires { 0 < room }
    ensures { IfOk result (λ q. (ruled_capacity q.0 ≡ room) × IsPassOf q.0 q.1 × (view q.1 ≡ first_part)) }
{
    Ok(Queue::ruled(alloc, room)?)
}

/// Enlists another sender, and gives its token.
pub(crate) fn enlist(queue: &Queue, token: &mut Token) -> Token
    requires queue { IsPassOf queue.now token.old }
    requires takes { IsTaker (view token.old) }
    ensures queue { IsSamePass token.old token.new × IsPassOf queue.now result }
    ensures enlisted { view token.new ≡ after_enlisting (view token.old) }
    ensures new { view result ≡ new_sender (view token.old) }
{
    queue.another::<Enlisting>(token)
}

/// Puts a request in at the back. It waits while the queue is full.
pub(crate) fn put<R: Wait>(rt: &R, queue: &Queue, token: &mut Token, request: Request)
    requires queue { IsPassOf queue.now token.old }
    requires sends { SendsFor request.sender (view token.old) }
    ensures queue { IsSamePass token.old token.new }
    ensures put { view token.new ≡ after_put (view token.old) request }
{
    for _ in rt.forever() {
        if queue.push_as::<Putting, R>(rt, token, request).is_ok() {
            return;
        }
        thread::yield_now();
    }
    unreachable!()
}

/// Takes the request at the front out. It waits while the queue is empty.
pub(crate) fn take<R: Wait>(rt: &R, queue: &Queue, token: &mut Token) -> Request
    requires queue { IsPassOf queue.now token.old }
    requires takes { IsTaker (view token.old) }
    ensures queue { IsSamePass token.old token.new }
    ensures taken { view token.new ≡ after_take (view token.old) result }
{
    for _ in rt.forever() {
        if let Some(request) = queue.pop_as::<Taking, R>(rt, token) {
            return request;
        }
        thread::yield_now();
    }
    unreachable!()
}

/// Ends a sender: its token is taken in by the one that takes requests out.
pub(crate) fn end(queue: &Queue, token: &mut Token, sender: Token)
    requires queue { IsPassOf queue.now token.old × IsPassOf queue.now sender }
    requires takes { IsTaker (view token.old) }
    requires sends { IsSending (view sender) }
    ensures queue { IsSamePass token.old token.new }
    ensures ended { view token.new ≡ after_ending (view token.old) (view sender) }
{
    queue.absorb::<Ending>(token, sender);
}

/// Takes out all that is left, once each sender has ended, and puts it behind what `left` has.
pub(crate) fn empty<R: Wait>(
    rt: &R,
    queue: &Queue,
    mut token: Token,
    mut left: Vec<Request>,
) -> Vec<Request>
    requires queue { IsPassOf queue.now token }
    requires ended { HaveAllEnded (view token) }
    requires room { vec_len left + ruled_capacity queue.now ≤ vec_capacity left }
    ensures { (items : List Request) × (result.items ≡ left.items ++ items) × KnowsWhole (view token) items }
{
    // What the queue holds now is the most that comes out, since nobody puts in any more.
    let _most = queue.len_as::<Taking, R>(rt, &mut token);
    for _ in rt.forever() {
        match queue.pop_as::<Taking, R>(rt, &mut token) {
            Some(request) => left.push_reserved(request),
            None => return left,
        }
    }
    unreachable!()
}
