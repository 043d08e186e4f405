// The calls of a trace, carried out by a server of arenas: a sender for each thread of the trace, and an owner for each arena.
//
// `make_calls` starts a server of `arena_server` over the arenas, has each sender send the calls of the thread of its number, in
// order, and each owner serve as many requests as the trace has calls of its arena, and closes the server. An owner notes who
// sent each request that it served (`Clerk`), so that a journal can be told with the sender's number in each entry, where the
// owner's stood. What `make_calls` gives answers the trace (`AllAnswer` of `trace_runs`), by the owners' seats (`by_owner`).
// `serve` does it with the new arenas of the trace's pool, and writes the report of each (`IsServed` of `trace_runs`). The
// `Gate` of `shared_pool` is called around each send.
#![tactic(auto)]

mod clerk;
mod closing;
mod running;
mod sending;
mod serving;
mod telling;
mod tracing;

pub use tracing::{make_calls, serve};
