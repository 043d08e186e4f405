// The calls of a trace, carried out by threads that share a pool: a worker for each thread of the trace.
//
// `run_trace` puts the arenas into a pool of `shared_pool`, has each thread's calls made by a worker with the pass of that
// number, and closes the pool. What it gives answers the trace (`AllAnswer` of `trace_runs`): each arena with a
// journal that leads to it from the arena that was handed in, and that has of each thread just the calls that the thread
// asks of the arena, in order, each once; how long each journal is, the pool is asked before it is closed. `replay` does it with
// the new arenas of the trace's pool, and writes an account of each: the report, which is journal and heap (`IsReplayed` of
// `trace_runs`), or, of calls of which each arena has one thread, what they came to (`IsSummed` of `specs/Summaries.antt`), by
// the published lengths. The `Gate` of `shared_pool` is called around each call of a worker.
#![tactic(auto)]

mod lengths;
mod replaying;
mod running;
mod telling;
mod working;

pub use replaying::{make_calls, replay};
pub use running::{Ended, run_trace};
pub use telling::Account;
