// Tests of the lock of `arena_lock`, over a value that needs no arena.
//
// `Tally` keeps a journal of requests that are all refused, so that it is legal from a memory without words. `jobs` has what
// is done to it in a turn, and `threads` a lock with two seats, and two threads that take turns at one, of which a contract
// says what each made; `turns` has the tests. The crate stands apart from the one that it tests, since a crate with tests is proved twice; the
// pool is tested in `pool_tests`.
#![tactic(auto)]

mod jobs;
mod tally;
mod threads;
#[cfg(test)]
mod turns;

pub use jobs::{Ask, Look, LookBeside, TryBeside};
pub use tally::Tally;
pub use threads::{ask_all, ask_on_two_threads, lock_of_two, lock_over};
