// Tests of the pool of `shared_pool`: journals, receipts and lengths, on one thread and on two.
//
// `callers` has a pool's passes with a count of the calls that they may still make, `threads` two threads at one pool,
// `watched` a memory that stops at a store, and `rows` the tests. The crate has no code. It stands apart from
// `shared_pool`, since a crate with tests is proved twice. What asks for a length inside a turn is that of `lock_tests`.
#![tactic(auto)]

#[cfg(test)]
mod callers;
#[cfg(test)]
mod rows;
#[cfg(test)]
mod threads;
#[cfg(test)]
mod watched;
