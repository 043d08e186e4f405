// Tests of the arena of `gc_heap`: rows that were worked by hand.
//
// `arenas` makes the arenas and compares what their calls answer and store. `rows` tests the answers and the events of calls, `placing`
// which blocks are given, and `log` how the log gets room. The crate has no code. It stands apart from `gc_heap`, since a crate with
// tests is proved twice; a test lends its arena to functions that answer whether all was right, since each way out of a function that
// owns one is long to prove.
#![tactic(auto)]

#[cfg(test)]
mod arenas;
#[cfg(test)]
mod log;
#[cfg(test)]
mod placing;
#[cfg(test)]
mod rows;
