// Tests of `gc_runs` and `gc_crashes`, by rows that were worked by hand: what is told of a trace without moves, and what a crash at
// an event of its calls leaves.
//
// The crate has no code. It stands apart from them, since a crate with tests is proved twice.
#![tactic(auto)]

#[cfg(test)]
mod crashes;
#[cfg(test)]
mod reports;
#[cfg(test)]
mod traces;
