// Tests of the layers' public calls: rows that were worked by hand, and calls that take memory, each with ample memory,
// since no clause can rule out a body that always gives up.
//
// The crate has no code. Its tests stand apart from the crates that they call, since a crate with tests is proved twice.
// `memory` tests `pmem_lines`, `numbers` the crates of classes, bits and free extents, `keys` and `greatest` that of what a
// dictionary looks up, and `texts` those that read and write bytes and text. Steps on the words of an image are tested in
// `step_tests`, what gives small blocks in `supply_tests`, the arena in `arena_tests`, and whole runs in `run_tests`.
#![tactic(auto)]

#[cfg(test)]
mod greatest;
#[cfg(test)]
mod keys;
#[cfg(test)]
mod memory;
#[cfg(test)]
mod numbers;
#[cfg(test)]
mod texts;
#[cfg(test)]
mod values;
