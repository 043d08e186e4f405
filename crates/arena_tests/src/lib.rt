// Tests of the arena of `arena_core`, in one of 16 granules and in arenas of version 2: rows that were worked by hand.
//
// `arenas` makes the arenas and says what events the last call had. `moves` tests blocks that move from a root to another,
// `payload` the words of blocks, and `filling` arenas of version 2 that are filled until there is no space. The crate has no
// code. It stands apart from `arena_core`, since a crate with tests is proved twice; which blocks seats are given, and whole
// runs, are tested in `run_tests`.
#![tactic(auto)]

#[cfg(test)]
mod arenas;
#[cfg(test)]
mod filling;
#[cfg(test)]
mod moves;
#[cfg(test)]
mod payload;
#[cfg(test)]
mod values;
