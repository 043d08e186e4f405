// Tests of what gives small blocks: rows that were worked by hand.
//
// `blocks` tests the slabs of `slab_index` with their available blocks, `candidates` its normal slabs that may take another
// class, `stacks` the stacks of `thread_cache`, `supply` the calls of `block_supply`, and `units` the map of `unit_map`. The
// crate has no code. It stands apart from those that it tests, since a crate with tests is proved twice.
#![tactic(auto)]

#[cfg(test)]
mod blocks;
#[cfg(test)]
mod candidates;
#[cfg(test)]
mod stacks;
#[cfg(test)]
mod supply;
#[cfg(test)]
mod units;
#[cfg(test)]
mod values;
