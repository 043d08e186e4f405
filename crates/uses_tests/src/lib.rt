// Tests of the stack of records: its calls, and a push that is stopped at every event.
//
// The crate has no code. It stands apart from `uses`, since a crate with tests is proved twice.
#![tactic(auto, using(recover::proofs::Recoveries::room_of_any, arena_core::proofs::Readiness::first_room, arena_core::proofs::Readiness::first_most))]

#[cfg(test)]
mod stacks;
#[cfg(test)]
mod values;
