// Tests of the dictionary, by what a caller sees: each call once with ample memory, what is opened of a put that was
// cut off, and which arenas are no dictionary.
//
// The crate has no code. It stands apart from `attach_dict`, since a crate with tests is proved twice.
#![tactic(auto, using(recover::proofs::Recoveries::room_of_any, arena_core::proofs::Readiness::first_room, arena_core::proofs::Readiness::first_most))]

#[cfg(test)]
mod calls;
#[cfg(test)]
mod cuts;
#[cfg(test)]
mod misfits;
#[cfg(test)]
mod values;
