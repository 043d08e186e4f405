// Tests of recovery: images that were worked by hand, with the words that each has once it is recovered, and how many
// events that took.
//
// An image is given by its words that are not 0. `small` has an arena with one slab and one block, `morphing` one with
// a large block and a slab that took another class, and images in which several things are loose: `check_tests` has both.
// `moving` has blocks that move in them, and crashes within that. `largest` has arenas of as many granules as there may
// be, and `images` what becomes of an image. The crate stands apart from `recover`, since a crate with tests is proved
// twice.
#![tactic(auto, using(recover::proofs::Recoveries::room_of_any, arena_core::proofs::Readiness::first_room, arena_core::proofs::Readiness::first_most))]

#[cfg(test)]
mod images;
#[cfg(test)]
mod largest;
#[cfg(test)]
mod morphing;
#[cfg(test)]
mod moving;
#[cfg(test)]
mod small;
#[cfg(test)]
mod values;
