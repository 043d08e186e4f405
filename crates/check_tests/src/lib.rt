// Tests of the checker of `image_check`: images that were worked by hand, with what the checker must say of each.
//
// An image is given by its words that are not 0. `small` has an arena with one slab and one block, and what is found
// where one thing of it is changed, defect by defect, or an entry is open, and `second_version` such an arena of version 2;
// `morphing` an arena with a slab that took another class, and one that is taking it; `hard` the largest arenas, as full as
// they may be. The crate has no code of its own beside `images`, which makes the images, and `outcomes`, which tells what became of
// one: here and for the tests of recovery of either variant. It stands apart from `image_check`, since a crate with tests is proved twice.
#![tactic(auto)]

#[cfg(test)]
mod answers;
#[cfg(test)]
mod hard;
mod images;
#[cfg(test)]
mod morphing;
mod outcomes;
#[cfg(test)]
mod second_version;
#[cfg(test)]
mod small;
#[cfg(test)]
mod values;

pub use images::{
    Base, IN_TRANSITION, ONE_BLOCK, Put, SECOND_VERSION, blank, image, image_under, put, put_entry,
    set,
};
pub use outcomes::{Became, recovered_to, was_refused};
