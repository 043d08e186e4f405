// Tests of the search for defects of an image of the GC variant: images that were worked by hand, with what the search must say of
// each.
//
// An image is given by its words that are not 0, as those of `check_tests` are, from which the functions that make one come.
// `defects` has an arena with one slab and one block, and what is found where one thing of it is changed; `order` has images
// with two things wrong, and which of them is told; `sound` has images in which slabs have blocks of several classes, and
// `largest` the largest arena, as full as it may be. The crate
// has no code of its own beside `images`, which has the arena, here and for the tests of recovery. It stands apart from `gc_search`,
// since a crate with tests is proved twice.
#![tactic(auto)]

#[cfg(test)]
mod answers;
#[cfg(test)]
mod defects;
mod images;
#[cfg(test)]
mod largest;
#[cfg(test)]
mod order;
#[cfg(test)]
mod sound;
#[cfg(test)]
mod values;

pub use images::{ONE_BLOCK, small_word};
