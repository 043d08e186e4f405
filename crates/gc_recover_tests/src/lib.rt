// Tests of recovery of an arena of the GC variant, on images that were worked by hand.
//
// `tombs` has images in which a large extent, a slab or both are loose, with the words that each has once it is recovered, and how
// many events that took. `stops` has one whose log is full, and stops recovery at every event: what is left is recovered to an
// image with the same roots and the same words of the heap. `arenas` has arenas that go on behind recovery. The images are those of
// `gc_search_tests`. `variants` has images of arenas of either variant, which recovery of the other refuses. The crate stands apart
// from `gc_recover`, since a crate with tests is proved twice.
#![tactic(auto)]

#[cfg(test)]
mod arenas;
#[cfg(test)]
mod outcomes;
#[cfg(test)]
mod stops;
#[cfg(test)]
mod tombs;
#[cfg(test)]
mod variants;
