// Tests of migration: images of version 1 that were worked by hand, with what the images of version 2 hold that are made of
// them.
//
// An image is given by its words that are not 0; `check_tests` has the two that most rows change. `loose` has images in which
// something is loose or under way, and garbage where nothing is read; `sizes` the smallest and the largest arena, as empty and
// as full as they may be; `refused` what is not migrated, and why; `going_on` the calls of an arena that was migrated. What
// becomes of an image is found out by `images`: its counts, its blocks and its header line. The crate stands apart from
// `pool_migrate`, since a crate with tests is proved twice.
#![tactic(auto, using(recover::proofs::Recoveries::room_of_any))]

#[cfg(test)]
mod going_on;
#[cfg(test)]
mod images;
#[cfg(test)]
mod loose;
#[cfg(test)]
mod refused;
#[cfg(test)]
mod sizes;
#[cfg(test)]
mod values;
