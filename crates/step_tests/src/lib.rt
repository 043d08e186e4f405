// Tests of the steps on the words of an image, which are durable once they end: rows that were worked by hand, with their
// events and the words that they leave.
//
// `steps` tests `durable_steps`, `log` `book_log`, and `log_room` by its `room`, `slabs` `slab_header`, and `slab_morph` by its
// `morphs`, and `small` `attach_steps`, and `attach_wal` by its `entries`. The crate has no code. It stands apart from those
// that it tests, since a crate with tests is proved twice.
#![tactic(auto)]

#[cfg(test)]
mod log;
#[cfg(test)]
mod slabs;
#[cfg(test)]
mod small;
#[cfg(test)]
mod steps;
#[cfg(test)]
mod values;
