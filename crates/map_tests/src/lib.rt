// Tests of what `nvpool` writes of images made by hand, and of those that a power cut leaves, under every word, with what each is to be
// worked by hand. Lengths and sums of pages and of dumps are those of `bench/maps.py`, which has nothing of the program.
//
// The crate has no code. It stands apart from `nvpool`, since a crate with tests is proved twice. `images` and `gc_images` have the
// images of the two variants, and `table` what is said of a row under each word. Rows of sound images are in `log_rows`, `gc_rows`
// and, cut off within a call, in `cut_rows`, over which `cuts` runs; those of images with a defect in `refusals`. `pictures` has those that the documents show, `ends`
// the other ways in which a run ends, and `runs` how a run over memory ends and what it writes.
#![tactic(auto)]

#[cfg(test)]
mod cut_rows;
#[cfg(test)]
mod cuts;
#[cfg(test)]
mod ends;
#[cfg(test)]
mod gc_images;
#[cfg(test)]
mod gc_rows;
#[cfg(test)]
mod images;
#[cfg(test)]
mod log_rows;
#[cfg(test)]
mod pictures;
#[cfg(test)]
mod refusals;
#[cfg(test)]
mod runs;
#[cfg(test)]
mod table;
