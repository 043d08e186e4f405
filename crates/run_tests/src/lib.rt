// Tests of whole runs, over memory: each row has words and a trace or the bytes of an image, and how the run ends and
// what it writes, worked by hand.
//
// The crate has no code. It stands apart from `nvheap`, since a crate with tests is proved twice. `runs` has how they all
// run, and `crashes` what they write of crashes. Of four kinds are the tests: `traces` of runs over traces and of generated work,
// `images` of `check` and `recover` over images, `scripts` of runs over scripts of a dictionary, and `outside` of the program's
// ends: sources, sinks, shelves, and threads at the gate.
#![tactic(auto)]

#[cfg(test)]
mod crashes;
#[cfg(test)]
mod images;
#[cfg(test)]
mod outside;
#[cfg(test)]
mod runs;
#[cfg(test)]
mod scripts;
#[cfg(test)]
mod traces;
#[cfg(test)]
mod values;
