// What the program for operators does between its words and its exit code: it reads the image of a pool, and shows what each
// granule of its arenas is, tells that in numbers for scripts, writes the words of the block of a root, or the image with each
// arena recovered; or it reads a trace, and writes the image that a power cut leaves of its pool.
//
// `operate` does all of it, over a source of bytes and a sink for bytes, which are those of `program_io`, as are its answers. Its
// contract is what the program promises: `specs/Ends.antt` says how a run ends by what a command means, and the table of
// `specs/Command.antt` has the meaning of each. The program's `main` makes the real source and sink, and calls `operate`. No
// rule of the heap stands here. How images of pools of either variant are read is a `Variant`: by the rules of a variant
// (`specs/Rules.antt`) its arenas are drawn by `heap_map` or `gc_map`, and recovered by `recover` or `gc_recover`; maps are written
// by `map_text` and `map_svg`. The calls of a trace are made by `trace_runs`, and cut off by `trace_crashes`.
#![tactic(auto)]

mod answer;
mod cause;
mod command;
mod cutting;
mod dumping;
mod operating;
mod repairing;
mod telling;
mod variant;

pub use cause::Cause;
pub use command::Command;
pub use operating::operate;
