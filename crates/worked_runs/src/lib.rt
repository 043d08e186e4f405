// Runs of the program that were worked by hand, as texts: traces, and what the program writes of each. Tests alone read them:
// `run_tests` that the program writes them, and `judge_tests` that its judge finds the reports right. The crate stands on
// none, since the judge takes nothing of the crates that define or serve the heap.
//
// A table has traces between lines `----`, each with runs over it. A run is a line with `$`, the code with which it ends and
// the program's words, and below it what it writes; where commas stand between words, each of these runs ends and writes so.
// In place of a code `may` says that the run is one of several that threads may come to. A line `$events 1 89` says that the
// calls of arena 1 have 89 events: a crash behind one more is refused. A line `$idle 1` says that they have none, and that a
// crash leaves the empty heap with no call under way. A table is said in short, as `expanded` reads it, and a trace that runs
// into its first `$` lacks its last line feed.
//
// `short` has short traces, `stacks` and `seats` traces that show which block is given, `classes` and `old_blocks` traces in
// which slabs take other classes, `payload` traces that write and read words, `moves` traces that move blocks, and
// `second_version` traces of pools of version 2. For how full a slab may be that takes another class, `thresholds` has
// numbers, of which `filled` makes a trace and its report. `images` makes images of pools of rows of bytes, for `run_tests` and
// `map_tests`.
#![tactic(auto)]

mod classes;
mod images;
mod moves;
mod old_blocks;
mod payload;
mod seats;
mod second_version;
mod short;
mod shorthand;
mod stacks;
mod thresholds;

pub use classes::{CLASSES_OF_ONE_SEAT, CLASSES_OF_SEVERAL_SEATS, OLD_BLOCK_GOES};
pub use images::{IN_TRANSITION, Run, image_of, lay, put};
pub use moves::MOVES;
pub use old_blocks::OLD_BLOCKS;
pub use payload::PAYLOAD;
pub use seats::SEATS;
pub use second_version::{LARGEST_ARENA, SECOND_VERSION};
pub use short::SHORT;
pub use shorthand::expanded;
pub use stacks::STACKS;
pub use thresholds::{FILLINGS, Filling, filled};
