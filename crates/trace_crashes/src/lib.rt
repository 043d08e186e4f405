// What a crash leaves after a chosen event of the calls of a trace that are one arena's.
//
// `crash` makes the calls in the order of the lines on a simulated device, up to the one under way at the event, and gives the
// image that a seed picks, with the side of that call on which its heap stands. What it promises stands in
// `specs/Crash.antt` (`IsCrashOf`, `HasFewer`), over the run that the calls make (`IsRunOf` of `trace_runs`), which they settle.
// The rest of `specs/` is for the functions below it.
//
// `crash_of` does the same on an arena of either variant, which is a `SimArena`: it has words of its own when it is formatted,
// answers calls by its own steps (`specs/Steps.antt`), and has its own word on which images are whole (`Variant`).
//
// `image_of` gives such an image of a device alone, and `has_block` and `side_by` say on which side of a call its heap stands.
//
// The layer above has a parsed trace, recovers the image, and knows where bytes go.
#![tactic(auto)]

mod arenas;
mod crashing;
mod leaving;
mod seeking;

pub use arenas::SimArena;
pub use crashing::{CrashFault, crash, crash_of};
pub use leaving::{Crashed, has_block, image_of, root_of, side_by};
