// What a crash leaves after a chosen event of the calls of a trace that are one arena's, of the GC variant.
//
// `gc_crash` makes the calls in the order of the lines on a simulated device, up to the one under way at the event, and gives the
// image that a seed picks, with the side of that call on which its heap stands. What it promises stands in `specs/Crash.antt`
// (`IsGcCrashOf`, `HasFewerGc`), over the run that the calls make (`IsGcRunOf` of `gc_runs`): it is what `trace_crashes` says of the
// LOG variant, but that the image is sound. `trace_crashes` does it, over an arena of this variant as one of its `SimArena`.
//
// The layer above has a parsed trace, recovers the image, and knows where bytes go.
#![tactic(auto)]

mod arenas;
mod crashing;

pub use crashing::gc_crash;
