// The arenas of the two variants, over simulated devices, as one kind of thing: what makes the same calls on either, to compare what
// becomes of them, is written once over `Variant`. It serves programs that test and time, and nothing of it is promised but that it
// is safe: what the calls do is promised by `arena_core`, `recover`, `gc_heap` and `gc_recover`.
//
// `log` has the LOG variant, of either version, and `gc` the GC variant.
#![tactic(auto)]

mod gc;
mod log;
mod variant;

pub use variant::{ROOM, Variant, device_of};
