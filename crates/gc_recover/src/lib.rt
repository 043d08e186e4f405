// Recovery of an arena of the GC variant: its image is judged, and made exact with the same heap.
//
// `gc_recover` makes an arena over a device of any words, and `recover_device` does all of that but the arena: a device whose image is not sound comes back as it was, with its first defect, and so it does
// for want of memory, which is taken before anything else. Else one call begins on it, and its events are those of recovery.
// `specs/Recovered.antt` has what it is then: it is quiet, and its image is exact with the heap and the words of blocks that it had.
// A crash within the events leaves a sound image with the same heap, so recovery may be stopped and begun again. The log and what
// the roots name are handed on beside the device (`RecoveredDevice`).
#![tactic(auto)]

mod arena;
mod recovering;

pub use arena::gc_recover;
pub use recovering::{RecoveredDevice, make_device_exact, recover_device};
