// Recovery of an arena: the image of its device is judged, made exact with the same heap, and an arena is made over it.
//
// `recover` takes any words: a device whose image is not sound comes back as it was, with its first defect, and so it does
// for want of memory. Else one call begins on it, and its events are those of recovery. `specs/Recovered.antt` has what it
// is then: its base is the words that it had, it is quiet, and its image is exact with the heap and the words of blocks that
// it had. A crash within the events leaves a steady image with the same heap where the one before was steady, so recovery
// may be stopped and begun again. All memory, that of the arena too, is taken before the call begins.
#![tactic(auto)]

mod fault;
mod preparing;
mod recovering;

pub use fault::RecoverFault;
pub use recovering::recover;
