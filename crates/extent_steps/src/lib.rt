// Extents come and go: a slab is opened on four vacant granules, and dropped where no root's block lies in it; a large
// extent that no root holds is dropped.
//
// `create_slab` makes the slab's header and then puts its extent into the log; `drop_slab` and `drop_extent` put a Tomb into
// the log. `specs/Slabs.antt` and `specs/Large.antt` have their events, when each may be done, and what it leaves, in the
// words of `heap_check`. What is dropped may stand in any steady image without an open entry: all else that is loose in it
// stays so, and nothing comes to be loose. Each step begins and ends quiet, and leaves the heap as it is; so does a crash
// within it, whose image is steady (`IsEitherHeap`).
//
// The layer above chooses the granules, and keeps its index of them.
#![tactic(auto, using(std::proofs::lemmas::Grind::common_steps))]

mod large;
mod slab;

pub use large::drop_extent;
pub use slab::{create_slab, drop_slab};
