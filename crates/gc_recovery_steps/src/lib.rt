// Recovery of an arena of the GC variant, from a sound image to the exact one with the same heap.
//
// In a sound image two things may be loose: a large extent that no root names, and a slab in which no root's block lies
// (`specs/Kinds.antt`). Each gets a Tomb, the large one first. So the events are those of two entries of the log at most, and a
// crash within them leaves a sound image with the same heap, in which each block has its words (`specs/Recovery.antt`): recovery
// may be stopped and begun again. No root's word changes, and what the roots name is read once, by `gc_search`. The layer above
// begins the call.
#![tactic(auto)]

mod recovery;
mod search;
mod tombs;

pub use recovery::make_exact;
pub use search::all_words;
