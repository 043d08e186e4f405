// An arena of the GC variant, which keeps no write-ahead entry and no bitmap: which blocks live is said by the words of its roots
// alone, and so a small malloc or free is one word that is made durable.
//
// `GcArena` gives blocks to the roots of an arena as `Arena` of `arena_core` does, by the same calls, with the same conditions,
// answers and refusals, and at the same places: each call is a step of the heap machine with its placement (`IsGcStepOf`). It begins
// once and then has exactly the events of `specs/Events.antt`, and leaves an exact image; a crash at any of its events leaves a
// sound image with the heap from before the call or from after it (`IsEitherGcHeap` of `gc_check`). The words of a block are written
// many at a time, under one fence (`specs/Payload.antt`), and a view lends them in place.
//
// A call decides, changes the indexes (`heap_indexes`), begins, and then carries out at most three steps on the words (`gc_steps`).
// `GcRoom` takes the memory that an arena needs, and no call of `GcArena` takes any. The layer above knows these contracts, and
// nothing of the log and the indexes that an arena keeps beside the words (`specs/Arena.antt`).
#![tactic(auto)]

mod adopting;
mod arena;
mod blocks;
mod carrying;
mod payload;
mod planning;
mod room;

pub use arena::GcArena;
pub use room::GcRoom;
