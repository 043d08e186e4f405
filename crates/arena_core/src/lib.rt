// One arena over persistent memory, used by one caller at a time.
//
// `Arena` gives blocks to the roots of an arena: small ones in slabs of their size class, large ones of whole granules. Its
// contracts speak of what the words of its memory say, by the definitions of `heap_check`: the heap, the state of the
// machine in `heap_model`, and when an image is exact or steady. Each call is a step of the machine (`IsStepOf`), begins
// once and then has exactly the events of `specs/Events.antt`, and leaves an exact image; a crash at any of its events
// leaves a steady image with the heap from before the call or from after it (`IsEitherHeap`). A block moves from a root to
// another by a call of its own (`specs/Moving.antt`), under an entry that a crash may leave open (`IsEitherMoved`). The
// words of a block are written many at a time, under one fence (`specs/Payload.antt`): a crash leaves each of them old or
// new (`IsEitherWords`). A view lends them in place. What every call has in common with these stands in `specs/ByCall.antt`.
// `write_words` and `write_header` are such a write, and the header line of a new arena, for themselves: the arena of the GC
// variant has them too.
//
// A call plans, begins, and carries out: `specs/Plan.antt` has what a plan decides. `ArenaRoom` takes the memory that an
// arena needs, and no call of `Arena` takes any. The layer above knows these contracts, and nothing of the log's table
// and of the indexes of free granules and of slabs that an arena keeps beside the words (`specs/Arena.antt`).
#![tactic(auto, using(std::proofs::lemmas::Grind::common_steps))]

mod adopting;
mod answer;
mod arena;
mod carrying;
mod fitting;
mod formatting;
mod laws;
mod moving;
mod payload;
mod plan;
mod room;
mod volatile;

pub use answer::{BlockRefusal, FreeRefusal, Freed, MallocRefusal, MoveRefusal, Moved, Placed};
pub use arena::Arena;
pub use formatting::write_header;
pub use laws::{law_of_crashes, law_of_one_read, law_of_one_word};
pub use payload::write_words;
pub use room::ArenaRoom;
