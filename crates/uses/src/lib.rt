// A caller of the library, proved: a persistent stack of records over one arena.
//
// A record is eight words, a block of 64 bytes. Root `i` names record `i`, the lowest first, and root 4095, the last one of an
// arena of version 1, is the stage: a block lies there while it is made ready, and comes to the stack by one move.
// `specs/Stack.antt` says when an image is the stack of some records (`IsStack`), in terms of the heap and the words of blocks
// alone, and `specs/Calls.antt` what a call of the stack did: the states that the memory went through, one for each call of the
// arena, and that a crash at any event of them leaves a steady image that is the old stack or the new one. `reopen` makes a
// stack of such an image.
//
// No rule of the heap is here: the crate calls `Arena` and `recover`, and each of its clauses follows from theirs.
#![tactic(auto)]

mod opening;
mod refusal;
mod reopening;
mod stack;
mod steps;

pub use refusal::{PopRefusal, PushRefusal, ReopenFault};
pub use reopening::reopen;
pub use stack::{Record, RecordStack, law_of_stacks};
