// One call of an arena as an entry of its journal, and what a journal says of its arena.
//
// `answer` makes any call of an arena, and gives its entry: who asked what, and what was answered, in the machine's words
// (`malloc_reply` and its kin). What a journal says of the arena stands in `specs/Journals.antt`: `IsBehind`, that the entries
// lead from the arena as it was to the arena as it is, by steps of the machine. `proofs/Journals.antt` has the two steps of it,
// no entry and one entry more, for those that keep a journal: a pool of arenas on threads, and the runs of a trace on one.
#![tactic(auto)]

mod answering;
mod replies;

pub use answering::answer;
pub use replies::{free_reply, malloc_reply, move_reply, read_reply, write_reply};
