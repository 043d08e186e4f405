// A server of one arena, with its one sender and its owner.
//
// `one_arena` opens such a server and closes it, and `serving` runs the sender and the owner each on a thread of its own. Tests of
// the server and `call_times` stand on it.
#![tactic(auto)]

mod one_arena;
mod serving;

pub use one_arena::{Single, close_one, empty_arena, open_one};
pub use serving::serve;
