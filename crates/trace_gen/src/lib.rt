// Generated work: calls that a generator draws, and what the calls of an arena came to.
//
// The calls are a function of their number and a seed (`generated` of `specs/Draws.antt`): each is read off one drawn word,
// and calls go round the arenas of a pool, on the thread of the arena's number. `generate` makes them. What the calls of an
// arena came to is a function of its journal and of the blocks at the end (`work_of` of `specs/Works.antt`), and
// `put_summary` writes its line.
#![tactic(auto)]

mod drawing;
mod summary;

pub use drawing::{generate, generated_pool};
pub use summary::put_summary;
