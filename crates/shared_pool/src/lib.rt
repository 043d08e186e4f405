// Arenas that threads share: each has a lock of its own, and whoever calls brings a pass.
//
// `SharedPool` puts arenas behind locks of `arena_lock` and makes the passes. A journal call is one turn at the arena's
// lock: it makes the one call of `arena_core` and puts its entry at the end of the arena's journal, of which the receipt
// tells the place. `try_` calls and `published` wait for nobody. `close` ends the pool and gives each arena with its
// journal. `Gate` is what those who make calls for others call around each, so that a test can hold them.
//
// A lock's value is at all times an arena behind a legal journal from its opening (`IsBehind` of `arena_journal`).
// `specs/Passes.antt` says what a pass knows and what each call makes of it (`Called`, `Refused`, `Declined`),
// `specs/Closed.antt` what is left at the end (`IsClosed`). The layer above knows these, and nothing of how seats are
// dealt out and gathered (`specs/Rows.antt`, `specs/Begun.antt`). In words, all of it stands in docs/threads.md.
#![tactic(auto)]

mod closing;
mod dealing;
mod gate;
mod job;
mod pass;
mod pool;
mod room;
mod starting;
mod value;

pub use closing::ClosedArena;
pub use gate::{Gate, OpenGate};
pub use job::{PoolJob, Receipt};
pub use pass::Pass;
pub use pool::{SharedPool, Started, TryRefusal};
pub use value::PoolArena;
