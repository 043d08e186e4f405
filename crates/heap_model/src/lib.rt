// The machine that an allocator must be, seen from its users: blocks, slabs, calls, replies and journals; and its placement:
// which block is given where several may be. It knows no bitmap, log or list of free space, and no persistent memory.
//
// The crate has types, definitions and laws, and no call of the allocator: the layers above state their contracts in its
// words. `specs/Machine.antt` has the state, `specs/Choice.antt` where a malloc's block may lie, `specs/Step.antt` the
// steps, `specs/Placement.antt` the stacks of reserved blocks, `specs/Journal.antt` the legal journals, and
// `specs/Runs.antt` what the best fit is.
#![tactic(auto)]

mod block;
mod call;
mod laws;

pub use block::{Block, Slab};
pub use call::{Call, Entry, Reply};
pub use laws::{law_of_one_journal, law_of_overlap, law_of_sound_stacks};
