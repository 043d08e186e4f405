// The header of a slab: its state word, its bitmap and its index table, and the steps that write them.
//
// A slab begins at a multiple of 16384 bytes, and its first 32 lines are its header. `specs/State.antt` has the state
// word and what it says, `specs/Index.antt` the words of the index table; both have an inverse pair, `state_of` and
// `state_word`, `index_of` and `index_word`. `specs/Steps.antt` has the events of the three steps and what they leave: in
// words, and as an equation on the tables of `image_tables`, so that a layer above need not look into words. The layers
// above use those definitions: `make_slab` begins and ends quiet and says what a crash within it leaves, while `put_bit`
// and `put_index` end without a fence, so that a layer above may put several words under one. `class_at`, `bit_at` and
// `set_bits` read the header of a slab that is there.
#![tactic(auto)]

mod index;
mod reading;
mod state;
mod steps;

pub use index::{IndexEntry, index_of, index_word};
pub use reading::{bit_at, class_at, set_bits};
pub use state::{SlabState, state_of, state_word};
pub use steps::{make_slab, put_bit, put_index};
