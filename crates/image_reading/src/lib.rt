// What the words of an arena say, read from a slice of words.
//
// Each reader means one table of `image_tables`: roots and what they hold, extents, and of a slab that lies among the words
// its state, its bits and its index table. `Slab` is a slab as it was read (`IsRead` of `specs/Slabs.antt`). The readers of
// `held` tell which blocks slabs hold, by address; they look at the four slabs that an address may lie in, each exactly, so
// they need not know that slabs are disjoint. The layer above uses the readers and these definitions.
#![tactic(auto)]

mod block;
mod held;
mod reading;
mod slab;

pub use block::{block_at, number_of};
pub use held::{has_old, is_held, is_large, is_standing, read_slab, slab_back};
pub use reading::{
    bit_at, bit_of, bitmap_word, granules_at, held_root, index_word, is_slab, large_at, live_at,
    number_at, root_word, roots_of, state_field, state_word, wal_word, word_at,
};
pub use slab::Slab;
