// What a dictionary looks up beside its blocks: the root of a key, and the greatest number of a root.
//
// `KeyMap` means a `KeyRoots` of `specs/KeyRoots.antt`: a finite map from keys to roots, in which a root has one key at most.
// Contracts say by `IsKeyed` alone which key has which root: `put` and `remove` change that of one key, and searches answer
// the root of a key, or the next key. `IsKeyMap`, which each change promises, says that the keys rise and that each root is
// one of the map's. `Numbers` means the list of the numbers of all roots, 0 for one that has none.
//
// The layers above know these contracts, and nothing of how the map is kept: keys and their roots in slots, a row of the
// slots by rising key, and hints at slots that count only where the slot has the key.
#![tactic(auto)]

mod hints;
mod key_map;
mod numbers;
mod rows;
mod slots;

pub use key_map::{KeyMap, Keyed};
pub use numbers::Numbers;
