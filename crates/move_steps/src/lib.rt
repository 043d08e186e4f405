// A block moves from a root to another, in one step that a crash does not divide.
//
// `move_root` is the sequence: the move entry is opened, the root that the block comes to gets its address, the one that
// it leaves gets 0, and the entry is closed. While the entry is open and both words are there, it says that the block is
// the new root's, so that at each moment one of the two holds it. `specs/Moves.antt` has when a block may move, what is
// left of the image, in the words of `heap_check`, and what a crash within leaves (`IsEitherMoved`); the events are those
// of `attach_steps`. It begins and ends quiet. The block may be a large one, one of its slab's class, or an old one.
//
// The layer above chooses the roots, finds the address, and keeps the line of the next entry.
#![tactic(auto)]

mod moving;

pub use moving::move_root;
