// The first step of recovery: the open write-ahead entry is settled and closed, from any steady image.
//
// What a crash left between the events of a small block's coming and going, or of a block's move, is decided by what the
// root words say: the block's bit, or the live bit of its index entry, becomes what its root says, and of two roots that
// name one block the one that it moves from names it no more. `specs/Settled.antt` has what is left of the whole image, in
// the words of `heap_check`, and what a crash within leaves: the same heap, so that it may be stopped and begun again.
// `ClassBlocks.antt`, `OldBlocks.antt` and `Moves.antt` beside it have, for each kind of entry, the events, when it may be
// settled, and the tables afterwards; `Entries.antt` has them for an entry of any kind.
//
// The layer above finds the open entry and its line, and the slab that has the entry's block, which the log says. It uses
// `settle_entry`, or the function for one kind of entry, and looks into no word of a slab's header.
#![tactic(auto)]

mod class_block;
mod move_entry;
mod old_block;
mod root_word;
mod settling;

pub use class_block::settle_class_block;
pub use move_entry::settle_move;
pub use old_block::settle_old_block;
pub use settling::settle_entry;
