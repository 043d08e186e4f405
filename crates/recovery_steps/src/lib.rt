// Recovery of one arena, over its device and its log: from any sound image to the exact one with the same heap.
//
// Its five parts are done in this order, each where it finds something to do: the open write-ahead entry is settled and
// closed; a slab in Morphing comes to its class; a large extent that no root holds gets a Tomb; a slab in which no root's
// block lies gets a Tomb; a slab in Morphed without a live old block becomes Normal. `specs/Recovery.antt` has what each
// stores, and `specs/Parts.antt` what a crash within it leaves: a steady image with the same heap, in which each block has
// its words. So recovery may be stopped and begun again any number of times.
//
// What the roots name is read once, before the first event (`RootNames`), and with it all memory is taken.
#![tactic(auto)]

mod ending;
mod extents;
mod finishing;
mod names;
mod nearly;
mod open_entry;
mod recovery;
mod search;
mod steadying;

pub use names::RootNames;
pub use recovery::make_exact;
pub use search::all_words;
