// The indexes of a heap, by which a malloc finds its block and a free gives it back.
//
// `HeapIndexes` means the `Indexes` of `specs/Indexes.antt`: the free granules, the slabs with the blocks that may be given out
// and the stacks of reserved ones, how many blocks live in each slab and how many of them have another size than that of the
// slab's class, and which bytes lie in small blocks. `AreIndexesOf` says that they are those of a state of the heap machine.
// They know no memory, and no state: a call's contract speaks of every state that they are those of, and says that they are
// those of the state after a step of the machine with its placement (`specs/Steps.antt`).
//
// The blocks of a slab may have any number of classes, since what is unused is told by bytes. So a slab may take another class
// whatever sizes its blocks have that came before.
//
// The indexes of a state that is there already, as that of an image is, come about by counting its roots and then taking over its
// extents (`specs/Adopting.antt`).
//
// The layer above keeps the roots, and asks for a block's place before it says so in its memory. No call but `new` takes memory,
// and none looks at more than the words of a range or a slab, and at what its searches pass over.
#![tactic(auto)]

mod adopting;
mod answer;
mod covered;
mod fitting;
mod giving;
mod indexes;
mod placing;
mod range;

pub use adopting::{law_of_adopted_indexes, law_of_passed_granules, law_of_passed_roots};
pub use answer::{Given, Place};
pub use indexes::HeapIndexes;
