// The supply of small blocks: the slabs of an arena, and which of their blocks may be given out.
//
// `BlockSupply` puts the index of slabs and the stacks of reserved blocks together. It means a `Supply` of
// `specs/Supply.antt`: the set of slabs with their available blocks, and the stacks. A block that is available or in a stack
// is open. `take` gives a seat the open block that the placement of `heap_model` names, as far as no slab is made for it or
// takes another class, and `put_back` brings one back; each call says which blocks are open afterwards, and what became of
// the stacks. The layers above know these contracts, and not where an open block is kept.
#![tactic(auto)]

mod place;
mod supply;

pub use place::SlabAt;
pub use slab_index::SlabBlock;
pub use supply::BlockSupply;
