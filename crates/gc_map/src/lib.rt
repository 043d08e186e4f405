// A map of an arena of the GC variant: what each of its granules is, and how many there are of each kind.
//
// The map is of the types of `heap_map`, and is what its definitions say by the rules of this variant
// (`specs/GcRules.antt`, over the definitions of `specs/Slabs.antt`): which blocks live in a slab is read off the roots, and a
// slab in which a block of another class than its own lives is in transition. `gc_map_of` judges the words of an arena by
// `gc_search`, finds the slab of each root's block in one pass over the roots, counts the blocks of each slab in another, and goes
// over the granules once. No cell is loose exactly where the image is exact. An image that is not sound has its first defect.
// `gc_block_of` finds the block of one root.
#![tactic(auto)]

mod block;
mod classes;
mod mapping;
mod places;
mod reading;
mod scanning;
mod summary;
mod tallies;

pub use block::gc_block_of;
pub use mapping::gc_map_of;
