// What the image of an arena must be: the heap that it has, when it is sound, when it is exact, and when it is steady,
// as every crash within a call leaves it.
//
// The definitions are over the tables of `image_tables` alone (`specs/Heap.antt`, `specs/Sound.antt`): they know no
// word. They stand here in the shape that all arenas share, with slabs and the open entry, also where an arena has
// neither. The crate has definitions and laws, and no call.
#![tactic(auto)]

mod laws;

pub use laws::{law_of_empty_heap, law_of_exact_state, law_of_formatted, law_of_steady};
