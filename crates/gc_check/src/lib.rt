// What the image of an arena of the GC variant must be. Such an arena has no write-ahead entry and no persistent bitmap: which
// blocks live is said by its roots alone, each of which names its block and the class of it.
//
// The definitions are those of `heap_check` and `image_defects` for this variant: the heap that an image has, when it is sound
// and when exact (`specs/Heap.antt`, `Sound.antt`, `Image.antt`), the state of the heap machine that it has (`State.antt`), and
// which of its defects comes first (`Defects.antt`). The log, its extents and what is loose are the same things in both
// variants, and so are their definitions. A slab may have blocks of several classes, and any number of each. The crate has
// definitions and laws, and no call.
#![tactic(auto)]

mod laws;

pub use laws::{
    law_of_empty_gc_heap, law_of_exact_gc_state, law_of_gc_faultless, law_of_no_gc_defect,
    law_of_one_gc_defect,
};
