// A slab takes another class, and its transition ends, as the heap of an arena sees it.
//
// `is_ready` says whether a slab may: it is fit for the class by the blocks that live in it. `take_class` begins the transition, over
// an exact image (`specs/Classes.antt`). `finish_transition` brings a slab in Morphing to its class, and `end_transition` makes a
// slab normal again in which no old block lives (`specs/Transitions.antt`). Each is a step of `slab_morph` over the image of an
// arena: what changes is an equation on the tables, the heap and the words of its blocks stay, after a crash within it too, and
// of the last two what is loose comes to be no more.
//
// The arena begins a transition with a malloc and ends it with the last old block, and recovery finishes one and ends it.
#![tactic(auto)]

mod fitness;
mod taking;
mod transition;

pub use fitness::is_ready;
pub use taking::take_class;
pub use transition::{end_transition, finish_transition};
