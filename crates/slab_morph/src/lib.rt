// A slab takes another class while blocks of its old class live in it.
//
// `fit` says whether a slab may: it is the machine's fitness of `heap_model`, over the blocks that the slab holds
// (`specs/Fitness.antt`). `morph` is the whole change, `finish_morph` its second half, by which a slab in Morphing comes to
// its class, and `finish_old` its end, once no old block lives. Their events are those of `slab_header`, in four steps
// that each end with a fence. `overlaps` is the range of the blocks of one class that overlap a block of another.
//
// All is said of a slab's header (`specs/SlabHeaders.antt`), read at its granule whether the log has a slab there or not.
// What each call leaves is an equation on the header, and on the tables of an arena where the slab is one of its own.
// What a crash leaves stands in `specs/Stages.antt`: what the slab holds is the same at each stage, and so is every word
// outside its header. The layers above use those definitions.
#![tactic(auto)]

mod bitmap;
mod entries;
mod fitness;
mod held;
mod old_blocks;
mod overlap;
mod state;
mod taking;
mod unused;

pub use fitness::fit;
pub use old_blocks::{covered_by, is_done, is_normal, old_class, old_place};
pub use overlap::overlaps;
pub use taking::{finish_morph, finish_old, morph};
pub use unused::{is_unused, used_blocks};
