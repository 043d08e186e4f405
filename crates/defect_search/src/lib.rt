// The search for defects of an image, a call for each class.
//
// Each call answers the first defect of its class, or that the image has none, which its contract says by the parts of
// soundness (the two definitions of `image_defects`). It needs what the calls before it found, in the order of the format:
// `bad_directory`, `bad_entry`, `first_overlap`, `bad_slab`, `bad_line`, `stray_root`, then `shared_pair`, `stray_bit` and
// `loose_things`. `slabs_of`, `open_entry` and `claims_of` read the slabs, the open entry and the blocks of all roots in
// between. A claim is the block that a root has; the claims are sorted by address once (`by_address`). The definitions in
// `specs/` are of what is known part way: places of an index table, blocks of a word of a bitmap, marks of granules. The
// layer above uses the calls and `IsArena`, `AreClaims` and `AreSlabsInside`; recovery uses those that tell a loose
// thing, the marks of granules, and `slab_of`.
#![tactic(auto)]

mod claim;
mod claims;
mod directory;
mod header;
mod least;
mod lines;
mod log;
mod loose;
mod open_words;
mod overlap;
mod root;
mod shared;
mod sizes;
mod stray;

pub use claim::{Claim, by_address, has_block};
pub use claims::claims_of;
pub use directory::bad_directory;
pub use header::{bad_slab, slabs_of};
pub use lines::{bad_line, next_line, open_entry};
pub use log::bad_entry;
pub use loose::{
    counted, is_done, is_empty_slab, is_loose_large, is_morphing, is_too_many, loose_things,
    named_granules, named_starts,
};
pub use overlap::first_overlap;
pub use root::stray_root;
pub use shared::shared_pair;
pub use sizes::slab_of;
pub use stray::stray_bit;
