// Whether the words of an arena of the GC variant are a sound image, and their first defect where they are not.
//
// `check_gc_arena` looks for the defects of `gc_check` class by class, in the order of the format. It takes all of its memory
// first (`GcSearch`), and the search takes none: so it answers a defect exactly where the image is not sound, and it is the first
// (`IsFirstGcDefect`). The header line is read by `gc_header_of` of `pool_layout`; length, directory, entries and extents are judged by
// the searches of `defect_search`, since the log is the same in both variants; the slabs, the roots and what is loose are judged here. Where the image is sound, what
// was read of it is handed on (`GcImage`): its log, and which granules its roots' blocks begin in. The work goes with the words of
// the log, the granules and the roots: the blocks of roots are sorted once by address, and no two are compared that do not lie
// next to each other there.
#![tactic(auto)]

mod checking;
mod claims;
mod fault;
mod log;
mod loose;
mod names;
mod root_word;
mod roots;
mod search;
mod shared;
mod slabs;

pub use checking::check_gc_arena;
pub use fault::GcFault;
pub use loose::{is_empty_slab, is_loose_large};
pub use names::GcNames;
pub use root_word::{address_of, class_field_of};
pub use search::{GcImage, GcSearch};
