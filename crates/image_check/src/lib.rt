// The exact checker of an image: whether the words of an arena are sound, and their first defect where they are not.
//
// `check_arena` looks for the defects of `image_defects` class by class, in the order of the format, and stops at the first
// that it finds. So a defect is answered only where it stands and no earlier class has one (`IsFirstDefect`), and Ok only
// where the image is sound (`IsSoundImage` of `heap_check`); both yield to want of memory alone. Each stage is a call of
// `defect_search`, which needs what the stages before it found, and the stages here hand that on. A summary that counts
// nothing loose is that of an exact image, by a law. The work goes with the words of the log, the granules, the roots and
// the bitmaps: the blocks of roots are sorted once by address.
#![tactic(auto)]

mod blocks;
mod checking;
mod fault;
mod laws;
mod stages;
mod summing;

pub use checking::check_arena;
pub use fault::CheckFault;
pub use laws::law_of_exact_summary;
