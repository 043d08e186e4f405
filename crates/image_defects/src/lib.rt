// What may be wrong with the words of an arena beyond its header line, class by class, and which defect comes first.
//
// Each class has two definitions in `specs/`: what a defect of it is, and what an image without one has, said by the parts
// of soundness. `IsFirstDefect` of `specs/Defects.antt` puts the classes into the order of the format: a defect is named
// only where no earlier class has one, and of its class the first. `specs/Summaries.antt` has the four numbers that are
// told of a sound image. The laws tie both to `heap_check`: no class has a defect exactly where the image is sound, a
// sound image has no first defect, no image has two, and there is one summary. The crate has definitions and laws and the
// types that they speak of; the search for defects stands above.
#![tactic(auto)]

mod found;
mod laws;
mod summary;

pub use found::{LogPlace, Loose, Pair, SlabWord};
pub use laws::{law_of_faultless, law_of_no_defect, law_of_one_defect, law_of_one_summary};
pub use summary::Summary;
