// The arithmetic of size classes: 36 sizes of small blocks, how many blocks of each a slab holds, and how many granules
// of 16384 bytes a large block takes.
//
// Everything is over one table of sizes (`specs/Classes.antt`): `class_size`, `class_capacity` and `IsClassOf` are what
// the calls mean. The table rises by 16 up to 128 and then has four sizes to each doubling, up to 16384. So a class is
// found from the place of the highest bit, with no search. The layers above use the calls, those definitions, and the
// spacing that `size_of_class` promises.
#![tactic(auto)]

mod class;
mod granule;

pub use class::{capacity, class_of, has_at_least, size_of_class};
pub use granule::granules;
