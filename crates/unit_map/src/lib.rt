// Which bytes of an arena lie in small blocks, by units of 16 bytes: a small block begins and ends with a unit, whatever its
// class, and a granule has 1024 units.
//
// `UnitMap` means `Units` of `specs/Units.antt`: a mark for each unit of an arena, of which `is_used` says whether it is set.
// The units of a block are marked when it is given out and cleared when it comes back. Of the blocks of any class in a slab it
// finds the lowest of which no unit is used, and those of which one is, whatever the sizes of the live blocks there. It takes
// memory once, when it is made, and no call looks beyond the range or the slab that it is asked for.
//
// The map knows no heap. `AreUnitsOf` of `specs/Blocks.antt` says that it is that of a state of the machine, and the laws what
// becomes of it when a block comes or goes, and that a block of a slab is unused exactly where its units are clear. The layers
// above know these contracts and laws, and nothing of how the marks are kept: as bits of words.
#![tactic(auto)]

mod block_row;
mod laws;
mod map;
mod words;

pub use laws::{law_of_freed_units, law_of_kept_units, law_of_placed_units, law_of_unused_blocks};
pub use map::UnitMap;
