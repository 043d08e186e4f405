// Laws of the units of a state of the machine.
ghost use Rattle.unit_map.specs.Blocks.{LawOfPlacedUnits, LawOfFreedUnits, LawOfKeptUnits, LawOfUnusedBlocks};

/// A small block came, and its units were marked: the map is that of the state after it.
pub fn law_of_placed_units()
    ensures { LawOfPlacedUnits }
{}

/// A small block went, and its units were cleared: the map is that of the state after it.
pub fn law_of_freed_units()
    ensures { LawOfFreedUnits }
{}

/// The live small blocks are the same, as where a large one comes or goes or a word is written: the map is that of the state
/// after it too.
pub fn law_of_kept_units()
    ensures { LawOfKeptUnits }
{}

/// A block of a slab overlaps no live block exactly where none of its units is used.
pub fn law_of_unused_blocks()
    ensures { LawOfUnusedBlocks }
{}
