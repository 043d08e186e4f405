// Laws of images: over their tables, and of the state that an exact one has.
ghost use Rattle.heap_check.specs.Formatted.{LawOfFormatted};
ghost use Rattle.heap_check.specs.Laws.{LawOfEmptyHeap, LawOfExactState, LawOfSteady};

/// Tables with nothing in them are those of an exact image, and its heap is empty.
pub fn law_of_empty_heap()
    ensures { LawOfEmptyHeap }
{}

/// An exact image is steady.
pub fn law_of_steady()
    ensures { LawOfSteady }
{}

/// The image of an arena in which nothing was allocated yet is exact as a whole, and has no block and no slab.
pub fn law_of_formatted()
    ensures { LawOfFormatted }
{}

/// The blocks of an exact image never overlap. Each lies where its size says, in a slab or on granules of its own, and
/// slabs and large blocks keep clear of each other.
pub fn law_of_exact_state()
    ensures { LawOfExactState }
{}
