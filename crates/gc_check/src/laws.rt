// Laws of images of the GC variant.
ghost use Rattle.gc_check.specs.Laws.{LawOfEmptyGcHeap, LawOfExactGcState, LawOfGcFaultless, LawOfNoGcDefect, LawOfOneGcDefect};

/// Tables with nothing in them are those of an exact image, and its heap is empty.
pub fn law_of_empty_gc_heap()
    ensures { LawOfEmptyGcHeap }
{}

/// The blocks of an exact image never overlap. Each lies where its size says, in a slab or on granules of its own, and slabs
/// and large blocks keep clear of each other.
pub fn law_of_exact_gc_state()
    ensures { LawOfExactGcState }
{}

/// An image has no defect of any class exactly where it is sound.
pub fn law_of_gc_faultless()
    ensures { LawOfGcFaultless }
{}

/// A sound image has no first defect.
pub fn law_of_no_gc_defect()
    ensures { LawOfNoGcDefect }
{}

/// An image has one first defect at most.
pub fn law_of_one_gc_defect()
    ensures { LawOfOneGcDefect }
{}
