// Laws of the machine and its placement, which hold of every journal.
ghost use Rattle.heap_model.specs.Journal.{LawOfOverlap, LawOfNoStacks, LawOfSoundStacks, LawOfOneJournal};

/// Live blocks never overlap: from a state without overlaps every legal journal leads to states without overlaps.
pub fn law_of_overlap()
    ensures { LawOfOverlap }
{}

/// The stacks stay what the placement says they are: no address stands in two places, a stack has eight at most, and each is that
/// of a block of its class, in a slab of that class, which no live block overlaps.
pub fn law_of_sound_stacks()
    ensures none { LawOfNoStacks }
    ensures along { LawOfSoundStacks }
{}

/// The placement leaves nothing open: what is asked, mallocs, frees and moves, settles the journal.
pub fn law_of_one_journal()
    ensures { LawOfOneJournal }
{}
