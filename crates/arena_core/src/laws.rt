// Laws of the calls on one word, and of what crashes leave.
ghost use Rattle.arena_core.specs.ByCall.{LawOfCrashes, LawOfOneWord, LawOfOneRead};

/// Whichever the call, a crash within it leaves a steady image, with the heap from before the call or from after it; and
/// the root that the call speaks of, of a move the one that the block comes to, holds its word.
#[tactic(auto, using(crate::proofs::ByCall::law_of_crashes))]
pub fn law_of_crashes()
    ensures { LawOfCrashes }
{}

/// A write of one word is a step of the machine, with the events of that call.
pub fn law_of_one_word()
    ensures { LawOfOneWord }
{}

/// A word of a view is what a step of the machine reads, and is the one that stands there.
pub fn law_of_one_read()
    ensures { LawOfOneRead }
{}
