// A slab in Morphing comes to its class.
ghost use Rattle.settle_steps.specs.Settled.{KeepsHeap};
ghost use Rattle.recovery_steps.specs.Parts.{PartMayBegin, IsShutWith, LeavesNoneMorphing, Does};
ghost use Rattle.recovery_steps.specs.Recovery.{FinishesMorphing};

use crate::RootNames;
use crate::search::{Loose, all_words, find};
use book_log::BookLog;
use pmem_lines::Pmem;
use transition_steps::finish_transition;

/// Brings the slab in Morphing to its class, if there is one, by 76 events.
pub(crate) fn finish_morphing<P: Pmem>(p: &mut P, log: &BookLog, names: &RootNames)
    requires { PartMayBegin (IsShutWith names.now) log.now (P.state p.old) 76 }
    ensures { Does log.now KeepsHeap LeavesNoneMorphing (P.state p.old) (P.state p.new) FinishesMorphing 76 }
{
    if let Some(start) = find(all_words(p), log, names, Loose::Morphing) {
        finish_transition(p, start);
    }
}
