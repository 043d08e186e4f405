// The transition of a slab without a live old block comes to its end.
ghost use Rattle.heap_check.specs.Sound.{IsDoneSlab};
ghost use Rattle.settle_steps.specs.Settled.{KeepsHeap};
ghost use Rattle.recovery_steps.specs.Parts.{PartMayBegin, IsShutWith, Rids, Does};
ghost use Rattle.recovery_steps.specs.Recovery.{EndsDone};

use crate::RootNames;
use crate::search::{Loose, all_words, find};
use book_log::BookLog;
use pmem_lines::Pmem;
use transition_steps::end_transition;

/// Makes the slab in Morphed that has no live old block normal, if there is one, by 3 events.
pub(crate) fn end_done<P: Pmem>(p: &mut P, log: &BookLog, names: &RootNames)
    requires { PartMayBegin (IsShutWith names.now) log.now (P.state p.old) 3 }
    ensures { Does log.now KeepsHeap (Rids IsDoneSlab) (P.state p.old) (P.state p.new) EndsDone 3 }
{
    if let Some(start) = find(all_words(p), log, names, Loose::Done) {
        end_transition(p, start);
    }
}
