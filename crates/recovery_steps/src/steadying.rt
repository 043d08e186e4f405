// A sound image becomes steady.
ghost use Rattle.pmem_lines.specs.Pmem.{words_of};
ghost use Rattle.heap_check.specs.Image.{IsSoundImage};
ghost use Rattle.transition_steps.specs.Transitions.{LeavesHeap};
ghost use Rattle.recovery_steps.specs.Names.{AreNames};
ghost use Rattle.recovery_steps.specs.Parts.{PartMayBegin, IsSteadied, Does};
ghost use Rattle.recovery_steps.specs.Recovery.{EndsBesides};

use crate::RootNames;
use crate::nearly::done_besides;
use crate::search::all_words;
use book_log::BookLog;
use pmem_lines::Pmem;
use transition_steps::end_transition;

/// Makes a sound image steady: a slab that is done becomes normal, by 3 events, where another is nearly done. In a steady
/// image there is none.
pub(crate) fn make_steady<P: Pmem>(p: &mut P, log: &BookLog, names: &RootNames)
    requires names { AreNames names.now (words_of (P.state p.old)) }
    requires begins { PartMayBegin IsSoundImage log.now (P.state p.old) 3 }
    ensures { Does log.now LeavesHeap IsSteadied (P.state p.old) (P.state p.new) EndsBesides 3 }
{
    if let Some(start) = done_besides(all_words(p), log, names) {
        end_transition(p, start);
    }
}
