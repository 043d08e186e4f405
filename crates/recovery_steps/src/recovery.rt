// The parts of recovery, one after another.
ghost use Rattle.std.specs.Prelude.{◌-◌};
ghost use Rattle.pmem_lines.specs.Events.{IsQuiet};
ghost use Rattle.pmem_lines.specs.Pmem.{words_of, HasRoom};
ghost use Rattle.pool_layout.specs.Layout.{layout_of};
ghost use Rattle.pool_layout.specs.Header.{version_in};
ghost use Rattle.heap_check.specs.Image.{IsExactImage, IsSoundImage, IsSteadyImage};
ghost use Rattle.log_steps.specs.Log.{IsBookOf};
ghost use Rattle.settle_steps.specs.Settled.{KeepsHeap};
ghost use Rattle.transition_steps.specs.Transitions.{LeavesHeap};
ghost use Rattle.recovery_steps.specs.Names.{AreNames};
ghost use Rattle.recovery_steps.specs.Parts.{PartMayBegin, IsPart, IsLeft};
ghost use Rattle.recovery_steps.specs.Recovery.{Recovers, RecoversSound};

use crate::RootNames;
use crate::ending::end_done;
use crate::extents::{drop_empty, drop_loose};
use crate::finishing::finish_morphing;
use crate::open_entry::settle_open;
use crate::steadying::make_steady;
use book_log::BookLog;
use pmem_lines::Pmem;

/// Makes a sound image exact, by at most the `recovery_events` of the version. `log` has read it, and `names` what its roots
/// name. The heap stays as it is, and every block keeps its words; each root holds what it held, and the arena has the
/// numbers that it had. From a steady image three events fewer do it, and a crash within them leaves a steady image with the
/// same heap, in which each block has its words; so it may be stopped and begun again.
pub fn make_exact<P: Pmem>(p: &mut P, log: &mut BookLog, names: &RootNames)
    requires image { IsSoundImage (words_of (P.state p.old)) }
    requires names { AreNames names.now (words_of (P.state p.old)) }
    requires book { IsBookOf log.old (words_of (P.state p.old)) }
    requires quiet { IsQuiet (P.state p.old).events }
    requires room { HasRoom (P.state p.old) (layout_of (version_in (words_of (P.state p.old)))).recovery_events }
    ensures part { IsPart LeavesHeap (P.state p.old) (P.state p.new) RecoversSound (layout_of (version_in (words_of (P.state p.old)))).recovery_events }
    ensures steady { IsSteadyImage (words_of (P.state p.old)) → IsPart KeepsHeap (P.state p.old) (P.state p.new) Recovers ((layout_of (version_in (words_of (P.state p.old)))).recovery_events - 3) }
    ensures exact { IsExactImage (words_of (P.state p.new)) }
    ensures heap { KeepsHeap (words_of (P.state p.old)) (words_of (P.state p.new)) }
    ensures left { IsLeft (words_of (P.state p.old)) (words_of (P.state p.new)) }
    ensures book { IsBookOf log.new (words_of (P.state p.new)) }
{
    make_steady(p, log, names);
    make_steady_exact(p, log, names);
}

// The same from a steady image.
fn make_steady_exact<P: Pmem>(p: &mut P, log: &mut BookLog, names: &RootNames)
    requires names { AreNames names.now (words_of (P.state p.old)) }
    requires begins { PartMayBegin IsSteadyImage log.old (P.state p.old) ((layout_of (version_in (words_of (P.state p.old)))).recovery_events - 3) }
    ensures part { IsPart KeepsHeap (P.state p.old) (P.state p.new) Recovers ((layout_of (version_in (words_of (P.state p.old)))).recovery_events - 3) }
    ensures exact { IsExactImage (words_of (P.state p.new)) }
    ensures heap { KeepsHeap (words_of (P.state p.old)) (words_of (P.state p.new)) }
    ensures left { IsLeft (words_of (P.state p.old)) (words_of (P.state p.new)) }
    ensures book { IsBookOf log.new (words_of (P.state p.new)) }
{
    settle_open(p, log);
    finish_morphing(p, log, names);
    drop_loose(p, log, names);
    drop_empty(p, log, names);
    end_done(p, log, names);
}
