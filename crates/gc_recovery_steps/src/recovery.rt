// The Tombs of recovery, one after another.
ghost use Rattle.std.specs.Prelude.{◌≡◌};
ghost use Rattle.pmem_lines.specs.Events.{IsQuiet};
ghost use Rattle.pmem_lines.specs.Pmem.{words_of, HasRoom};
ghost use Rattle.pmem_lines.specs.Words.{word_at};
ghost use Rattle.pool_layout.specs.Places.{fields_word};
ghost use Rattle.pool_layout.specs.Layout.{layout_of};
ghost use Rattle.pool_layout.specs.Header.{version_in};
ghost use Rattle.log_steps.specs.Log.{IsBookOf};
ghost use Rattle.gc_check.specs.Image.{IsGcSoundImage, IsGcExactImage};
ghost use Rattle.gc_search.specs.Names.{AreNamesOf};
ghost use Rattle.gc_recovery_steps.specs.Recovery.{IsPart, KeepsGcHeap, KeepsGcSlabs, GcRecovers};

use crate::search::Loose;
use crate::tombs::drop_loose;
use book_log::BookLog;
use gc_search::GcNames;
use pmem_lines::Pmem;

/// Makes a sound image exact, by at most the `recovery_events` of the version. `log` has read it, and `names` what its roots name.
/// A large extent that no root names gets a Tomb, and then a slab in which no root's block lies. The heap stays as it is, and every
/// block keeps its words; the arena has the numbers that it had, and each slab that is left its class. A crash within the events
/// leaves a sound image with the same heap, in which each block has its words; so it may be stopped and begun again.
pub fn make_exact<P: Pmem>(p: &mut P, log: &mut BookLog, names: &GcNames)
    requires image { IsGcSoundImage (words_of (P.state p.old)) }
    requires names { AreNamesOf (words_of (P.state p.old)) names.now }
    requires book { IsBookOf log.old (words_of (P.state p.old)) }
    requires quiet { IsQuiet (P.state p.old).events }
    requires room { HasRoom (P.state p.old) (layout_of (version_in (words_of (P.state p.old)))).recovery_events }
    ensures part { IsPart (P.state p.old) (P.state p.new) GcRecovers (layout_of (version_in (words_of (P.state p.old)))).recovery_events }
    ensures exact { IsGcExactImage (words_of (P.state p.new)) }
    ensures heap { KeepsGcHeap (words_of (P.state p.old)) (words_of (P.state p.new)) }
    ensures slabs { KeepsGcSlabs (words_of (P.state p.old)) (words_of (P.state p.new)) }
    ensures header { word_at (words_of (P.state p.new)) fields_word ≡ word_at (words_of (P.state p.old)) fields_word }
    ensures book { IsBookOf log.new (words_of (P.state p.new)) }
{
    drop_loose(p, log, names, Loose::Large);
    drop_loose(p, log, names, Loose::Empty);
}
