// An extent that no root's block lies in gets a Tomb.
ghost use Rattle.std.specs.Prelude.{◌≤◌, ◌+◌, length};
ghost use Rattle.pmem_lines.specs.Events.{IsQuiet};
ghost use Rattle.pmem_lines.specs.Pmem.{words_of, HasRoom};
ghost use Rattle.pool_layout.specs.Layout.{layout_of};
ghost use Rattle.pool_layout.specs.Header.{version_in};
ghost use Rattle.log_room.specs.Room.{most_events};
ghost use Rattle.log_steps.specs.Log.{IsBookOf};
ghost use Rattle.gc_check.specs.Image.{IsGcSoundImage};
ghost use Rattle.gc_search.specs.Names.{AreNamesOf};
ghost use Rattle.gc_recovery_steps.specs.Recovery.{IsPart, DropsLoose, IsRid};

use crate::search::{Loose, all_words, find};
use book_log::BookLog;
use gc_search::GcNames;
use gc_steps::drop_extent;
use pmem_lines::Pmem;

/// Drops the loose thing of a kind, if there is one, by the events of one entry of the log at most; the heap stays as it is, also
/// after a crash within it, and nothing comes to be loose. This one and another have the events of one rewrite of the log at most.
#[tactic(auto, using(log_steps::proofs::Entries::most_few))]
pub(crate) fn drop_loose<P: Pmem>(p: &mut P, log: &mut BookLog, names: &GcNames, kind: Loose)
    requires image { IsGcSoundImage (words_of (P.state p.old)) }
    requires names { AreNamesOf (words_of (P.state p.old)) names.now }
    requires book { IsBookOf log.old (words_of (P.state p.old)) }
    requires quiet { IsQuiet (P.state p.old).events }
    requires room { HasRoom (P.state p.old) (most_events (words_of (P.state p.old))) }
    ensures part { IsPart (P.state p.old) (P.state p.new) (DropsLoose kind) (most_events (words_of (P.state p.old))) }
    ensures once { let row = layout_of (version_in (words_of (P.state p.old))) in length (P.state p.new).events + most_events (words_of (P.state p.new)) ≤ length (P.state p.old).events + (row.entry_events + row.roll_events) }
    ensures rid { IsRid kind (words_of (P.state p.old)) (words_of (P.state p.new)) }
    ensures book { IsBookOf log.new (words_of (P.state p.new)) }
{
    if let Some(start) = find(all_words(p), log, names, kind) {
        drop_extent(p, log, start);
    }
}
