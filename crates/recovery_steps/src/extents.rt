// Extents that no root's block lies in get a Tomb.
ghost use Rattle.std.specs.Prelude.{◌≤◌, ◌+◌, length};
ghost use Rattle.pmem_lines.specs.Pmem.{words_of};
ghost use Rattle.pool_layout.specs.Layout.{layout_of};
ghost use Rattle.pool_layout.specs.Header.{version_in};
ghost use Rattle.log_room.specs.Room.{most_events};
ghost use Rattle.heap_check.specs.Sound.{IsLooseLarge, IsEmptySlab};
ghost use Rattle.settle_steps.specs.Settled.{KeepsHeap};
ghost use Rattle.recovery_steps.specs.Parts.{PartMayBegin, IsShutWith, Rids, Does};
ghost use Rattle.recovery_steps.specs.Recovery.{DropsLarge, DropsSlab};

use crate::RootNames;
use crate::search::{Loose, all_words, find};
use book_log::BookLog;
use extent_steps::{drop_extent, drop_slab};
use pmem_lines::Pmem;

/// Drops the large extent that no root holds, if there is one, by at most the `entry_events` of the version; and then one more
/// entry of the log has so few events left that the log is rewritten once at most.
#[tactic(auto, using(log_steps::proofs::Entries::most_few))]
pub(crate) fn drop_loose<P: Pmem>(p: &mut P, log: &mut BookLog, names: &RootNames)
    requires { PartMayBegin (IsShutWith names.now) log.old (P.state p.old) (layout_of (version_in (words_of (P.state p.old)))).entry_events }
    ensures does { Does log.new KeepsHeap (Rids IsLooseLarge) (P.state p.old) (P.state p.new) DropsLarge (layout_of (version_in (words_of (P.state p.old)))).entry_events }
    ensures once { let row = layout_of (version_in (words_of (P.state p.old))) in length (P.state p.new).events + most_events (words_of (P.state p.new)) ≤ length (P.state p.old).events + (row.entry_events + row.roll_events) }
{
    if let Some(start) = find(all_words(p), log, names, Loose::Large) {
        drop_extent(p, log, start);
    }
}

/// Drops the slab in which no root's block lies, if there is one, by at most the events of an entry in this log.
pub(crate) fn drop_empty<P: Pmem>(p: &mut P, log: &mut BookLog, names: &RootNames)
    requires { PartMayBegin (IsShutWith names.now) log.old (P.state p.old) (most_events (words_of (P.state p.old))) }
    ensures { Does log.new KeepsHeap (Rids IsEmptySlab) (P.state p.old) (P.state p.new) DropsSlab (most_events (words_of (P.state p.old))) }
{
    if let Some(start) = find(all_words(p), log, names, Loose::Empty) {
        drop_slab(p, log, start);
    }
}
