// The step by which a large extent goes.
ghost use Rattle.std.specs.Prelude.{◌≤◌, ◌+◌, length};
ghost use Rattle.pmem_lines.specs.Events.{IsQuiet};
ghost use Rattle.pmem_lines.specs.Steps.{IsQuietStep};
ghost use Rattle.pmem_lines.specs.Pmem.{words_of, HasRoom};
ghost use Rattle.pool_layout.specs.Layout.{layout_of};
ghost use Rattle.pool_layout.specs.Header.{version_in};
ghost use Rattle.book_log.specs.declared.entry.LogEntry.TheVariants.{Tomb};
ghost use Rattle.log_steps.specs.Events.{log_events};
ghost use Rattle.log_room.specs.Room.{most_events};
ghost use Rattle.log_steps.specs.Log.{IsBookOf};
ghost use Rattle.heap_check.specs.State.{IsEitherHeap};
ghost use Rattle.extent_steps.specs.Large.{IsLooseExtent, IsExtentGone};

use book_log::{BookLog, LogEntry};
use log_steps::log_entry;
use pmem_lines::Pmem;

/// Drops the large extent that begins at `start`, which no root holds: puts a Tomb for it into the log, behind the events
/// that make room for it there, at most the `entry_events` of the version. No entry is open. Its granules are vacant then.
/// The heap stays as it is, also after a crash within it, every block keeps its words, and nothing comes to be loose.
#[tactic(auto, using(log_steps::proofs::Disjoint::disjoint_of, crate::proofs::Dropping::loose_lies, crate::proofs::Dropping::extent_gone))]
pub fn drop_extent<P: Pmem>(p: &mut P, log: &mut BookLog, start: u32)
    requires loose { IsLooseExtent (words_of (P.state p.old)) start }
    requires book { IsBookOf log.old (words_of (P.state p.old)) }
    requires quiet { IsQuiet (P.state p.old).events }
    requires room { HasRoom (P.state p.old) (most_events (words_of (P.state p.old))) }
    ensures step { IsQuietStep (P.state p.old) (P.state p.new) (log_events (words_of (P.state p.old)) (Tomb start)) (IsEitherHeap (words_of (P.state p.old)) (words_of (P.state p.new))) }
    ensures most { length (P.state p.new).events ≤ length (P.state p.old).events + most_events (words_of (P.state p.old)) }
    ensures few { length (P.state p.new).events ≤ length (P.state p.old).events + (layout_of (version_in (words_of (P.state p.old)))).entry_events }
    ensures once { let row = layout_of (version_in (words_of (P.state p.old))) in length (P.state p.new).events + most_events (words_of (P.state p.new)) ≤ length (P.state p.old).events + (row.entry_events + row.roll_events) }
    ensures gone { IsExtentGone (words_of (P.state p.old)) start (words_of (P.state p.new)) }
    ensures book { IsBookOf log.new (words_of (P.state p.new)) }
{
    log_entry(log, p, LogEntry::Tomb { start });
}
