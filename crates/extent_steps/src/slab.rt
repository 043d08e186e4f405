// The steps by which a slab comes and goes.
ghost use Rattle.std.specs.Prelude.{◌≡◌, ◌<◌, ◌≤◌, ◌+◌, ◌*◌, ◌^◌, length};
ghost use Rattle.pmem_lines.specs.Events.{IsQuiet};
ghost use Rattle.pmem_lines.specs.Steps.{IsQuietStep};
ghost use Rattle.pmem_lines.specs.Pmem.{words_of, HasRoom};
ghost use Rattle.pool_layout.specs.Layout.{layout_of};
ghost use Rattle.pool_layout.specs.Header.{version_in};
ghost use Rattle.slab_header.specs.Steps.{make_events, KeepsOutside, IsMade};
ghost use Rattle.log_room.specs.Room.{most_events};
ghost use Rattle.log_steps.specs.Log.{IsBookOf};
ghost use Rattle.heap_check.specs.State.{IsEitherHeap};
ghost use Rattle.extent_steps.specs.Slabs.{open_events, drop_events, MayBeCreated, IsDroppable, IsSlabCreated, IsDropped};

use book_log::{BookLog, LogEntry};
use log_steps::log_entry;
use pmem_lines::Pmem;
use pool_layout::granule_at;
use slab_header::make_slab;

/// Makes a slab of a class, below 36, on the four granules from `start` on, which are vacant, and puts its extent into the
/// log, behind the events that make room for it there: at most the `slab_events` of the version. No block of it is given
/// out. The heap stays as it is, also after a crash within it, and every block keeps its words.
#[tactic(auto, using(std::proofs::lemmas::Grind::common_steps, pool_layout::proofs::Layouts::layout_rules))]
pub fn create_slab<P: Pmem>(p: &mut P, log: &mut BookLog, start: u32, class: u8)
    requires openable { MayBeCreated (words_of (P.state p.old)) start }
    requires class { class < 36 }
    requires book { IsBookOf log.old (words_of (P.state p.old)) }
    requires quiet { IsQuiet (P.state p.old).events }
    requires room { HasRoom (P.state p.old) (layout_of (version_in (words_of (P.state p.old)))).slab_events }
    ensures step { IsQuietStep (P.state p.old) (P.state p.new) (open_events (words_of (P.state p.old)) start class) (IsEitherHeap (words_of (P.state p.old)) (words_of (P.state p.new))) }
    ensures few { length (P.state p.new).events ≤ length (P.state p.old).events + (layout_of (version_in (words_of (P.state p.old)))).slab_events }
    ensures opened { IsSlabCreated (words_of (P.state p.old)) start class (words_of (P.state p.new)) }
    ensures book { IsBookOf log.new (words_of (P.state p.new)) }
{
    make_header(p, start, class);
    log_entry(log, p, LogEntry::Slab { start });
}

// Makes the header of a slab of a class at a granule, where no slab begins.
fn make_header<P: Pmem>(p: &mut P, start: u32, class: u8)
    requires inside { 2048 * start + 256 ≤ length (words_of (P.state p.old)) }
    requires start { start < 2 ^ 16 }
    requires class { class < 36 }
    requires quiet { IsQuiet (P.state p.old).events }
    requires room { HasRoom (P.state p.old) 75 }
    ensures step { IsQuietStep (P.state p.old) (P.state p.new) (make_events (16384 * start) class) (KeepsOutside (words_of (P.state p.old)) start) }
    ensures count { length (P.state p.new).events ≡ length (P.state p.old).events + 75 }
    ensures made { IsMade (words_of (P.state p.old)) (words_of (P.state p.new)) start class }
{
    make_slab(p, granule_at(start), class);
}

/// Drops the slab that begins at `start`, in which no root's block lies: puts a Tomb for its extent into the log, behind
/// the events that make room for it there, at most the `entry_events` of the version. No entry is open. Its granules are
/// vacant then. The heap stays as it is, also after a crash within it, every block keeps its words, and nothing else comes
/// to be loose.
#[tactic(auto, using(log_steps::proofs::Disjoint::disjoint_of, crate::proofs::Dropping::drop_lies))]
pub fn drop_slab<P: Pmem>(p: &mut P, log: &mut BookLog, start: u32)
    requires droppable { IsDroppable (words_of (P.state p.old)) start }
    requires book { IsBookOf log.old (words_of (P.state p.old)) }
    requires quiet { IsQuiet (P.state p.old).events }
    requires room { HasRoom (P.state p.old) (most_events (words_of (P.state p.old))) }
    ensures step { IsQuietStep (P.state p.old) (P.state p.new) (drop_events (words_of (P.state p.old)) start) (IsEitherHeap (words_of (P.state p.old)) (words_of (P.state p.new))) }
    ensures most { length (P.state p.new).events ≤ length (P.state p.old).events + most_events (words_of (P.state p.old)) }
    ensures few { length (P.state p.new).events ≤ length (P.state p.old).events + (layout_of (version_in (words_of (P.state p.old)))).entry_events }
    ensures once { let row = layout_of (version_in (words_of (P.state p.old))) in length (P.state p.new).events + most_events (words_of (P.state p.new)) ≤ length (P.state p.old).events + (row.entry_events + row.roll_events) }
    ensures dropped { IsDropped (words_of (P.state p.old)) start (words_of (P.state p.new)) }
    ensures book { IsBookOf log.new (words_of (P.state p.new)) }
{
    log_entry(log, p, LogEntry::Tomb { start });
}
