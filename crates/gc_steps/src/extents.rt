// Extents come and go: a slab, or whole granules for a large block.
ghost use Rattle.std.specs.Prelude.{◌≡◌, ◌<◌, ◌≤◌, ◌+◌, length};
ghost use Rattle.pmem_lines.specs.Words.{put_word};
ghost use Rattle.pmem_lines.specs.Events.{IsQuiet};
ghost use Rattle.pmem_lines.specs.Steps.{IsQuietStep};
ghost use Rattle.pmem_lines.specs.Pmem.{words_of, HasRoom};
ghost use Rattle.pool_layout.specs.Layout.{layout_of};
ghost use Rattle.pool_layout.specs.Header.{version_in};
ghost use Rattle.image_tables.specs.Tables.{state_word};
ghost use Rattle.log_room.specs.Room.{most_events};
ghost use Rattle.log_steps.specs.Log.{IsBookOf};
ghost use Rattle.gc_check.specs.State.{IsEitherGcHeap};
ghost use Rattle.gc_steps.specs.Slabs.{normal_word, class_events};
ghost use Rattle.gc_steps.specs.Extents.{slab_events, large_events, drop_events, MayBeCreated, IsDroppable, IsSlabCreated, IsLargeCreated, IsDropped};

use crate::entry::log_entry;
use crate::slabs::normal_word;
use book_log::{BookLog, LogEntry};
use durable_steps::write_word;
use pmem_lines::Pmem;
use pool_layout::granule_at;

/// Makes a slab of a class, below 36, on the four granules from `start` on, which are vacant: its state word in three events, and
/// then its extent in the log, behind the events that make room for it there. No root's block lies in it, and the image is exact but
/// for that. The heap stays as it is, also after a crash within it, and every block keeps its words.
pub fn create_slab<P: Pmem>(p: &mut P, log: &mut BookLog, start: u32, class: u8)
    requires creatable { MayBeCreated (words_of (P.state p.old)) start 4 }
    requires class { class < 36 }
    requires book { IsBookOf log.old (words_of (P.state p.old)) }
    requires quiet { IsQuiet (P.state p.old).events }
    requires room { HasRoom (P.state p.old) (3 + most_events (words_of (P.state p.old))) }
    ensures step { IsQuietStep (P.state p.old) (P.state p.new) (slab_events (words_of (P.state p.old)) start class) (IsEitherGcHeap (words_of (P.state p.old)) (words_of (P.state p.new))) }
    ensures most { length (P.state p.new).events ≤ length (P.state p.old).events + (3 + most_events (words_of (P.state p.old))) }
    ensures created { IsSlabCreated (words_of (P.state p.old)) start class (words_of (P.state p.new)) }
    ensures book { IsBookOf log.new (words_of (P.state p.new)) }
{
    put_state(p, start, class);
    log_entry(log, p, LogEntry::Slab { start });
}

// Puts the state word of a slab of a class on the first of four vacant granules, in three events.
fn put_state<P: Pmem>(p: &mut P, start: u32, class: u8)
    requires creatable { MayBeCreated (words_of (P.state p.old)) start 4 }
    requires class { class < 36 }
    requires quiet { IsQuiet (P.state p.old).events }
    requires room { HasRoom (P.state p.old) 3 }
    ensures step { IsQuietStep (P.state p.old) (P.state p.new) (class_events start class) (IsEitherGcHeap (words_of (P.state p.old)) (words_of (P.state p.new))) }
    ensures count { length (P.state p.new).events ≡ length (P.state p.old).events + 3 }
    ensures words { words_of (P.state p.new) ≡ put_word (words_of (P.state p.old)) (state_word start) (normal_word class) }
{
    write_word(p, granule_at(start), normal_word(class));
}

/// Makes a large extent of so many granules, two at least, from `start` on, which are vacant: it goes into the log, behind the
/// events that make room for it there. No root names it, and the image is exact but for that. The heap stays as it is, also after a
/// crash within it, and every block keeps its words.
pub fn create_large<P: Pmem>(p: &mut P, log: &mut BookLog, start: u32, granules: u32)
    requires creatable { MayBeCreated (words_of (P.state p.old)) start granules }
    requires many { 2 ≤ granules }
    requires book { IsBookOf log.old (words_of (P.state p.old)) }
    requires quiet { IsQuiet (P.state p.old).events }
    requires room { HasRoom (P.state p.old) (most_events (words_of (P.state p.old))) }
    ensures step { IsQuietStep (P.state p.old) (P.state p.new) (large_events (words_of (P.state p.old)) start granules) (IsEitherGcHeap (words_of (P.state p.old)) (words_of (P.state p.new))) }
    ensures most { length (P.state p.new).events ≤ length (P.state p.old).events + most_events (words_of (P.state p.old)) }
    ensures created { IsLargeCreated (words_of (P.state p.old)) start granules (words_of (P.state p.new)) }
    ensures book { IsBookOf log.new (words_of (P.state p.new)) }
{
    log_entry(log, p, LogEntry::Large { start, granules });
}

/// Drops the extent that begins at `start`, a large one that no root names or a slab in which no root's block lies: puts a Tomb for
/// it into the log, behind the events that make room for it there. Its granules are vacant then. All else that is loose in the image
/// stays so, and nothing comes to be loose. The heap stays as it is, also after a crash within it, and every block keeps its words.
/// Two Tombs have the events of one rewrite of the log at most.
pub fn drop_extent<P: Pmem>(p: &mut P, log: &mut BookLog, start: u32)
    requires droppable { IsDroppable (words_of (P.state p.old)) start }
    requires book { IsBookOf log.old (words_of (P.state p.old)) }
    requires quiet { IsQuiet (P.state p.old).events }
    requires room { HasRoom (P.state p.old) (most_events (words_of (P.state p.old))) }
    ensures step { IsQuietStep (P.state p.old) (P.state p.new) (drop_events (words_of (P.state p.old)) start) (IsEitherGcHeap (words_of (P.state p.old)) (words_of (P.state p.new))) }
    ensures most { length (P.state p.new).events ≤ length (P.state p.old).events + most_events (words_of (P.state p.old)) }
    ensures once { let row = layout_of (version_in (words_of (P.state p.old))) in length (P.state p.new).events + most_events (words_of (P.state p.new)) ≤ length (P.state p.old).events + (row.entry_events + row.roll_events) }
    ensures dropped { IsDropped (words_of (P.state p.old)) start (words_of (P.state p.new)) }
    ensures book { IsBookOf log.new (words_of (P.state p.new)) }
{
    log_entry(log, p, LogEntry::Tomb { start });
}
