// An entry is put into the log, where room is made for it first.
ghost use Rattle.std.specs.Prelude.{◌≡◌, ◌≤◌, ◌+◌, length};
ghost use Rattle.pmem_lines.specs.Events.{IsQuiet};
ghost use Rattle.pmem_lines.specs.Steps.{IsQuietStep};
ghost use Rattle.pmem_lines.specs.Pmem.{words_of, HasRoom};
ghost use Rattle.pool_layout.specs.Layout.{layout_of};
ghost use Rattle.pool_layout.specs.Header.{version_in, granules_in};
ghost use Rattle.image_tables.specs.Extents.{extent_at};
ghost use Rattle.book_log.specs.Entry.{IsInHeap};
ghost use Rattle.book_log.specs.Live.{AreDisjoint};
ghost use Rattle.log_room.specs.Room.{most_events};
ghost use Rattle.log_steps.specs.Events.{log_events};
ghost use Rattle.log_steps.specs.Log.{IsLogged, IsLoggedOrNot, IsBookOf};
ghost use Rattle.gc_check.specs.Image.{IsGcFormed};

use book_log::{BookLog, LogEntry};
use log_room::make_room;
use pmem_lines::Pmem;

/// Puts an entry into the log of an arena of this variant and makes it durable, behind the events that make room for it where the
/// last active chunk is full, as `log_entry` of `log_steps` does in one of the other. Every word outside the log and its directory
/// is as before, and the live extents are those with the entry done. After a crash within it they are that or as before. Two
/// entries have the events of one rewrite at most.
#[tactic(auto, using(std::proofs::lemmas::Grind::common_steps, crate::proofs::Entries::most_granules, crate::proofs::Entries::room_few, log_steps::proofs::Entries::most_few))]
pub(crate) fn log_entry<P: Pmem>(log: &mut BookLog, device: &mut P, entry: LogEntry)
    requires formed { IsGcFormed (words_of (P.state device.old)) }
    requires disjoint { AreDisjoint (extent_at (words_of (P.state device.old))) }
    requires book { IsBookOf log.old (words_of (P.state device.old)) }
    requires valid { IsInHeap (layout_of (version_in (words_of (P.state device.old)))).first_granule (granules_in (words_of (P.state device.old))) entry }
    requires quiet { IsQuiet (P.state device.old).events }
    requires room { HasRoom (P.state device.old) (most_events (words_of (P.state device.old))) }
    ensures step { IsQuietStep (P.state device.old) (P.state device.new) (log_events (words_of (P.state device.old)) entry) (IsLoggedOrNot (words_of (P.state device.old)) entry) }
    ensures most { length (P.state device.new).events ≤ length (P.state device.old).events + most_events (words_of (P.state device.old)) }
    ensures once { let row = layout_of (version_in (words_of (P.state device.old))) in length (P.state device.new).events + most_events (words_of (P.state device.new)) ≤ length (P.state device.old).events + (row.entry_events + row.roll_events) }
    ensures logged { IsLogged (words_of (P.state device.old)) entry (words_of (P.state device.new)) }
    ensures book { IsBookOf log.new (words_of (P.state device.new)) }
{
    make_room(log, device);
    log.append(device, entry);
}
