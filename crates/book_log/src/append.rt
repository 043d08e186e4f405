// An entry is put at the end of the log.

ghost use Rattle.std.specs.Prelude.{◌≡◌, ℕ, ◌*◌, ◌<◌, length, Some};
ghost use Rattle.pmem_lines.specs.Words.{put_word};
ghost use Rattle.pmem_lines.specs.Events.{IsQuiet};
ghost use Rattle.pmem_lines.specs.Steps.{IsQuietStep};
ghost use Rattle.pmem_lines.specs.Pmem.{words_of, HasRoom};
ghost use Rattle.durable_steps.specs.Steps.{word_events};
ghost use Rattle.pool_layout.specs.Layout.{layout_of};
ghost use Rattle.pool_layout.specs.Places.{entry_slot};
ghost use Rattle.pool_layout.specs.Header.{version_in};
ghost use Rattle.image_tables.specs.Extents.{extent_at};
ghost use Rattle.book_log.specs.Entry.{log_word};
ghost use Rattle.book_log.specs.Log.{with_entry};
ghost use Rattle.book_log.specs.Table.{extent_in};
ghost use Rattle.book_log.specs.Book.{HasLog, AreWithin, IsNextOf, CanTake, IsPlaceAfter, IsEntryOrNot, IsInLog, chunks_of};

use crate::live::put_entry;
use crate::taking::version_of;
use crate::{EntryPlace, LogEntry, log_word};
use durable_steps::write_word;
use image_tables::Extent;
use pmem_lines::Pmem;
use pool_layout::{entry_at, layout_of};

// The place behind a place of a chunk of so many entries.
fn place_after(place: EntryPlace, entries: u32) -> Option<EntryPlace>
    requires { place.entry < entries }
    ensures { IsPlaceAfter entries place result }
{
    if place.entry + 1 < entries {
        Some(EntryPlace {
            chunk: place.chunk,
            entry: place.entry + 1,
        })
    } else {
        None
    }
}

/// Puts an entry at the next place of a log, whose live extents the table has, and does in the table what the entry
/// says. The answer is where the entry after it goes.
pub(crate) fn append_at<P: Pmem>(
    live: &mut [Option<Extent>],
    device: &mut P,
    place: EntryPlace,
    entry: LogEntry,
) -> Option<EntryPlace>
    requires place { CanTake (length live.old) (words_of (P.state device.old)) place entry }
    requires live { (start : ℕ) → extent_in live.old start ≡ extent_at (words_of (P.state device.old)) start }
    requires quiet { IsQuiet (P.state device.old).events }
    requires room { HasRoom (P.state device.old) 3 }
    ensures step { IsQuietStep (P.state device.old) (P.state device.new) (word_events (8 * entry_slot (version_in (words_of (P.state device.old))) place.chunk place.entry) (log_word entry)) (IsEntryOrNot (length live.old) (words_of (P.state device.old)) (entry_slot (version_in (words_of (P.state device.old))) place.chunk place.entry) entry) }
    ensures words { words_of (P.state device.new) ≡ put_word (words_of (P.state device.old)) (entry_slot (version_in (words_of (P.state device.old))) place.chunk place.entry) (log_word entry) }
    ensures place { IsInLog (version_in (words_of (P.state device.old))) (entry_slot (version_in (words_of (P.state device.old))) place.chunk place.entry) }
    ensures version { version_in (words_of (P.state device.new)) ≡ version_in (words_of (P.state device.old)) }
    ensures chunks { chunks_of (words_of (P.state device.new)) ≡ chunks_of (words_of (P.state device.old)) }
    ensures extents { (start : ℕ) → extent_at (words_of (P.state device.new)) start ≡ with_entry (extent_at (words_of (P.state device.old))) entry start }
    ensures live { (start : ℕ) → extent_in live.new start ≡ extent_at (words_of (P.state device.new)) start }
    ensures log { HasLog (length live.new) (words_of (P.state device.new)) }
    ensures inside { AreWithin (words_of (P.state device.new)) }
    ensures next { IsNextOf (words_of (P.state device.new)) result }
{
    let version = version_of(device);
    let word = log_word(entry);
    write_word(device, entry_at(version, place.chunk, place.entry), word);
    put_entry(live, entry);
    place_after(place, layout_of(version).chunk_entries)
}
