// The bookkeeping log of an arena.

ghost use Rattle.std.specs.Prelude.{◌≡◌, ◌↔◌, ℕ, ◌≤◌, List, IsTrue, IsSome, IfOk, MatchOption};
ghost use Rattle.pmem_lines.specs.Words.{put_word};
ghost use Rattle.pmem_lines.specs.Events.{IsQuiet};
ghost use Rattle.pmem_lines.specs.Steps.{IsQuietStep};
ghost use Rattle.pmem_lines.specs.Pmem.{words_of, HasRoom};
ghost use Rattle.pool_layout.specs.Layout.{layout_of};
ghost use Rattle.pool_layout.specs.Header.{version_in};
ghost use Rattle.image_tables.specs.Extents.{extent_at};
ghost use Rattle.book_log.specs.Entry.{log_word, IsInHeap};
ghost use Rattle.book_log.specs.Log.{with_entry};
ghost use Rattle.book_log.specs.Table.{IsNextLive, IsNoneLive};
ghost use Rattle.book_log.specs.Book.{live_at, IsArenaSize, IsBlank, HasLog, AreWithin, Reads, HasFreeEntry, chunks_of, next_word, append_events, IsEntryOrNot, IsInLog};

use crate::append::append_at;
use crate::live::{extent_in, next_in, no_extents};
use crate::taking::{next_place, take_log};
use crate::{EntryPlace, LogEntry};
use image_tables::Extent;
use pmem_lines::{OutOfMemory, Pmem};
use std::alloc::Global;
use std::marker::Model;

/// The bookkeeping log of an arena: what its entries say of each granule, and where the next entry goes. It is kept
/// beside the words of the log, so that no call but `load` walks them. In contracts it is a `Book`; `Reads` says
/// that this is what the words of an arena say.
#[derive(Drop)]
pub struct BookLog {
    live: Vec<Option<Extent>>,
    next: Option<EntryPlace>,
}

impl Model for BookLog {
    ghost use Rattle.std.specs.Prelude.{length};
    ghost use Rattle.book_log.specs.Book.{Book, IsArenaSize};

    ghost Value = { Book };

    ghost view = { λ log. record { granules = length log.live.items; live = log.live.items; next = log.next } };

    ghost invariant = { λ log. IsArenaSize (length log.live.items) };
}

impl BookLog {
    /// A log for an arena of 16 to 4096 granules: until `load` it has no live extent and no room. It takes all the
    /// memory that it will need.
    pub fn new(alloc: Global, granules: u32) -> Result<BookLog, OutOfMemory>
        requires least { 16 ≤ granules }
        requires most { granules ≤ 4096 }
        ensures { IfOk result (IsBlank granules) }
    {
        let live = no_extents(alloc, granules)?;
        Ok(BookLog { live, next: None })
    }

    /// How many granules the arena has: 16 to 4096.
    pub fn granules(&self) -> u32
        ensures granules { result ≡ self.now.granules }
        ensures size { IsArenaSize result }
    {
        self.live.len() as u32
    }

    /// Takes over the log that the device has. Its log is well formed for the granules that were given to `new`, and
    /// its active chunks lie inside. It walks the log once.
    pub fn load<P: Pmem>(&mut self, p: &P)
        requires log { HasLog self.old.granules (words_of (P.state p.now)) }
        requires inside { AreWithin (words_of (P.state p.now)) }
        ensures reads { Reads self.new (words_of (P.state p.now)) }
        ensures granules { self.new.granules ≡ self.old.granules }
    {
        self.load_words(p.words(0, p.size_words()));
    }

    /// Takes over the log that an arena of these words has, as `load` does that of a device.
    pub fn load_words(&mut self, words: &[u64])
        requires log { HasLog self.old.granules words.now }
        requires inside { AreWithin words.now }
        ensures reads { Reads self.new words.now }
        ensures granules { self.new.granules ≡ self.old.granules }
    {
        self.next = take_log(&mut self.live, words);
    }

    /// Takes over where the next entry goes in the log that the device has. That log is well formed for the granules that
    /// were given to `new`, its active chunks lie inside, and it has the live extents that are known here already. It looks
    /// at the last active chunk alone.
    pub fn load_next<P: Pmem>(&mut self, p: &P)
        requires log { HasLog self.old.granules (words_of (P.state p.now)) }
        requires inside { AreWithin (words_of (P.state p.now)) }
        requires live { (start : ℕ) → live_at self.old start ≡ extent_at (words_of (P.state p.now)) start }
        ensures reads { Reads self.new (words_of (P.state p.now)) }
        ensures granules { self.new.granules ≡ self.old.granules }
    {
        self.next = next_place(p.words(0, p.size_words()));
    }

    /// The live extent that starts at a granule, if one does; none starts past the arena.
    pub fn extent_at(&self, start: u32) -> Option<Extent>
        ensures live { result ≡ live_at self.now start }
        ensures reads { (words : List ℕ) → Reads self.now words → result ≡ extent_at words start }
    {
        extent_in(&self.live, start)
    }

    /// There is room for an entry. In an arena that the log reads, the last active chunk has an entry that is 0.
    pub fn has_room(&self) -> bool
        ensures room { IsTrue result ↔ IsSome self.now.next }
        ensures reads { (words : List ℕ) → Reads self.now words → (IsTrue result ↔ HasFreeEntry words) }
    {
        self.next.is_some()
    }

    /// Puts an entry at the end of the log and makes it durable, in three events: the log has room, and the entry is
    /// one that its arena may have. One word changes, and the live extents are as before with the entry done. After a
    /// crash within it that word is old or new, and so are the live extents.
    pub fn append<P: Pmem>(&mut self, p: &mut P, e: LogEntry)
        requires reads { Reads self.old (words_of (P.state p.old)) }
        requires room { IsSome self.old.next }
        requires valid { IsInHeap (layout_of (version_in (words_of (P.state p.old)))).first_granule self.old.granules e }
        requires quiet { IsQuiet (P.state p.old).events }
        requires left { HasRoom (P.state p.old) 3 }
        ensures step { IsQuietStep (P.state p.old) (P.state p.new) (append_events self.old (words_of (P.state p.old)) e) (IsEntryOrNot self.old.granules (words_of (P.state p.old)) (next_word self.old (words_of (P.state p.old))) e) }
        ensures words { words_of (P.state p.new) ≡ put_word (words_of (P.state p.old)) (next_word self.old (words_of (P.state p.old))) (log_word e) }
        ensures extents { (start : ℕ) → extent_at (words_of (P.state p.new)) start ≡ with_entry (extent_at (words_of (P.state p.old))) e start }
        ensures reads { Reads self.new (words_of (P.state p.new)) }
        ensures granules { self.new.granules ≡ self.old.granules }
        ensures place { IsInLog (version_in (words_of (P.state p.old))) (next_word self.old (words_of (P.state p.old))) }
        ensures version { version_in (words_of (P.state p.new)) ≡ version_in (words_of (P.state p.old)) }
        ensures chunks { chunks_of (words_of (P.state p.new)) ≡ chunks_of (words_of (P.state p.old)) }
    {
        let place = self.next.unwrap();
        self.next = append_at(&mut self.live, p, place, e);
    }

    /// The entry of the live extent with the least start that is at least `from`; None exactly where there is none.
    pub fn next_live(&self, from: u32) -> Option<LogEntry>
        ensures live { MatchOption result (IsNoneLive (live_at self.now) from) (IsNextLive (live_at self.now) from) }
        ensures reads { (words : List ℕ) → Reads self.now words → MatchOption result (IsNoneLive (extent_at words) from) (IsNextLive (extent_at words) from) }
    {
        next_in(&self.live, from)
    }
}
