// Room for an entry in the log.

ghost use Rattle.std.specs.Prelude.{◌≡◌, ◌+◌, ◌*◌, ◌<◌, ◌≤◌, length, IsSome, false};
ghost use Rattle.pmem_lines.specs.Events.{IsQuiet};
ghost use Rattle.pmem_lines.specs.Steps.{IsQuietStep};
ghost use Rattle.pmem_lines.specs.Pmem.{words_of, HasRoom, Appends};
ghost use Rattle.pool_layout.specs.Layout.{layout_of};
ghost use Rattle.pool_layout.specs.Places.{heap_word};
ghost use Rattle.pool_layout.specs.Header.{version_in};
ghost use Rattle.image_tables.specs.Extents.{extent_at};
ghost use Rattle.book_log.specs.Book.{Reads, chunks_of};
ghost use Rattle.log_room.specs.Chunks.{has_space};
ghost use Rattle.book_log.specs.Live.{AreDisjoint};
ghost use Rattle.log_room.specs.Room.{way_of, room_events, KeepsLog};

use crate::census::first_needless;
use crate::chunks::{active_of, version_of};
use crate::copying::count_live;
use crate::switching::{rewrite, roll};
use book_log::BookLog;
use pmem_lines::Pmem;
use pool_layout::layout_of;

// How many chunks may be active.
const MOST_ACTIVE: usize = 8;

/// How the log got room for one more entry.
#[derive(Clone, Copy, Debug, PartialEq, Eq)]
pub enum Rolled {
    /// There was room.
    Nothing,
    /// A fresh chunk went to the end of the directory, and the chunk `dropped`, where there is one, left it.
    Rolled { dropped: Option<u8> },
    /// The live extents' entries alone were written into so many fresh chunks, which are the directory now.
    Rewritten { chunks: u8 },
}

/// Makes room for an entry in the log, where its last active chunk is full; else it does nothing.
///
/// The log rolls where fewer than eight chunks are active, or where one of them is needless: the first needless chunk
/// in the order of the directory leaves it, if there is one, and the lowest chunk that was not active goes last into it,
/// filled with zeros. Otherwise the log is rewritten: the entries of its live extents go by rising start into as few of
/// the lowest chunks that were not active as leave room for one entry more, and these become the directory.
///
/// The log has what the device has, no two of its live extents share a granule, all of its chunks lie inside, and it has
/// at most as many granules as an arena of the version. The answer and the events are those of `way_of` and `room_events`.
/// Afterwards, and after a crash within the events, the log is well formed with the same live extents, and every word
/// outside the log and the directory is as before.
pub fn make_room<P: Pmem>(log: &mut BookLog, p: &mut P) -> Rolled
    requires reads { Reads log.old (words_of (P.state p.old)) }
    requires disjoint { AreDisjoint (extent_at (words_of (P.state p.old))) }
    requires inside { heap_word (version_in (words_of (P.state p.old))) ≤ length (words_of (P.state p.old)) }
    requires few { log.old.granules ≤ (layout_of (version_in (words_of (P.state p.old)))).most_granules }
    requires quiet { IsQuiet (P.state p.old).events }
    requires left { HasRoom (P.state p.old) (length (room_events log.old.granules (words_of (P.state p.old)))) }
    ensures answer { result ≡ way_of log.old.granules (words_of (P.state p.old)) }
    ensures step { IsQuietStep (P.state p.old) (P.state p.new) (room_events log.old.granules (words_of (P.state p.old))) (KeepsLog log.old.granules (words_of (P.state p.old))) }
    ensures room { IsSome log.new.next }
    ensures reads { Reads log.new (words_of (P.state p.new)) }
    ensures granules { log.new.granules ≡ log.old.granules }
    ensures version { version_in (words_of (P.state p.new)) ≡ version_in (words_of (P.state p.old)) }
    ensures keeps { KeepsLog log.old.granules (words_of (P.state p.old)) (words_of (P.state p.new)) }
{
    if log.has_room() {
        return Rolled::Nothing;
    }
    let way = choose_way(log, p);
    take_way(log, p, way);
    log.load_next(p);
    way
}

// The way to make room in a log that has none.
fn choose_way<P: Pmem>(log: &BookLog, p: &P) -> Rolled
    requires reads { Reads log.now (words_of (P.state p.now)) }
    requires disjoint { AreDisjoint (extent_at (words_of (P.state p.now))) }
    requires inside { heap_word (version_in (words_of (P.state p.now))) ≤ length (words_of (P.state p.now)) }
    requires few { log.now.granules ≤ (layout_of (version_in (words_of (P.state p.now)))).most_granules }
    requires full { has_space (version_in (words_of (P.state p.now))) (words_of (P.state p.now)) (chunks_of (words_of (P.state p.now))) ≡ false }
    ensures { result ≡ way_of log.now.granules (words_of (P.state p.now)) }
{
    let version = version_of(p);
    let active = active_of(p);
    let dropped = first_needless(p, log.granules());
    if active.len() < MOST_ACTIVE || dropped.is_some() {
        return Rolled::Rolled { dropped };
    }
    let chunks = count_live(log) / layout_of(version).chunk_entries + 1;
    Rolled::Rewritten {
        chunks: chunks as u8,
    }
}

// Makes room that way.
fn take_way<P: Pmem>(log: &BookLog, p: &mut P, way: Rolled)
    requires few { log.now.granules ≤ (layout_of (version_in (words_of (P.state p.old)))).most_granules }
    requires way { way ≡ way_of log.now.granules (words_of (P.state p.old)) }
    requires reads { Reads log.now (words_of (P.state p.old)) }
    requires disjoint { AreDisjoint (extent_at (words_of (P.state p.old))) }
    requires inside { heap_word (version_in (words_of (P.state p.old))) ≤ length (words_of (P.state p.old)) }
    requires quiet { IsQuiet (P.state p.old).events }
    requires left { HasRoom (P.state p.old) (length (room_events log.now.granules (words_of (P.state p.old)))) }
    ensures { Appends (P.state p.old) (P.state p.new) (room_events log.now.granules (words_of (P.state p.old))) }
{
    let version = version_of(p);
    let active = active_of(p);
    match way {
        Rolled::Nothing => {}
        Rolled::Rolled { dropped } => roll(p, version, active.as_slice(), dropped),
        Rolled::Rewritten { chunks } => {
            rewrite(p, log, version, active.as_slice(), u32::from(chunks));
        }
    }
}
