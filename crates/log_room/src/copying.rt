// The entries of the live extents are copied into chunks that are not active, by rising start.

ghost use Rattle.std.specs.Prelude.{◌≡◌, ◌+◌, ◌-◌, ◌*◌, ◌<◌, ◌≤◌, length, drop, slice_index};
ghost use Rattle.std.specs.List.{All};
ghost use Rattle.pmem_lines.specs.Pmem.{words_of, HasRoom, Appends};
ghost use Rattle.pool_layout.specs.Layout.{layout_of};
ghost use Rattle.pool_layout.specs.Places.{heap_word};
ghost use Rattle.book_log.specs.Book.{live_at};
ghost use Rattle.book_log.specs.Live.{AreLive, live_words};
ghost use Rattle.log_room.specs.Copies.{entry_stores, fill_events, fill_count, copy_events};

use crate::filling::flush_chunk;
use book_log::{BookLog, log_word};
use pmem_lines::Pmem;
use pool_layout::{entry_at, layout_of};

/// How many extents are live.
pub(crate) fn count_live(log: &BookLog) -> u32
    requires { AreLive 0 log.now.granules (live_at log.now) }
    ensures { result ≡ length (live_words (live_at log.now) 0 log.now.granules) }
{
    let mut count = 0;
    let mut from = 0;
    while let Some(entry) = log.next_live(from) {
        count += 1;
        from = entry.start() + 1;
    }
    count
}

/// The entries of all live extents go into these chunks, to each as many as it has room for, and zeros behind the last.
/// The chunks' lines are flushed; there is no fence.
pub(crate) fn copy_live<P: Pmem>(device: &mut P, log: &BookLog, version: u32, fresh: &[u32])
    requires chunks { All (λ chunk. chunk < 16) fresh.now }
    requires live { AreLive 0 log.now.granules (live_at log.now) }
    requires inside { heap_word version ≤ length (words_of (P.state device.old)) }
    requires room { HasRoom (P.state device.old) (fill_count version * length fresh.now) }
    ensures appends { Appends (P.state device.old) (P.state device.new) (copy_events version fresh.now (live_words (live_at log.now) 0 log.now.granules)) }
    ensures count { length (P.state device.new).events ≡ length (P.state device.old).events + fill_count version * length fresh.now }
{
    let mut from = 0;
    for chunk in fresh {
        from = copy_chunk(device, log, version, *chunk, from);
    }
}

// The entries of the live extents from a start on go into a chunk, with zeros behind the last, and its lines are flushed.
// The result is where the live extents begin for which there was no room.
fn copy_chunk<P: Pmem>(device: &mut P, log: &BookLog, version: u32, chunk: u32, from: u32) -> u32
    requires chunk { chunk < 16 }
    requires live { AreLive 0 log.now.granules (live_at log.now) }
    requires inside { heap_word version ≤ length (words_of (P.state device.old)) }
    requires room { HasRoom (P.state device.old) (fill_count version) }
    ensures appends { Appends (P.state device.old) (P.state device.new) (fill_events version chunk (slice_index (live_words (live_at log.now) from (log.now.granules - from)))) }
    ensures count { length (P.state device.new).events ≡ length (P.state device.old).events + fill_count version }
    ensures rest { live_words (live_at log.now) result (log.now.granules - result) ≡ drop (layout_of version).chunk_entries (live_words (live_at log.now) from (log.now.granules - from)) }
{
    let behind = copy_entries(device, log, version, chunk, from);
    flush_chunk(device, version, chunk);
    behind
}

// The stores of a chunk's entries.
fn copy_entries<P: Pmem>(device: &mut P, log: &BookLog, version: u32, chunk: u32, from: u32) -> u32
    requires chunk { chunk < 16 }
    requires live { AreLive 0 log.now.granules (live_at log.now) }
    requires inside { heap_word version ≤ length (words_of (P.state device.old)) }
    requires room { HasRoom (P.state device.old) (layout_of version).chunk_entries }
    ensures appends { Appends (P.state device.old) (P.state device.new) (entry_stores version chunk (slice_index (live_words (live_at log.now) from (log.now.granules - from))) 0 (layout_of version).chunk_entries) }
    ensures count { length (P.state device.new).events ≡ length (P.state device.old).events + (layout_of version).chunk_entries }
    ensures rest { live_words (live_at log.now) result (log.now.granules - result) ≡ drop (layout_of version).chunk_entries (live_words (live_at log.now) from (log.now.granules - from)) }
{
    let mut behind = from;
    for entry in 0..layout_of(version).chunk_entries {
        let copied = next_entry(log, behind);
        device.store(entry_at(version, chunk, entry), copied.word);
        behind = copied.behind;
    }
    behind
}

// The word of an entry, and the granule behind the start that it names.
#[derive(Drop)]
struct Copied {
    word: u64,
    behind: u32,
}

// The entry of the next live extent from a start on, or 0 where there is none.
fn next_entry(log: &BookLog, from: u32) -> Copied
    requires { AreLive 0 log.now.granules (live_at log.now) }
    ensures word { result.word ≡ slice_index (live_words (live_at log.now) from (log.now.granules - from)) 0 }
    ensures rest { live_words (live_at log.now) result.behind (log.now.granules - result.behind) ≡ drop 1 (live_words (live_at log.now) from (log.now.granules - from)) }
{
    match log.next_live(from) {
        Some(entry) => Copied {
            word: log_word(entry),
            behind: entry.start() + 1,
        },
        None => Copied {
            word: 0,
            behind: from,
        },
    }
}
