// The directory names other chunks, of which the fresh ones got their entries just before.

ghost use Rattle.std.specs.Prelude.{◌≡◌, ◌+◌, ◌*◌, ◌<◌, ◌≤◌, [], ◌∷◌, ◌++◌, Option, length, take};
ghost use Rattle.std.specs.List.{All};
ghost use Rattle.pmem_lines.specs.Events.{IsQuiet};
ghost use Rattle.pmem_lines.specs.Pmem.{words_of, HasRoom, Appends};
ghost use Rattle.pool_layout.specs.Places.{heap_word};
ghost use Rattle.book_log.specs.Book.{live_at};
ghost use Rattle.log_room.specs.Chunks.{spare_chunks};
ghost use Rattle.book_log.specs.Live.{AreLive, live_words};
ghost use Rattle.log_room.specs.Copies.{IsFlushed, directory_events, switch_events, switch_count};
ghost use Rattle.log_room.specs.Room.{kept_chunks};

use crate::chunks::{directory_of, spare_chunks, without};
use crate::copying::copy_live;
use crate::filling::zero_chunk;
use arrayvec::ArrayVec;
use book_log::BookLog;
use durable_steps::write_word;
use pmem_lines::Pmem;
use pool_layout::directory_at;

/// A roll: the lowest chunk that is not active is zeroed and goes last into the directory, which the chunk `dropped`
/// leaves, if there is one.
pub(crate) fn roll<P: Pmem>(device: &mut P, version: u32, active: &[u32], dropped: Option<u8>)
    requires small { All (λ chunk. chunk < 16) active.now }
    requires most { length active.now ≤ 8 }
    requires kept { length (kept_chunks dropped active.now) < 8 }
    requires inside { heap_word version ≤ length (words_of (P.state device.old)) }
    requires quiet { IsQuiet (P.state device.old).events }
    requires room { HasRoom (P.state device.old) (switch_count version 1) }
    ensures { Appends (P.state device.old) (P.state device.new) (switch_events version (take 1 (spare_chunks active.now)) [] (kept_chunks dropped active.now ++ take 1 (spare_chunks active.now))) }
{
    let fresh = spare_chunks(active, 1);
    let chunk = fresh.as_slice()[0];
    let mut chunks = kept_chunks(active, dropped);
    chunks.push(chunk);
    zero_chunk(device, version, chunk);
    switch_directory(device, chunks.as_slice());
}

/// A rewrite: the `count` lowest chunks that are not active get the entries of the live extents, by rising start, and
/// become the directory.
pub(crate) fn rewrite<P: Pmem>(
    device: &mut P,
    log: &BookLog,
    version: u32,
    active: &[u32],
    count: u32,
)
    requires most { count ≤ 8 }
    requires enough { count + length active.now ≤ 16 }
    requires live { AreLive 0 log.now.granules (live_at log.now) }
    requires inside { heap_word version ≤ length (words_of (P.state device.old)) }
    requires quiet { IsQuiet (P.state device.old).events }
    requires room { HasRoom (P.state device.old) (switch_count version count) }
    ensures { Appends (P.state device.old) (P.state device.new) (switch_events version (take count (spare_chunks active.now)) (live_words (live_at log.now) 0 log.now.granules) (take count (spare_chunks active.now))) }
{
    let fresh = spare_chunks(active, count);
    copy_live(device, log, version, fresh.as_slice());
    switch_directory(device, fresh.as_slice());
}

// Makes durable what was flushed, and then stores the directory's word for these chunks.
fn switch_directory<P: Pmem>(device: &mut P, chunks: &[u32])
    requires small { All (λ chunk. chunk < 16) chunks.now }
    requires most { length chunks.now ≤ 8 }
    requires inside { 2 < length (words_of (P.state device.old)) }
    requires flushed { IsFlushed (P.state device.old).events }
    requires room { HasRoom (P.state device.old) 4 }
    ensures { Appends (P.state device.old) (P.state device.new) (directory_events chunks.now) }
{
    device.fence();
    write_word(device, directory_at(), directory_of(chunks));
}

// The active chunks that a roll leaves.
fn kept_chunks(active: &[u32], dropped: Option<u8>) -> ArrayVec<u32, 8>
    requires { length active.now ≤ 8 }
    ensures { result.items ≡ kept_chunks dropped active.now }
{
    match dropped {
        Some(chunk) => without(active, u32::from(chunk)),
        None => all_of(active),
    }
}

// A list of all these chunks.
fn all_of(active: &[u32]) -> ArrayVec<u32, 8>
    requires { length active.now ≤ 8 }
    ensures { result.items ≡ active.now }
{
    let mut chunks = ArrayVec::new();
    for chunk in active {
        chunks.push(*chunk);
    }
    chunks
}
