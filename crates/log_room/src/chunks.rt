// Lists of chunks, and the directory's word for them.

ghost use Rattle.std.specs.Prelude.{◌≡◌, ◌<◌, ◌≤◌, length, take};
ghost use Rattle.std.specs.List.{All};
ghost use Rattle.pmem_lines.specs.Pmem.{words_of};
ghost use Rattle.pool_layout.specs.Header.{version_in};
ghost use Rattle.book_log.specs.Log.{directory_of};
ghost use Rattle.book_log.specs.Book.{chunks_of};
ghost use Rattle.log_room.specs.Chunks.{without, spare_chunks};

use arrayvec::ArrayVec;
use book_log::active_chunks;
use pmem_lines::Pmem;
use pool_layout::{directory_at, fields_at};

// How many chunks a log has, active or not.
const CHUNKS: u32 = 16;

/// The chunks but one.
pub(crate) fn without(chunks: &[u32], chunk: u32) -> ArrayVec<u32, 8>
    requires { length chunks.now ≤ 8 }
    ensures { result.items ≡ without chunk chunks.now }
{
    let mut kept = ArrayVec::new();
    for other in chunks {
        if *other != chunk {
            kept.push(*other);
        }
    }
    kept
}

/// The lowest chunks that are not active, at most `count`, by rising number.
pub(crate) fn spare_chunks(active: &[u32], count: u32) -> ArrayVec<u32, 8>
    requires { count ≤ 8 }
    ensures { result.items ≡ take count (spare_chunks active.now) }
{
    let mut spare = ArrayVec::new();
    for chunk in 0..CHUNKS {
        if spare.len() < count as usize && !active.contains(&chunk) {
            spare.push(chunk);
        }
    }
    spare
}

/// The directory's word for these active chunks.
pub(crate) fn directory_of(chunks: &[u32]) -> u64
    requires small { All (λ chunk. chunk < 16) chunks.now }
    requires most { length chunks.now ≤ 8 }
    ensures { result ≡ directory_of chunks.now }
{
    let mut word = 0;
    for i in 0..chunks.len() {
        let chunk = chunks[chunks.len() - 1 - i];
        word = 256 * word + u64::from(chunk) + 1;
    }
    word
}

/// The active chunks, in the order of the directory.
pub(crate) fn active_of<P: Pmem>(p: &P) -> ArrayVec<u32, 8>
    requires { 2 < length (words_of (P.state p.now)) }
    ensures { result.items ≡ chunks_of (words_of (P.state p.now)) }
{
    active_chunks(p.load(directory_at()))
}

/// The version of the arena's layout.
pub(crate) fn version_of<P: Pmem>(p: &P) -> u32
    requires { 2 < length (words_of (P.state p.now)) }
    ensures { result ≡ version_in (words_of (P.state p.now)) }
{
    (p.load(fields_at()) % 65536) as u32
}
