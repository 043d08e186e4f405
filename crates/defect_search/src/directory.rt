// The directory of the log.
ghost use Rattle.std.specs.Prelude.{◌≡◌, ◌≢◌, ◌↔◌, ◌<◌, ℕ, length, slice_index, IsTrue, MatchOption};
ghost use Rattle.std.specs.List.{AllPairs};
ghost use Rattle.image_tables.specs.Log.{is_chunk_byte, active_chunks};
ghost use Rattle.book_log.specs.Log.{directory_of, IsDirectory};
ghost use Rattle.image_defects.specs.Log.{HasDirectory, IsBadDirectory};

use book_log::active_chunks;
use image_reading::word_at;
use pool_layout::directory_at;

// A byte of the directory names a chunk.
fn names_chunk(byte: u64) -> bool
    ensures { result ≡ is_chunk_byte byte }
{
    0 < byte && byte <= 16
}

// The bytes behind the first that names no chunk are 0, and so is that one.
fn is_whole(directory: u64) -> bool
    ensures { IsTrue result ↔ (directory ≡ directory_of (active_chunks directory)) }
{
    let mut rest = directory;
    for _byte in 0..8u32 {
        if !names_chunk(rest % 256) {
            return rest == 0;
        }
        rest /= 256;
    }
    rest == 0
}

// A chunk is none of those before it.
fn is_new(chunks: &[u32], at: usize) -> bool
    requires { at < length chunks.now }
    ensures { IsTrue result ↔ ((k : ℕ) → k < at → slice_index chunks.now k ≢ slice_index chunks.now at) }
{
    for k in 0..at {
        if chunks[k] == chunks[at] {
            return false;
        }
    }
    true
}

// Each chunk stands once.
fn are_distinct(chunks: &[u32]) -> bool
    ensures { IsTrue result ↔ AllPairs (λ chunk later. chunk ≢ later) chunks.now }
{
    for at in 0..chunks.len() {
        if !is_new(chunks, at) {
            return false;
        }
    }
    true
}

// The word is a directory: it names one to eight chunks, each once, and all its other bytes are 0.
fn is_directory(directory: u64) -> bool
    ensures { IsTrue result ↔ IsDirectory directory (active_chunks directory) }
{
    if !is_whole(directory) {
        return false;
    }
    let active = active_chunks(directory);
    let chunks = active.as_slice();
    if chunks.is_empty() {
        return false;
    }
    are_distinct(chunks)
}

/// The value of the directory where it does not name one to eight chunks, each once, with all its other bytes 0.
pub fn bad_directory(words: &[u64]) -> Option<u64>
    requires { 2 < length words.now }
    ensures { MatchOption result (HasDirectory words.now) (IsBadDirectory words.now) }
{
    let directory = word_at(words, directory_at());
    if is_directory(directory) {
        None
    } else {
        Some(directory)
    }
}
