// One pass over the log of an arena, which takes over what its entries say.

ghost use Rattle.std.specs.Prelude.{◌≡◌, ℕ, ◌+◌, ◌*◌, ◌/◌, ◌%◌, ◌<◌, ◌≤◌, length, None, MatchOption};
ghost use Rattle.pmem_lines.specs.Words.{word_at};
ghost use Rattle.pmem_lines.specs.Pmem.{words_of};
ghost use Rattle.pool_layout.specs.Layout.{layout_of};
ghost use Rattle.pool_layout.specs.Places.{chunk_word};
ghost use Rattle.pool_layout.specs.Header.{version_in};
ghost use Rattle.image_tables.specs.Log.{entry_or_none, chunk_log};
ghost use Rattle.image_tables.specs.Extents.{extent_behind, extent_at};
ghost use Rattle.book_log.specs.Entry.{IsEmptyOrEntry};
ghost use Rattle.book_log.specs.Log.{IsChunk, IsNext, logged};
ghost use Rattle.book_log.specs.Table.{extent_in};
ghost use Rattle.book_log.specs.Book.{HasLog, AreWithin, IsFull, IsNextOf};

use crate::entry::read_entry;
use crate::live::{clear, put_entry};
use crate::{EntryPlace, active_chunks};
use image_tables::Extent;
use pmem_lines::Pmem;
use pool_layout::{directory_at, entry_at, fields_at, layout_of};

/// The version of the arena.
pub(crate) fn version_of<P: Pmem>(device: &P) -> u32
    requires { 1 < length (words_of (P.state device.now)) }
    ensures { result ≡ version_in (words_of (P.state device.now)) }
{
    (device.load(fields_at()) % 65536) as u32
}

// The word that begins at this byte.
fn word_at(words: &[u64], at: u32) -> u64
    requires aligned { at % 8 ≡ 0 }
    requires inside { at < 8 * length words.now }
    ensures { result ≡ word_at words.now (at / 8) }
{
    words[(at / 8) as usize]
}

// The version of the arena of these words.
fn version_in(words: &[u64]) -> u32
    requires { 1 < length words.now }
    ensures { result ≡ version_in words.now }
{
    (word_at(words, fields_at()) % 65536) as u32
}

// The word of an entry of a chunk.
fn logged_word(words: &[u64], version: u32, chunk: u32, entry: u32) -> u64
    requires chunk { chunk < 16 }
    requires entry { entry < (layout_of version).chunk_entries }
    requires inside { chunk_word version (chunk + 1) ≤ length words.now }
    ensures { result ≡ logged version words.now chunk entry }
{
    word_at(words, entry_at(version, chunk, entry))
}

// Does what the entry of a word says, if there is one.
fn take_word(live: &mut [Option<Extent>], word: u64)
    requires { IsEmptyOrEntry (length live.old) word }
    ensures { (start : ℕ) → extent_in live.new start ≡ extent_behind (entry_or_none word) start (extent_in live.old start) }
{
    if let Some(entry) = read_entry(word) {
        put_entry(live, entry);
    }
}

// Does what the entries of a chunk say.
fn take_chunk(live: &mut [Option<Extent>], words: &[u64], version: u32, chunk: u32)
    requires number { chunk < 16 }
    requires chunk { IsChunk version (length live.old) words.now chunk }
    requires inside { chunk_word version (chunk + 1) ≤ length words.now }
    ensures { (start : ℕ) → extent_in live.new start ≡ extent_behind (chunk_log version words.now chunk) start (extent_in live.old start) }
{
    let entries = layout_of(version).chunk_entries;
    for entry in 0..entries {
        take_word(live, logged_word(words, version, chunk, entry));
    }
}

// The first entry of a chunk that is 0.
fn first_free(words: &[u64], version: u32, chunk: u32) -> Option<u32>
    requires number { chunk < 16 }
    requires inside { chunk_word version (chunk + 1) ≤ length words.now }
    ensures { MatchOption result (IsFull version words.now chunk) (IsNext version words.now chunk) }
{
    let entries = layout_of(version).chunk_entries;
    for entry in 0..entries {
        if logged_word(words, version, chunk, entry) == 0 {
            return Some(entry);
        }
    }
    None
}

/// Makes the table say what the log says, and answers where the next entry goes.
pub(crate) fn take_log(live: &mut [Option<Extent>], words: &[u64]) -> Option<EntryPlace>
    requires log { HasLog (length live.old) words.now }
    requires inside { AreWithin words.now }
    ensures live { (start : ℕ) → extent_in live.new start ≡ extent_at words.now start }
    ensures next { IsNextOf words.now result }
{
    let version = version_in(words);
    let directory = active_chunks(word_at(words, directory_at()));
    let chunks = directory.as_slice();
    clear(live);
    for chunk in chunks {
        take_chunk(live, words, version, *chunk);
    }
    next_place(words)
}

/// Where the next entry goes.
pub(crate) fn next_place(words: &[u64]) -> Option<EntryPlace>
    requires log { (granules : ℕ) × HasLog granules words.now }
    requires inside { AreWithin words.now }
    ensures { IsNextOf words.now result }
{
    let version = version_in(words);
    let directory = active_chunks(word_at(words, directory_at()));
    let chunks = directory.as_slice();
    let chunk = chunks[chunks.len() - 1];
    let entry = first_free(words, version, chunk)?;
    Some(EntryPlace { chunk, entry })
}
