// Defects of the log: its directory and its entries.
ghost use Rattle.std.specs.Prelude.{◌≡◌, ◌≢◌, ◌↔◌, ◌⊎◌, ◌+◌, ◌*◌, ◌<◌, ◌≤◌, ◌^◌, ℕ, false, List, length, IsTrue, MatchOption};
ghost use Rattle.std.specs.List.{All};
ghost use Rattle.pmem_lines.specs.Words.{word_at};
ghost use Rattle.pool_layout.specs.Layout.{layout_of};
ghost use Rattle.pool_layout.specs.Places.{chunk_word};
ghost use Rattle.pool_layout.specs.Header.{version_in, granules_in};
ghost use Rattle.book_log.specs.Log.{IsChunk, logged};
ghost use Rattle.book_log.specs.Entry.{IsEntryWord, IsNoEntryWord};
ghost use Rattle.book_log.specs.Book.{chunks_of, AreWithin};
ghost use Rattle.image_defects.specs.Least.{HasNone, IsLeast};
ghost use Rattle.image_defects.specs.Log.{HasDirectory, HasEntries, HasEntry, IsBadLogWord, IsFirstEntry};

use book_log::{active_chunks, log_entry_of};
use image_defects::LogPlace;
use image_reading::word_at;
use pool_layout::{directory_at, entry_at, fields_at, layout_of};

// How many entries a chunk has.
fn entries_of(words: &[u64], version: u32) -> u32
    requires { version ≡ version_in words.now }
    ensures { result ≡ (layout_of (version_in words.now)).chunk_entries }
{
    layout_of(version).chunk_entries
}

// The word of an entry.
fn logged(words: &[u64], version: u32, chunk: u32, entry: u32) -> u64
    requires version { version ≡ version_in words.now }
    requires chunk { chunk < 16 }
    requires entry { entry < (layout_of (version_in words.now)).chunk_entries }
    requires inside { chunk_word (version_in words.now) (chunk + 1) ≤ length words.now }
    ensures { result ≡ logged (version_in words.now) words.now chunk entry }
{
    word_at(words, entry_at(version, chunk, entry))
}

// The word is that of an entry.
fn is_entry(words: &[u64], version: u32, granules: u32, word: u64) -> bool
    requires version { version ≡ version_in words.now }
    requires granules { granules ≡ granules_in words.now }
    ensures entry { IsTrue result → HasEntry words.now word }
    ensures none { result ≡ false → IsNoEntryWord (layout_of (version_in words.now)).first_granule (granules_in words.now) word }
{
    let layout = layout_of(version);
    match log_entry_of(word, layout.first_granule, granules) {
        Some(_) => true,
        None => false,
    }
}

// The first word of a chunk that is no entry or follows a 0.
fn bad_in_chunk(words: &[u64], version: u32, granules: u32, chunk: u32) -> Option<u32>
    requires version { version ≡ version_in words.now }
    requires granules { granules ≡ granules_in words.now }
    requires chunk { chunk < 16 }
    requires inside { chunk_word (version_in words.now) (chunk + 1) ≤ length words.now }
    ensures { MatchOption result (IsChunk (version_in words.now) (granules_in words.now) words.now chunk) (IsLeast (IsBadLogWord words.now chunk)) }
{
    let mut filled = true;
    for entry in 0..entries_of(words, version) {
        let word = logged(words, version, chunk, entry);
        if word == 0 {
            filled = false;
        } else {
            if !filled {
                return Some(entry);
            }
            if !is_entry(words, version, granules, word) {
                return Some(entry);
            }
        }
    }
    None
}

/// The first word of the log, in its order, that is no entry or follows a 0 in its chunk: the chunk's number, and that of
/// the entry, and the word. The directory is well formed, and the chunks lie inside.
pub fn bad_entry(words: &[u64], version: u32, granules: u32) -> Option<LogPlace>
    requires version { version ≡ version_in words.now }
    requires granules { granules ≡ granules_in words.now }
    requires directory { HasDirectory words.now }
    requires whole { 2 < length words.now }
    requires inside { AreWithin words.now }
    ensures { MatchOption result (HasEntries words.now) (IsFirstEntry words.now) }
{
    let directory = active_chunks(word_at(words, directory_at()));
    let chunks = directory.as_slice();
    for k in 0..chunks.len() {
        let chunk = chunks[k];
        if let Some(entry) = bad_in_chunk(words, version, granules, chunk) {
            return Some(LogPlace {
                chunk,
                entry,
                value: logged(words, version, chunk, entry),
            });
        }
    }
    None
}
