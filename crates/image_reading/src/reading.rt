// What the words of an arena say, read one by one.
ghost use Rattle.std.specs.Prelude.{◌≡◌, Some, ℕ, ◌+◌, ◌*◌, ◌/◌, ◌%◌, ◌^◌, ◌<◌, ◌≤◌, List, length, if◌then◌else◌};
ghost use Rattle.pmem_lines.specs.Words.{word_at};
ghost use Rattle.pool_layout.specs.Layout.{layout_of};
ghost use Rattle.pool_layout.specs.Places.{wal_word, granule_word, line_place};
ghost use Rattle.pool_layout.specs.Header.{version_in};
ghost use Rattle.image_tables.specs.Tables.{bit_of_word, held_of, index_word, state_word, is_slab, is_slab_of, large_of, state_field, tables_of};
ghost use Rattle.book_log.specs.Book.{Reads};
ghost use Rattle.heap_check.specs.Sound.{granules_at};
ghost use Rattle.image_reading.specs.Slabs.{IsSlabAt};

use book_log::BookLog;
use image_tables::{Extent, WalEntry};
use interleaved_bitmap::bit_place;
use pool_layout::{fields_at, granule_at, index_at, layout_of, root_at, slab_header_at, wal_at};

/// The word that begins at this byte.
pub fn word_at(words: &[u64], at: u32) -> u64
    requires aligned { at % 8 ≡ 0 }
    requires inside { at / 8 < length words.now }
    ensures { result ≡ word_at words.now (at / 8) }
{
    words[(at / 8) as usize]
}

/// The state word of a slab.
pub fn state_word(words: &[u64], start: u32) -> u64
    requires { IsSlabAt words.now start }
    ensures { result ≡ word_at words.now (state_word start) }
{
    word_at(words, granule_at(start))
}

/// The word of a place of the index table of a slab.
pub fn index_word(words: &[u64], start: u32, place: u32) -> u64
    requires slab { IsSlabAt words.now start }
    requires place { place < 64 }
    ensures { result ≡ word_at words.now (index_word start place) }
{
    word_at(words, index_at(granule_at(start), place))
}

/// The word of a write-ahead line.
pub fn wal_word(words: &[u64], line: u32) -> u64
    requires line { line < 8 }
    requires inside { wal_word line < length words.now }
    ensures { result ≡ word_at words.now (wal_word line) }
{
    word_at(words, wal_at(line))
}

/// Word `word` of a slab's bitmap, from 0 to 63: lines 1 to 8 of the header have a word each, in turn.
pub fn bitmap_word(words: &[u64], start: u32, word: u32) -> u64
    requires slab { IsSlabAt words.now start }
    requires word { word < 64 }
    ensures { result ≡ word_at words.now (granule_word start + line_place (1 + word % 8) (word / 8)) }
{
    word_at(
        words,
        slab_header_at(granule_at(start), 1 + word % 8, word / 8),
    )
}

/// Bit `k` of a word, from 0 to 63.
pub fn bit_of(word: u64, k: u32) -> bool
    requires { k < 64 }
    ensures { result ≡ bit_of_word word k }
{
    (word >> k) % 2 == 1
}

/// The bit of a block of a slab.
pub fn bit_at(words: &[u64], start: u32, i: u32) -> bool
    requires slab { IsSlabAt words.now start }
    requires block { i < 4096 }
    ensures { result ≡ ((tables_of words.now).header start).bit i }
{
    let (line, bit) = bit_place(i);
    let word = word_at(words, slab_header_at(granule_at(start), line, bit / 64));
    (word >> (bit % 64)) % 2 == 1
}

/// A place of the index table of a slab: whether its block lives.
pub fn live_at(words: &[u64], start: u32, place: u32) -> bool
    requires slab { IsSlabAt words.now start }
    requires place { place < 64 }
    ensures { result ≡ ((tables_of words.now).header start).live place }
{
    word_at(words, index_at(granule_at(start), place)) % 2 == 1
}

/// A place of the index table of a slab: the number of its block.
pub fn number_at(words: &[u64], start: u32, place: u32) -> u32
    requires slab { IsSlabAt words.now start }
    requires place { place < 64 }
    ensures { result ≡ ((tables_of words.now).header start).number place }
{
    ((word_at(words, index_at(granule_at(start), place)) >> 16) % 65536) as u32
}

/// How many roots there are.
pub fn roots_of(words: &[u64]) -> u32
    requires { 1 < length words.now }
    ensures count { result ≡ (layout_of (version_in words.now)).roots }
    ensures few { result < 2 ^ 16 }
{
    let layout = layout_of((word_at(words, fields_at()) % 65536) as u32);
    layout.roots
}

/// The word of a root, 0 past the last one.
pub fn root_word(words: &[u64], root: u32) -> u64
    requires { 2048 + (layout_of (version_in words.now)).roots ≤ length words.now }
    ensures { result ≡ (tables_of words.now).word root }
{
    if root >= roots_of(words) {
        return 0;
    }
    word_at(words, root_at(root))
}

// What a root holds while a move entry is open.
fn moved_word(words: &[u64], from: u32, to: u32, root: u32) -> u64
    requires { 2048 + (layout_of (version_in words.now)).roots ≤ length words.now }
    ensures { result ≡ held_of (Some (WalEntry.Move from to)) (tables_of words.now).word root }
{
    if root != from {
        return root_word(words, root);
    }
    if root_word(words, to) > 0 {
        return 0;
    }
    root_word(words, root)
}

// What a root holds while an entry is open.
fn held_under(words: &[u64], entry: WalEntry, root: u32) -> u64
    requires { 2048 + (layout_of (version_in words.now)).roots ≤ length words.now }
    ensures { result ≡ held_of (Some entry) (tables_of words.now).word root }
{
    match entry {
        WalEntry::Place { .. } => root_word(words, root),
        WalEntry::Move { from, to } => moved_word(words, from, to, root),
    }
}

/// What a root holds, by the open entry: its word, or 0 where its block has moved on.
pub fn held_root(words: &[u64], entry: Option<WalEntry>, root: u32) -> u64
    requires entry { (tables_of words.now).open_entry ≡ entry }
    requires inside { 2048 + (layout_of (version_in words.now)).roots ≤ length words.now }
    ensures { result ≡ (tables_of words.now).root root }
{
    match entry {
        None => root_word(words, root),
        Some(open) => held_under(words, open, root),
    }
}

/// A slab starts at a granule.
pub fn is_slab(log: &BookLog, start: u32) -> bool
    ensures { (words : List ℕ) → Reads log.now words → result ≡ is_slab words start }
{
    match log.extent_at(start) {
        Some(Extent::Slab) => true,
        _ => false,
    }
}

// How many granules a large extent has.
fn large_of(extent: Option<Extent>) -> u32
    ensures { result ≡ large_of extent }
{
    match extent {
        Some(Extent::Large { granules }) => granules,
        _ => 0,
    }
}

/// How many granules the large extent has that starts at a granule.
pub fn large_at(log: &BookLog, start: u32) -> u32
    ensures { (words : List ℕ) → Reads log.now words → result ≡ (tables_of words).large start }
{
    large_of(log.extent_at(start))
}

// How many granules an extent has.
fn granules_of(extent: Option<Extent>) -> u32
    ensures { result ≡ (if is_slab_of extent then 4 else large_of extent) }
{
    match extent {
        Some(Extent::Large { granules }) => granules,
        Some(Extent::Slab) => 4,
        None => 0,
    }
}

/// How many granules the live extent has that starts at a granule.
pub fn granules_at(log: &BookLog, start: u32) -> u32
    ensures { (words : List ℕ) → Reads log.now words → result ≡ granules_at (tables_of words) start }
{
    granules_of(log.extent_at(start))
}

/// A field of the state word of a slab, from this bit on.
pub fn state_field(words: &[u64], start: u32, bits: u32) -> u32
    requires slab { IsSlabAt words.now start }
    requires bits { bits < 64 }
    ensures { result ≡ state_field words.now start bits }
{
    ((word_at(words, granule_at(start)) >> bits) % 256) as u32
}
