// Blocks that a slab holds and that are the block of no root.
ghost use Rattle.std.specs.Prelude.{◌≡◌, ◌↔◌, ◌+◌, ◌/◌, ◌%◌, ◌^◌, ◌<◌, IsTrue, MatchOption};
ghost use Rattle.size_classes.specs.Classes.{class_capacity};
ghost use Rattle.pmem_lines.specs.Words.{word_at};
ghost use Rattle.pool_layout.specs.Places.{granule_word, line_place};
ghost use Rattle.image_tables.specs.Tables.{Tables, tables_of};
ghost use Rattle.heap_model.specs.Machine.{slab_block};
ghost use Rattle.slab_header.specs.State.{class_of, old_of, entries_of};
ghost use Rattle.image_defects.specs.Least.{IsLeast, IsLeastOf};
ghost use Rattle.defect_search.specs.Claims.{IsRising, AreBlocks};
ghost use Rattle.image_defects.specs.Blocks.{IsRooted};
ghost use Rattle.image_reading.specs.Slabs.{IsRead, AreSlabs};
ghost use Rattle.image_defects.specs.Blocks.{AreRooted};
ghost use Rattle.defect_search.specs.Stray.{number_in, IsStrayBlock, IsStrayInWord, IsStrayBit, IsStrayPlace, IsStrayOld};
ghost use Rattle.image_defects.specs.Blocks.{IsStray, IsStrayAddress};

use crate::Claim;
use crate::claim::has_block;
use crate::least::lesser;
use image_reading::{Slab, bit_of, bitmap_word, block_at, live_at, number_at};
use size_classes::{capacity, size_of_class};
use slab_header::SlabState;

// No root has the block.
fn is_stray(sorted: &[Claim], start: u32, class: u8, i: u32) -> bool
    requires start { start < 2 ^ 16 }
    requires class { class < 36 }
    requires block { i < class_capacity class }
    requires rising { IsRising sorted.now }
    ensures { (t : Tables) → AreBlocks t sorted.now → (IsTrue result ↔ ¬ (IsRooted t (slab_block start class i))) }
{
    let at = block_at(start, class, i);
    !has_block(sorted, u64::from(at), u64::from(size_of_class(class)))
}

// The block of a bit of a word of the bitmap.
fn number_in(word: u32, bit: u32) -> u32
    requires word { word < 64 }
    requires bit { bit < 64 }
    ensures { result ≡ number_in word bit }
{
    512 * (word / 8) + 8 * bit + word % 8
}

// The bit of a word of the bitmap, which has this value, is set, and no root has its block.
fn is_stray_bit(
    words: &[u64],
    sorted: &[Claim],
    slab: Slab,
    class: u8,
    word: u32,
    value: u64,
    bit: u32,
) -> bool
    requires slab { IsRead words.now slab }
    requires class { class_of slab.state ≡ class }
    requires is_class { class < 36 }
    requires word { word < 64 }
    requires bit { bit < 64 }
    requires value { value ≡ word_at words.now (granule_word slab.start + line_place (1 + word % 8) (word / 8)) }
    requires blocks { AreBlocks (tables_of words.now) sorted.now }
    ensures { IsTrue result ↔ IsStrayBlock (tables_of words.now) slab.start (number_in word bit) }
{
    if !bit_of(value, bit) {
        return false;
    }
    let number = number_in(word, bit);
    if number >= capacity(class) {
        return false;
    }
    is_stray(sorted, slab.start, class, number)
}

// Of the blocks whose bits a word of the bitmap has.
fn stray_in_word(words: &[u64], sorted: &[Claim], slab: Slab, class: u8, word: u32) -> Option<u32>
    requires slab { IsRead words.now slab }
    requires class { class_of slab.state ≡ class }
    requires is_class { class < 36 }
    requires word { word < 64 }
    requires blocks { AreBlocks (tables_of words.now) sorted.now }
    ensures { IsLeastOf (IsStrayInWord (tables_of words.now) slab.start word) result }
{
    let value = bitmap_word(words, slab.start, word);
    if value == 0 {
        return None;
    }
    for bit in 0..64u32 {
        if is_stray_bit(words, sorted, slab, class, word, value, bit) {
            return Some(block_at(slab.start, class, number_in(word, bit)));
        }
    }
    None
}

// Of the blocks of set bits, word by word: words without a bit are passed over.
fn stray_among_bits(words: &[u64], sorted: &[Claim], slab: Slab, class: u8) -> Option<u32>
    requires slab { IsRead words.now slab }
    requires class { class_of slab.state ≡ class }
    requires is_class { class < 36 }
    requires blocks { AreBlocks (tables_of words.now) sorted.now }
    ensures { IsLeastOf (IsStrayBit (tables_of words.now) slab.start) result }
{
    let mut least = None;
    for word in 0..64u32 {
        let here = stray_in_word(words, sorted, slab, class, word);
        least = lesser(least, here);
    }
    least
}

// The block of one index entry.
fn stray_at_place(words: &[u64], sorted: &[Claim], slab: Slab, old: u8, place: u32) -> Option<u32>
    requires slab { IsRead words.now slab }
    requires old { old_of slab.state ≡ old }
    requires is_class { old < 36 }
    requires place { place < entries_of slab.state }
    requires blocks { AreBlocks (tables_of words.now) sorted.now }
    ensures { IsLeastOf (IsStrayPlace (tables_of words.now) slab.start place) result }
{
    let number = number_at(words, slab.start, place);
    if live_at(words, slab.start, place) && is_stray(sorted, slab.start, old, number) {
        Some(block_at(slab.start, old, number))
    } else {
        None
    }
}

// Of the blocks of live index entries.
fn stray_among_old(words: &[u64], sorted: &[Claim], slab: Slab, old: u8, entries: u8) -> Option<u32>
    requires slab { IsRead words.now slab }
    requires old { old_of slab.state ≡ old }
    requires is_class { old < 36 }
    requires entries { entries_of slab.state ≡ entries }
    requires blocks { AreBlocks (tables_of words.now) sorted.now }
    ensures { IsLeastOf (IsStrayOld (tables_of words.now) slab.start entries) result }
{
    let mut least = None;
    for place in 0..u32::from(entries) {
        let here = stray_at_place(words, sorted, slab, old, place);
        least = lesser(least, here);
    }
    least
}

// Of the blocks that a slab holds.
fn stray_in_slab(words: &[u64], sorted: &[Claim], slab: Slab) -> Option<u32>
    requires slab { IsRead words.now slab }
    requires blocks { AreBlocks (tables_of words.now) sorted.now }
    ensures { IsLeastOf (IsStray (tables_of words.now) slab.start) result }
{
    match slab.state {
        SlabState::Normal { class } => stray_among_bits(words, sorted, slab, class),
        SlabState::Morphing { old, entries, .. } => {
            stray_among_old(words, sorted, slab, old, entries)
        }
        SlabState::Morphed {
            class,
            old,
            entries,
        } => lesser(
            stray_among_bits(words, sorted, slab, class),
            stray_among_old(words, sorted, slab, old, entries),
        ),
    }
}

/// The lowest address of a block that a slab holds and that is the block of no root. `slabs` has all slabs, and `sorted`
/// the blocks of all roots by rising address.
pub fn stray_bit(words: &[u64], slabs: &[Slab], sorted: &[Claim]) -> Option<u32>
    requires slabs { AreSlabs words.now slabs.now }
    requires blocks { AreBlocks (tables_of words.now) sorted.now }
    ensures { MatchOption result (AreRooted (tables_of words.now)) (IsLeast (IsStrayAddress (tables_of words.now))) }
{
    let mut least = None;
    for i in 0..slabs.len() {
        let here = stray_in_slab(words, sorted, slabs[i]);
        least = lesser(least, here);
    }
    least
}
