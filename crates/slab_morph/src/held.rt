// What a slab holds, read from its header.
ghost use Rattle.std.specs.Prelude.{◌≡◌, ◌≢◌, ◌↔◌, IsTrue, ℕ, ◌+◌, ◌*◌, ◌/◌, ◌%◌, ◌^◌, ◌<◌, ◌≤◌, true, false, length};
ghost use Rattle.size_classes.specs.Classes.{class_capacity};
ghost use Rattle.pmem_lines.specs.Words.{word_at};
ghost use Rattle.pmem_lines.specs.Pmem.{words_of};
ghost use Rattle.image_tables.specs.Forms.{IsStateWord, morphing_kind};
ghost use Rattle.image_tables.specs.Tables.{state_word};
ghost use Rattle.slab_header.specs.State.{kind_of, class_of, old_of, entries_of, IsValidState};
ghost use Rattle.slab_header.specs.Morph.{numbers_below};
ghost use Rattle.slab_morph.specs.SlabHeaders.{IsHeaderIn, header_at, HasStateWord};

use pmem_lines::Pmem;
use pool_layout::{index_at, slab_header_at};
use size_classes::capacity;
use slab_header::{SlabState, bit_at, state_of};

// The state of the slab that begins at this byte, whose state word is one.
pub fn state_at<P: Pmem>(p: &P, slab: u32) -> SlabState
    requires header { IsHeaderIn (words_of (P.state p.now)) slab }
    requires valid { IsStateWord (word_at (words_of (P.state p.now)) (state_word (slab / 16384))) }
    ensures says { HasStateWord (header_at (words_of (P.state p.now)) (slab / 16384)) result }
    ensures valid { IsValidState result }
{
    match state_of(p.load(slab_header_at(slab, 0, 0))) {
        Some(state) => state,
        // The word is a state word.
        None => SlabState::Normal { class: 0 },
    }
}

// Of a slab's state what decides what it holds: its class, that of its old blocks, how many entries of its index table are
// read, and whether its bits are.
#[derive(Clone, Copy)]
pub struct Fields {
    pub class: u8,
    pub old: u8,
    pub entries: u32,
    pub reads_bits: bool,
}

pub fn fields_of(state: SlabState) -> Fields
    requires { IsValidState state }
    ensures class { result.class ≡ class_of state }
    ensures old { result.old ≡ old_of state }
    ensures entries { result.entries ≡ entries_of state }
    ensures few { result.entries ≤ 64 }
    ensures reads_bits { IsTrue result.reads_bits ↔ (kind_of state ≢ morphing_kind) }
{
    match state {
        SlabState::Normal { class } => Fields {
            class,
            old: 0,
            entries: 0,
            reads_bits: true,
        },
        SlabState::Morphing {
            class,
            old,
            entries,
        } => transit_fields(class, old, entries, false),
        SlabState::Morphed {
            class,
            old,
            entries,
        } => transit_fields(class, old, entries, true),
    }
}

// Those of a slab in transition.
fn transit_fields(class: u8, old: u8, entries: u8, reads_bits: bool) -> Fields
    ensures class { result.class ≡ class }
    ensures old { result.old ≡ old }
    ensures entries { result.entries ≡ entries }
    ensures reads_bits { result.reads_bits ≡ reads_bits }
{
    Fields {
        class,
        old,
        entries: u32::from(entries),
        reads_bits,
    }
}

// How many of the blocks of a class have their bit set.
pub fn count_bits<P: Pmem>(p: &P, slab: u32, class: u8) -> u32
    requires header { IsHeaderIn (words_of (P.state p.now)) slab }
    requires class { class < 36 }
    ensures count { result ≡ length (numbers_below (header_at (words_of (P.state p.now)) (slab / 16384)).bit (class_capacity class)) }
    ensures few { result ≤ 3968 }
{
    let mut count = 0;
    for i in 0..capacity(class) {
        if bit_at(p, slab, i) {
            count += 1;
        }
    }
    count
}

// Whether the bit of some block is set, from one on and before another.
pub fn has_bit<P: Pmem>(p: &P, slab: u32, from: u32, end: u32) -> bool
    requires header { IsHeaderIn (words_of (P.state p.now)) slab }
    requires end { end ≤ 4096 }
    ensures some { result ≡ true → (i : ℕ) × (from ≤ i) × (i < end) × ((header_at (words_of (P.state p.now)) (slab / 16384)).bit i ≡ true) }
    ensures none { result ≡ false → (i : ℕ) → from ≤ i → i < end → (header_at (words_of (P.state p.now)) (slab / 16384)).bit i ≡ false }
{
    for i in from..end {
        if bit_at(p, slab, i) {
            return true;
        }
    }
    false
}

// Whether one of the first entries of the index table lives, of which there are at most 64.
pub fn has_live<P: Pmem>(p: &P, slab: u32, entries: u32) -> bool
    requires header { IsHeaderIn (words_of (P.state p.now)) slab }
    requires entries { entries ≤ 64 }
    ensures some { result ≡ true → (place : ℕ) × (place < entries) × ((header_at (words_of (P.state p.now)) (slab / 16384)).live place ≡ true) }
    ensures none { result ≡ false → (place : ℕ) → place < entries → (header_at (words_of (P.state p.now)) (slab / 16384)).live place ≡ false }
{
    for place in 0..entries {
        if live_at(p, slab, place) {
            return true;
        }
    }
    false
}

// Whether the entry at a place of the index table lives.
pub fn live_at<P: Pmem>(p: &P, slab: u32, place: u32) -> bool
    requires header { IsHeaderIn (words_of (P.state p.now)) slab }
    requires place { place < 64 }
    ensures { result ≡ (header_at (words_of (P.state p.now)) (slab / 16384)).live place }
{
    p.load(index_at(slab, place)) % 2 == 1
}

// The number that the entry at a place of the index table has.
pub fn number_at<P: Pmem>(p: &P, slab: u32, place: u32) -> u32
    requires header { IsHeaderIn (words_of (P.state p.now)) slab }
    requires place { place < 64 }
    ensures { result ≡ (header_at (words_of (P.state p.now)) (slab / 16384)).number place }
{
    ((p.load(index_at(slab, place)) >> 16) % 65536) as u32
}
