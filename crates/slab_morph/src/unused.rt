// Which blocks of a slab's class may be given out.
ghost use Rattle.std.specs.Prelude.{◌≡◌, ◌↔◌, ◌⊎◌, IsTrue, ℕ, ◌+◌, ◌*◌, ◌/◌, ◌%◌, ◌<◌, ◌≤◌, true, false, length};
ghost use Rattle.bit_words.specs.Numbers.{has};
ghost use Rattle.size_classes.specs.Classes.{class_capacity};
ghost use Rattle.pmem_lines.specs.Words.{word_at};
ghost use Rattle.pmem_lines.specs.Pmem.{words_of};
ghost use Rattle.image_tables.specs.Forms.{IsStateWord};
ghost use Rattle.image_tables.specs.Tables.{is_slab, state_word, tables_of};
ghost use Rattle.heap_model.specs.Machine.{AreApart, slab_block};
ghost use Rattle.heap_check.specs.Heap.{IsUnusedIn};
ghost use Rattle.heap_check.specs.Sound.{IsValidSlab};
ghost use Rattle.slab_morph.specs.Overlaps.{IsCoveredRange};
ghost use Rattle.slab_morph.specs.SlabHeaders.{header_at, IsSlabHere};

use crate::held::{Fields, fields_of, live_at, number_at, state_at};
use crate::overlap::overlaps;
use bit_words::put;
use pmem_lines::Pmem;
use slab_header::{bit_at, set_bits};

// How many words a set of 4096 numbers has.
const SET_WORDS: usize = 64;

/// Whether block `number` of its class in the slab that begins at byte `slab` is unused: it shares no byte with a block that
/// the slab holds, of its class or old. `number` is below the capacity of the class.
pub fn is_unused<P: Pmem>(p: &P, slab: u32, number: u32) -> bool
    requires here { IsSlabHere (words_of (P.state p.now)) slab }
    requires number { number < class_capacity (((tables_of (words_of (P.state p.now))).header (slab / 16384)).class) }
    ensures { let t = tables_of (words_of (P.state p.now)) in IsTrue result ↔ IsUnusedIn t (slab / 16384) (t.header (slab / 16384)).class number }
{
    let state = fields_of(state_at(p, slab));
    !is_marked(p, slab, state, number) && !is_covered(p, slab, state, number)
}

// Whether the bit of a block is read, and set.
fn is_marked<P: Pmem>(p: &P, slab: u32, state: Fields, number: u32) -> bool
    requires aligned { slab % 16384 ≡ 0 }
    requires inside { slab + 2048 ≤ 8 * length (words_of (P.state p.now)) }
    requires number { number < 4096 }
    ensures { IsTrue result ↔ (IsTrue state.reads_bits × ((header_at (words_of (P.state p.now)) (slab / 16384)).bit number ≡ true)) }
{
    state.reads_bits && bit_at(p, slab, number)
}

// Whether a live old block overlaps block `number` of the slab's class.
fn is_covered<P: Pmem>(p: &P, slab: u32, state: Fields, number: u32) -> bool
    requires aligned { slab % 16384 ≡ 0 }
    requires inside { slab + 2048 ≤ 8 * length (words_of (P.state p.now)) }
    requires class { state.class < 36 }
    requires old { state.old < 36 }
    requires few { state.entries ≤ 64 }
    requires number { number < class_capacity state.class }
    requires numbers { (place : ℕ) → place < state.entries → (header_at (words_of (P.state p.now)) (slab / 16384)).number place < class_capacity state.old }
    ensures some { let h = header_at (words_of (P.state p.now)) (slab / 16384) in result ≡ true → (place : ℕ) × (place < state.entries) × (h.live place ≡ true) × ¬ (AreApart (slab_block (slab / 16384) state.old (h.number place)) (slab_block (slab / 16384) state.class number)) }
    ensures none { let h = header_at (words_of (P.state p.now)) (slab / 16384) in result ≡ false → (place : ℕ) → place < state.entries → h.live place ≡ true → AreApart (slab_block (slab / 16384) state.old (h.number place)) (slab_block (slab / 16384) state.class number) }
{
    for place in 0..state.entries {
        let (from, end) = covered(p, slab, state, place);
        if from <= number && number < end {
            return true;
        }
    }
    false
}

// The blocks of the slab's class that the old block at a place of the index table overlaps, where it lives: the first one's
// number, and one past the last one's.
fn covered<P: Pmem>(p: &P, slab: u32, state: Fields, place: u32) -> (u32, u32)
    requires aligned { slab % 16384 ≡ 0 }
    requires inside { slab + 2048 ≤ 8 * length (words_of (P.state p.now)) }
    requires class { state.class < 36 }
    requires old { state.old < 36 }
    requires place { place < 64 }
    requires small { (header_at (words_of (P.state p.now)) (slab / 16384)).number place < class_capacity state.old }
    ensures { IsCoveredRange (header_at (words_of (P.state p.now)) (slab / 16384)) (slab / 16384) state.old state.class place result.0 result.1 }
{
    if !live_at(p, slab, place) {
        return (0, 0);
    }
    overlaps(state.old, number_at(p, slab, place), state.class)
}

/// The blocks of its class in the slab that begins at byte `slab` that are not unused, as a set of numbers. Its bitmap is
/// read by words, and each old block once.
pub fn used_blocks<P: Pmem>(p: &P, slab: u32) -> [u64; SET_WORDS]
    requires { IsSlabHere (words_of (P.state p.now)) slab }
    ensures size { length result ≡ 64 }
    ensures unused { let t = tables_of (words_of (P.state p.now)) in (i : ℕ) → i < class_capacity (t.header (slab / 16384)).class → (has result i ≡ false) ↔ IsUnusedIn t (slab / 16384) (t.header (slab / 16384)).class i }
{
    let state = fields_of(state_at(p, slab));
    let mut used = marked_blocks(p, slab, state);
    for place in 0..state.entries {
        let (from, end) = covered(p, slab, state, place);
        put_range(&mut used, from, end);
    }
    used
}

// The blocks whose bits are read, and set.
fn marked_blocks<P: Pmem>(p: &P, slab: u32, state: Fields) -> [u64; SET_WORDS]
    requires aligned { slab % 16384 ≡ 0 }
    requires inside { slab + 2048 ≤ 8 * length (words_of (P.state p.now)) }
    ensures size { length result ≡ 64 }
    ensures marked { (i : ℕ) → i < 4096 → (has result i ≡ true) ↔ (IsTrue state.reads_bits × ((header_at (words_of (P.state p.now)) (slab / 16384)).bit i ≡ true)) }
{
    if state.reads_bits {
        set_bits(p, slab)
    } else {
        [0; SET_WORDS]
    }
}

// Puts the numbers from one on and before another into the set.
fn put_range(used: &mut [u64], from: u32, end: u32)
    requires size { length used.old ≡ 64 }
    requires end { end ≤ 4096 }
    ensures size { length used.new ≡ 64 }
    ensures inside { (i : ℕ) → from ≤ i → i < end → has used.new i ≡ true }
    ensures outside { (i : ℕ) → (i < from) ⊎ (end ≤ i) → has used.new i ≡ has used.old i }
{
    for i in from..end {
        put(used, i, true);
    }
}
