// Whether a slab may take another class.
ghost use Rattle.std.specs.Prelude.{◌≡◌, ◌↔◌, ℕ, ◌+◌, ◌*◌, ◌/◌, ◌%◌, ◌<◌, ◌≤◌, IsTrue, true, false, length};
ghost use Rattle.size_classes.specs.Classes.{class_capacity};
ghost use Rattle.pmem_lines.specs.Words.{word_at};
ghost use Rattle.pmem_lines.specs.Pmem.{words_of};
ghost use Rattle.image_tables.specs.Forms.{IsStateWord};
ghost use Rattle.image_tables.specs.Tables.{is_slab, state_word, tables_of};
ghost use Rattle.heap_model.specs.Choice.{IsFit};
ghost use Rattle.slab_header.specs.Morph.{numbers_below};
ghost use Rattle.slab_morph.specs.SlabHeaders.{header_at};
ghost use Rattle.slab_morph.specs.Fitness.{held_view, IsFitHeader, IsClearOfBits};

use crate::held::{count_bits, fields_of, has_bit, has_live, state_at};
use crate::overlap::overlaps;
use pmem_lines::Pmem;
use size_classes::capacity;

// At most so many blocks live in a slab that takes another class.
const MOST_OLD: u32 = 64;
// So many times as many fit into it.
const TIMES: u32 = 5;

/// Whether the slab that begins at this byte, a multiple of 16384, is fit for a class, below 36, by the blocks that it
/// holds: it is not in transition and has another class; it holds at most 64 blocks, and at most a fifth of what fits into
/// it; and some block of the class overlaps none of them. Its state word is a valid one.
pub fn fit<P: Pmem>(p: &P, slab: u32, class: u8) -> bool
    requires aligned { slab % 16384 ≡ 0 }
    requires inside { slab + 2048 ≤ 8 * length (words_of (P.state p.now)) }
    requires class { class < 36 }
    requires valid { IsStateWord (word_at (words_of (P.state p.now)) (state_word (slab / 16384))) }
    ensures fit { IsTrue result ↔ IsFitHeader (header_at (words_of (P.state p.now)) (slab / 16384)) (slab / 16384) class }
    ensures table { is_slab (words_of (P.state p.now)) (slab / 16384) ≡ true → IsTrue result ↔ IsFit (held_view (tables_of (words_of (P.state p.now)))) class (slab / 16384) }
{
    let state = fields_of(state_at(p, slab));
    if state.class == class || has_live(p, slab, state.entries) {
        return false;
    }
    !state.reads_bits || is_sparse(p, slab, state.class) && has_room(p, slab, state.class, class)
}

// Whether few of the blocks of a class have their bit set: at most 64, and at most a fifth of them.
fn is_sparse<P: Pmem>(p: &P, slab: u32, class: u8) -> bool
    requires aligned { slab % 16384 ≡ 0 }
    requires inside { slab + 2048 ≤ 8 * length (words_of (P.state p.now)) }
    requires class { class < 36 }
    ensures { let count = length (numbers_below (header_at (words_of (P.state p.now)) (slab / 16384)).bit (class_capacity class)) in IsTrue result ↔ ((count ≤ 64) × (5 * count ≤ class_capacity class)) }
{
    let count = count_bits(p, slab, class);
    count <= MOST_OLD && TIMES * count <= capacity(class)
}

// Whether some block of a class overlaps no block of the slab's own class whose bit is set.
fn has_room<P: Pmem>(p: &P, slab: u32, own: u8, class: u8) -> bool
    requires aligned { slab % 16384 ≡ 0 }
    requires inside { slab + 2048 ≤ 8 * length (words_of (P.state p.now)) }
    requires own { own < 36 }
    requires class { class < 36 }
    ensures some { result ≡ true → (j : ℕ) × IsClearOfBits (header_at (words_of (P.state p.now)) (slab / 16384)) (slab / 16384) own class j }
    ensures none { result ≡ false → (j : ℕ) → ¬ (IsClearOfBits (header_at (words_of (P.state p.now)) (slab / 16384)) (slab / 16384) own class j) }
{
    for j in 0..capacity(class) {
        let (from, end) = overlaps(class, j, own);
        if !has_bit(p, slab, from, end) {
            return true;
        }
    }
    false
}
