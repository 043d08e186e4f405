// The blocks of a slab go into its index table, as old blocks.
ghost use Rattle.std.specs.Prelude.{◌≡◌, ℕ, ◌+◌, ◌*◌, ◌/◌, ◌%◌, ◌<◌, ◌≤◌, min, length};
ghost use Rattle.pmem_lines.specs.Words.{word_at};
ghost use Rattle.pmem_lines.specs.Events.{IsQuiet};
ghost use Rattle.pmem_lines.specs.Steps.{IsQuietStep};
ghost use Rattle.pmem_lines.specs.Pmem.{words_of, HasRoom, Appends};
ghost use Rattle.image_tables.specs.Forms.{IsIndexWord};
ghost use Rattle.image_tables.specs.Tables.{index_word};
ghost use Rattle.slab_header.specs.Morph.{index_stores, index_events};
ghost use Rattle.slab_morph.specs.SlabHeaders.{header_at};
ghost use Rattle.slab_morph.specs.Stages.{numbers_of, with_index, IsOffIndex, Changes};

use durable_steps::flush_lines;
use pmem_lines::Pmem;
use pool_layout::index_at;
use size_classes::capacity;
use slab_header::{IndexEntry, bit_at, index_word};

// The lines of the index table, and the first of them in the header.
const TABLE_LINES: u32 = 8;

const INDEX_LINE: u32 = 9;

// Puts the blocks of the slab's class, which are at most 64, into its index table, durably: those whose bits are set, by
// rising number, from place 0 on. Answers how many. A normal slab's index table is not read.
pub fn index_old_blocks<P: Pmem>(p: &mut P, slab: u32, class: u8) -> u8
    requires aligned { slab % 16384 ≡ 0 }
    requires inside { slab + 2048 ≤ 8 * length (words_of (P.state p.old)) }
    requires class { class < 36 }
    requires few { length (numbers_of (header_at (words_of (P.state p.old)) (slab / 16384)) class) ≤ 64 }
    requires quiet { IsQuiet (P.state p.old).events }
    requires room { let count = length (numbers_of (header_at (words_of (P.state p.old)) (slab / 16384)) class) in HasRoom (P.state p.old) (count + min count 8 + 1) }
    ensures step { IsQuietStep (P.state p.old) (P.state p.new) (index_events (slab / 16384) (numbers_of (header_at (words_of (P.state p.old)) (slab / 16384)) class)) (IsOffIndex (words_of (P.state p.old)) (slab / 16384)) }
    ensures count { result ≡ length (numbers_of (header_at (words_of (P.state p.old)) (slab / 16384)) class) }
    ensures indexed { Changes (words_of (P.state p.old)) (words_of (P.state p.new)) (slab / 16384) (λ h. with_index h (numbers_of h class)) }
    ensures others { IsOffIndex (words_of (P.state p.old)) (slab / 16384) (words_of (P.state p.new)) }
    ensures entries { (place : ℕ) → place < result → IsIndexWord (word_at (words_of (P.state p.new)) (index_word (slab / 16384) place)) }
{
    let count = store_old_blocks(p, slab, class);
    flush_lines(p, slab / 64 + INDEX_LINE, count.min(TABLE_LINES));
    p.fence();
    count as u8
}

// Stores them, and answers how many.
fn store_old_blocks<P: Pmem>(p: &mut P, slab: u32, class: u8) -> u32
    requires aligned { slab % 16384 ≡ 0 }
    requires inside { slab + 2048 ≤ 8 * length (words_of (P.state p.old)) }
    requires class { class < 36 }
    requires few { length (numbers_of (header_at (words_of (P.state p.old)) (slab / 16384)) class) ≤ 64 }
    requires room { HasRoom (P.state p.old) (length (numbers_of (header_at (words_of (P.state p.old)) (slab / 16384)) class)) }
    ensures appends { Appends (P.state p.old) (P.state p.new) (index_stores (slab / 16384) 0 (numbers_of (header_at (words_of (P.state p.old)) (slab / 16384)) class)) }
    ensures count { result ≡ length (numbers_of (header_at (words_of (P.state p.old)) (slab / 16384)) class) }
{
    let mut place = 0;
    for number in 0..capacity(class) {
        if bit_at(p, slab, number) {
            let entry = IndexEntry { live: true, number };
            p.store(index_at(slab, place), index_word(entry));
            place += 1;
        }
    }
    place
}
