// What the header of a slab says, read from a device.

ghost use Rattle.std.specs.Prelude.{◌≡◌, ◌+◌, ◌*◌, ◌/◌, ◌%◌, ◌^◌, ◌<◌, ◌≤◌, ℕ, true, length};
ghost use Rattle.pmem_lines.specs.Pmem.{words_of};
ghost use Rattle.bit_words.specs.Numbers.{has};
ghost use Rattle.image_tables.specs.Tables.{is_slab, slab_bit, tables_of};

use interleaved_bitmap::{bit_place, set_blocks};
use pmem_lines::Pmem;
use pool_layout::slab_header_at;

// The words of a slab's header.
const HEADER_WORDS: u32 = 256;

// How many words a set of 4096 numbers has.
const SET_WORDS: usize = 64;

/// The class of the slab that begins at this byte, a multiple of 16384, by its state word.
pub fn class_at<P: Pmem>(p: &P, at: u32) -> u8
    requires aligned { at % 16384 ≡ 0 }
    requires inside { at + 2048 ≤ 8 * length (words_of (P.state p.now)) }
    ensures { is_slab (words_of (P.state p.now)) (at / 16384) ≡ true → result ≡ ((tables_of (words_of (P.state p.now))).header (at / 16384)).class }
{
    ((p.load(slab_header_at(at, 0, 0)) >> 8) % 256) as u8
}

/// The bit of block `i`, below 4096, of the slab that begins at this byte, a multiple of 16384.
pub fn bit_at<P: Pmem>(p: &P, at: u32, i: u32) -> bool
    requires aligned { at % 16384 ≡ 0 }
    requires inside { at + 2048 ≤ 8 * length (words_of (P.state p.now)) }
    requires block { i < 4096 }
    ensures bit { result ≡ slab_bit (words_of (P.state p.now)) (at / 16384) i }
    ensures table { is_slab (words_of (P.state p.now)) (at / 16384) ≡ true → result ≡ ((tables_of (words_of (P.state p.now))).header (at / 16384)).bit i }
{
    let (line, bit) = bit_place(i);
    let word = p.load(slab_header_at(at, line, bit / 64));
    (word >> (bit % 64)) % 2 == 1
}

/// The blocks of the slab that begins at this byte, a multiple of 16384, whose bits are set: a set of numbers below 4096.
/// Its bitmap is read by words.
pub fn set_bits<P: Pmem>(p: &P, at: u32) -> [u64; SET_WORDS]
    requires aligned { at % 16384 ≡ 0 }
    requires inside { at + 2048 ≤ 8 * length (words_of (P.state p.now)) }
    ensures size { length result ≡ 64 }
    ensures bits { (i : ℕ) → i < 4096 → has result i ≡ slab_bit (words_of (P.state p.now)) (at / 16384) i }
{
    set_blocks(p.words(at, HEADER_WORDS))
}
