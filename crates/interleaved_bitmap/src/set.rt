// The blocks whose bits are set, as a set of numbers.

ghost use Rattle.std.specs.Prelude.{◌≡◌, ◌<◌, ◌≤◌, ◌||◌, ℕ, false, length};
ghost use Rattle.bit_words.specs.Numbers.{has};
ghost use Rattle.interleaved_bitmap.specs.Places.{bit_of_header, is_marked};

use crate::place::block_of;
use bit_words::put;

// The words of the header that have the bitmap.
const FIRST_WORD: u32 = 8;

const END_WORD: u32 = 72;

// How many words a set of 4096 numbers has.
const SET_WORDS: usize = 64;

/// The blocks whose bits are set in a header of 256 words, as a set of numbers. Each word of the bitmap is read once, and
/// of its bits those are gone through that are set.
pub fn set_blocks(header: &[u64]) -> [u64; SET_WORDS]
    requires { length header.now ≡ 256 }
    ensures size { length result ≡ 64 }
    ensures blocks { (i : ℕ) → i < 4096 → has result i ≡ bit_of_header header.now i }
{
    let mut set = no_blocks();
    for place in FIRST_WORD..END_WORD {
        put_blocks(&mut set, place, header[place as usize]);
    }
    set
}

// A set of none.
fn no_blocks() -> [u64; SET_WORDS]
    ensures size { length result ≡ 64 }
    ensures none { (i : ℕ) → has result i ≡ false }
{
    [0; SET_WORDS]
}

// Puts the blocks into the set whose bits are set in this word, at its place in the header.
fn put_blocks(set: &mut [u64], place: u32, word: u64)
    requires size { length set.old ≡ 64 }
    requires first { 8 ≤ place }
    requires last { place < 72 }
    ensures size { length set.new ≡ 64 }
    ensures marked { (i : ℕ) → i < 4096 → has set.new i ≡ (has set.old i || is_marked place word i) }
{
    let mut rest = word;
    while rest != 0 {
        let bit = rest.trailing_zeros();
        put(set, block_of(place, bit), true);
        rest &= !(1 << bit);
    }
}
