// Reading and writing one bit.

ghost use Rattle.std.specs.Prelude.{◌≡◌, ◌<◌, length};
ghost use Rattle.interleaved_bitmap.specs.Bits.{IsWithBit};
ghost use Rattle.interleaved_bitmap.specs.Places.{bit_of_header, PutsBit};

use crate::bit_place;

/// The bit of block i in a header of 256 words.
pub fn get(header: &[u64], i: u32) -> bool
    requires header { length header.now ≡ 256 }
    requires block { i < 4096 }
    ensures { result ≡ bit_of_header header.now i }
{
    let (line, bit) = bit_place(i);
    let word = header[(8 * line + bit / 64) as usize];
    (word >> (bit % 64)) & 1 == 1
}

/// The word with this bit set or cleared, and no other bit changed.
pub fn set_word(old: u64, bit: u32, on: bool) -> u64
    requires { bit < 64 }
    ensures word { IsWithBit old bit on result }
    ensures header { PutsBit old bit on result }
{
    if on {
        old | 1 << bit
    } else {
        old & !(1 << bit)
    }
}
