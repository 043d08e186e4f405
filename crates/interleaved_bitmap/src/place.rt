// Where the bit of a block lies.

ghost use Rattle.std.specs.Prelude.{◌≡◌, ◌<◌, ◌≤◌};
ghost use Rattle.interleaved_bitmap.specs.Places.{line_of_bit, bit_in_line, word_of_bit, bit_in_word, IsAlone};

/// The line of the header, from 1 to 8, and the bit in it, from 0 to 511, that block i has.
pub fn bit_place(i: u32) -> (u32, u32)
    requires { i < 4096 }
    ensures line { result.0 ≡ line_of_bit i }
    ensures bit { result.1 ≡ bit_in_line i }
    ensures alone { IsAlone i result.0 }
{
    (1 + i % 8, i / 8)
}

/// The block that has a bit of a word of the header, which is one of words 8 to 71.
pub(crate) fn block_of(place: u32, bit: u32) -> u32
    requires first { 8 ≤ place }
    requires last { place < 72 }
    requires bit { bit < 64 }
    ensures block { result < 4096 }
    ensures place { word_of_bit result ≡ place }
    ensures bit { bit_in_word result ≡ bit }
{
    512 * (place % 8) + 8 * bit + (place / 8 - 1)
}
