// A bitmap of 4096 bits laid across eight lines, so that blocks that are neighbours have their bits in different lines.
//
// A header is the 256 words of 32 lines of 64 bytes. The bit of block i is bit `i div 8` of header line `1 + i mod 8`
// (`specs/Places.antt`). Two blocks less than eight apart never share a line, so marks that are set one after another
// do not wait for each other's flush. The layers above use the place, the law of lines that `bit_place` promises, `get`
// and `set_word` as the reading of a bit and the writing of a bit in a word, and `set_blocks` as the reading of all bits,
// word by word, into a set of `bit_words`.
#![tactic(auto)]

mod bit;
mod place;
mod set;

pub use bit::{get, set_word};
pub use place::bit_place;
pub use set::set_blocks;
