// Sets of numbers, kept as the bits of words: number `k` is bit `k mod 64` of word `k div 64`.
//
// A set is a slice of words; `has` of `specs/Numbers.antt` says which numbers are in it. The functions test a number, put
// one in or out, fill a place of 64 words, and find the lowest number. None takes memory.
//
// The indexes above keep their sets this way, each with its own meaning of the numbers. Their proofs use the lemmas on
// `has` in `proofs/Bits.antt`.
#![tactic(auto)]

mod numbers;

pub use numbers::{fill, has, least_in, least_of, ones, put};
