// Sets of numbers, kept as the bits of words.
ghost use Rattle.std.specs.Prelude.{◌≡◌, ◌+◌, ◌*◌, ◌/◌, ◌<◌, ◌≤◌, length, slice_index, MatchOption};
ghost use Rattle.bit_words.specs.Numbers.{has, ones, IsWithBit, IsPut, IsFilled, HasNoneIn, IsLeastIn};

/// Whether the number is in the set.
pub fn has(words: &[u64], k: u32) -> bool
    requires { k / 64 < length words.now }
    ensures { result ≡ has words.now k }
{
    (words[(k / 64) as usize] >> (k % 64)) & 1 == 1
}

// The word with one bit set or cleared.
fn with_bit(word: u64, bit: u32, on: bool) -> u64
    requires { bit < 64 }
    ensures { IsWithBit word bit on result }
{
    if on {
        word | 1 << bit
    } else {
        word & !(1 << bit)
    }
}

/// Puts the number into the set, or out of it.
pub fn put(words: &mut [u64], k: u32, on: bool)
    requires { k / 64 < length words.old }
    ensures { IsPut words.old k on words.new }
{
    let at = (k / 64) as usize;
    words[at] = with_bit(words[at], k % 64, on);
}

/// The word with the numbers below `n`, or all of 64.
pub fn ones(n: u32) -> u64
    ensures { result ≡ ones n }
{
    if n < 64 { (1 << n) - 1 } else { u64::MAX }
}

/// Of the 4096 numbers from 4096 times `place` on, puts the first `n` into the set and the others out of it.
pub fn fill(words: &mut [u64], place: u32, n: u32)
    requires few { place < 4096 }
    requires within { 64 * place + 64 ≤ length words.old }
    ensures { IsFilled words.old place n words.new }
{
    for i in 0..64 {
        words[(64 * place + i) as usize] = ones(n.saturating_sub(64 * i));
    }
}

/// The lowest number that a word has, which is not 0.
pub fn least_of(words: &[u64], at: usize) -> Option<u32>
    requires within { at < length words.now }
    requires few { length words.now ≤ 262144 }
    ensures { MatchOption result (slice_index words.now at ≡ 0) (IsLeastIn words.now (64 * at) 64) }
{
    let word = words[at];
    if word == 0 {
        return None;
    }
    Some(64 * at as u32 + word.trailing_zeros())
}

/// The lowest number that `n` words from `at` on have.
pub fn least_in(words: &[u64], at: usize, n: usize) -> Option<u32>
    requires within { at + n ≤ length words.now }
    requires few { length words.now ≤ 262144 }
    ensures { MatchOption result (HasNoneIn words.now (64 * at) (64 * n)) (IsLeastIn words.now (64 * at) (64 * n)) }
{
    for i in at..at + n {
        if let Some(k) = least_of(words, i) {
            return Some(k);
        }
    }
    None
}
