// Ranges of a set of numbers that is kept as bits of words: put in and out, and searched, word by word.
ghost use Rattle.std.specs.Prelude.{◌≡◌, ◌+◌, ◌*◌, ◌<◌, ◌≤◌, ◌^◌, ◌↔◌, length, true, IsTrue, MatchOption};
ghost use Rattle.unit_map.specs.Kept.{IsMask, IsMasked, IsRangePut, IsPart, HasNone, IsFirst, HasNoneInWord, IsFirstInWord};

use bit_words::ones;

// The bits of word `at` whose numbers lie in a range.
fn mask_of(at: u32, from: u32, end: u32) -> u64
    requires { at < 2 ^ 25 }
    ensures { IsMask at from end result }
{
    ones(end.saturating_sub(64 * at)) & !ones(from.saturating_sub(64 * at))
}

// The word with the bits of a mask set or cleared.
fn masked(word: u64, mask: u64, on: bool) -> u64
    ensures { IsMasked word mask on result }
{
    if on { word | mask } else { word & !mask }
}

/// Puts the numbers from `from` on and below `end` into the set, or out of it.
pub(crate) fn put_range(words: &mut [u64], from: u32, end: u32, on: bool)
    requires within { end ≤ 64 * length words.old }
    requires few { length words.old ≤ 65536 }
    ensures { IsRangePut words.old from end on words.new }
{
    for at in from / 64..end.div_ceil(64) {
        words[at as usize] = masked(words[at as usize], mask_of(at, from, end), on);
    }
}

// The bits of a word, number `at` of a set, whose numbers lie in a range and are in the set (`on`), or are not in it.
fn part_of(word: u64, at: u32, from: u32, end: u32, on: bool) -> u64
    requires { at < 2 ^ 25 }
    ensures { IsPart word at from end on result }
{
    let chosen = if on { word } else { !word };
    chosen & mask_of(at, from, end)
}

// The lowest number of a range that word `at` has, or has not.
fn first_in_word(words: &[u64], at: u32, from: u32, end: u32, on: bool) -> Option<u32>
    requires within { at < length words.now }
    requires few { length words.now ≤ 65536 }
    ensures { MatchOption result (HasNoneInWord words.now at from end on) (IsFirstInWord words.now at from end on) }
{
    let part = part_of(words[at as usize], at, from, end, on);
    if part == 0 {
        return None;
    }
    Some(64 * at + part.trailing_zeros())
}

/// The lowest number from `from` on and below `end` that is in the set (`on`), or that is not in it.
pub(crate) fn first_of(words: &[u64], from: u32, end: u32, on: bool) -> Option<u32>
    requires within { end ≤ 64 * length words.now }
    requires few { length words.now ≤ 65536 }
    ensures { MatchOption result (HasNone words.now from end on) (IsFirst words.now from end on) }
{
    for at in from / 64..end.div_ceil(64) {
        if let Some(k) = first_in_word(words, at, from, end, on) {
            return Some(k);
        }
    }
    None
}

/// Whether no number from `from` on and below `end` is in the set.
pub(crate) fn has_none(words: &[u64], from: u32, end: u32) -> bool
    requires within { end ≤ 64 * length words.now }
    requires few { length words.now ≤ 65536 }
    ensures { IsTrue result ↔ HasNone words.now from end true }
{
    first_of(words, from, end, true).is_none()
}
