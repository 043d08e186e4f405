// The lowest number of a table from a number on, found word by word, and whether words have one at all.
ghost use Rattle.std.specs.Prelude.{◌≡◌, ◌+◌, ◌-◌, ◌*◌, ◌/◌, ◌%◌, ◌^◌, ◌<◌, ◌≤◌, ◌↔◌, false, length, MatchOption};
ghost use Rattle.bit_words.specs.Numbers.{HasNoneIn, IsLeastIn};

use crate::word_table::{Steps, WordTable};
use std::marker::Brand;
use std::sync::ledger::{Blank, Ledger};

/// The lowest number from `from` on that the words below `end` have. It looks at each word from that of `from` on at most
/// once.
pub(crate) fn lowest_from<L: Ledger>(
    table: &WordTable,
    from: u32,
    end: u32,
    steps: &mut Steps<L>,
) -> Option<u32>
    requires from { from / 64 < end }
    requires within { end ≤ length table.now }
    requires few { length table.now ≤ 2 ^ 18 }
    ensures found { MatchOption result (HasNoneIn table.now from (64 * end - from)) (IsLeastIn table.now from (64 * end - from)) }
    ensures steps { steps.new ≤ steps.old + (end - from / 64) }
{
    if let Some(k) = lowest_in_word(table, from, steps) {
        return Some(k);
    }
    for i in from / 64 + 1..end {
        if let Some(k) = lowest_in_word(table, 64 * i, steps) {
            return Some(k);
        }
    }
    None
}

/// Whether the words from `first` on and below `end` have a number.
pub(crate) fn has_any(table: &WordTable, first: u32, end: u32) -> bool
    requires order { first ≤ end }
    requires within { end ≤ length table.now }
    ensures { (result ≡ false) ↔ HasNoneIn table.now (64 * first) (64 * end - 64 * first) }
{
    has_any_by::<Brand>(table, first, end, Blank::new(1))
}

// The same, with a counter of its own. It looks at all words and branches on none, since where the first number stands
// cannot be foretold.
fn has_any_by<L: Ledger>(table: &WordTable, first: u32, end: u32, blank: Blank) -> bool
    requires order { first ≤ end }
    requires within { end ≤ length table.now }
    requires name { blank.name ≡ L.name }
    requires parts { blank.parts ≡ L.parts }
    requires some { 0 < blank.parts }
    ensures { (result ≡ false) ↔ HasNoneIn table.now (64 * first) (64 * end - 64 * first) }
{
    let mut steps = Steps::<L>::new(blank);
    let mut all = 0;
    for i in first..end {
        all |= table.look(i, &mut steps);
    }
    all != 0
}

// The lowest number from `from` on that the word of `from` has.
fn lowest_in_word<L: Ledger>(table: &WordTable, from: u32, steps: &mut Steps<L>) -> Option<u32>
    requires within { from / 64 < length table.now }
    requires few { length table.now ≤ 2 ^ 18 }
    ensures found { MatchOption result (HasNoneIn table.now from (64 - from % 64)) (IsLeastIn table.now from (64 - from % 64)) }
    ensures step { steps.new ≡ steps.old + 1 }
{
    let word = table.look(from / 64, steps) & (u64::MAX << (from % 64));
    if word == 0 {
        return None;
    }
    Some(from - from % 64 + word.trailing_zeros())
}
