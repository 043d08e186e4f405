// Blocks side by side, and which of them have a number of a set.
ghost use Rattle.std.specs.Prelude.{◌≡◌, ◌+◌, ◌*◌, ◌<◌, ◌≤◌, ◌↔◌, ℕ, length, false, MatchOption};
ghost use Rattle.bit_words.specs.Numbers.{has};
ghost use Rattle.unit_map.specs.Kept.{IsFree, HasNoFree, IsFirstFree, HasNoHeld, IsFirstHeld};

use crate::words::{first_of, has_none};
use bit_words::put;

// How many words a set of 4096 numbers has.
const SET_WORDS: usize = 64;

/// Blocks side by side: `count` of them, with so many numbers each, from a first number on.
#[derive(Clone, Copy)]
pub(crate) struct BlockRow {
    pub(crate) first: u32,
    pub(crate) units: u32,
    pub(crate) count: u32,
}

/// The lowest block at or above a number that has no number of the set. What the set has is passed over word by word, up to
/// the first number that it lacks: the block with that number is the next one that may be free.
pub(crate) fn first_free(words: &[u64], row: BlockRow, from: u32) -> Option<u32>
    requires some { 0 < row.units }
    requires within { row.first + row.count * row.units ≤ 64 * length words.now }
    requires few { length words.now ≤ 65536 }
    ensures { MatchOption result (HasNoFree words.now row from) (IsFirstFree words.now row from) }
{
    let end = row.first + row.count * row.units;
    let mut number = from;
    while number < row.count {
        let lacking = first_of(words, row.first + number * row.units, end, false)?;
        number = (lacking - row.first) / row.units;
        let at = row.first + number * row.units;
        if has_none(words, at, at + row.units) {
            return Some(number);
        }
        number += 1;
    }
    None
}

// The lowest block at or above a number that has a number of the set.
fn first_held(words: &[u64], row: BlockRow, from: u32) -> Option<u32>
    requires some { 0 < row.units }
    requires within { row.first + row.count * row.units ≤ 64 * length words.now }
    requires few { length words.now ≤ 65536 }
    requires from { from ≤ row.count }
    ensures { MatchOption result (HasNoHeld words.now row from) (IsFirstHeld words.now row from) }
{
    let end = row.first + row.count * row.units;
    let held = first_of(words, row.first + from * row.units, end, true)?;
    Some((held - row.first) / row.units)
}

// A set of none.
fn no_blocks() -> [u64; SET_WORDS]
    ensures size { length result ≡ 64 }
    ensures none { (i : ℕ) → has result i ≡ false }
{
    [0; SET_WORDS]
}

/// The blocks that have a number of the set, as a set of their own.
pub(crate) fn held_blocks(words: &[u64], row: BlockRow) -> [u64; SET_WORDS]
    requires some { 0 < row.units }
    requires within { row.first + row.count * row.units ≤ 64 * length words.now }
    requires few { length words.now ≤ 65536 }
    requires count { row.count ≤ 4096 }
    ensures size { length result ≡ 64 }
    ensures blocks { (i : ℕ) → i < row.count → (has result i ≡ false) ↔ IsFree words.now row i }
{
    let mut set = no_blocks();
    let mut number = 0;
    while let Some(held) = first_held(words, row, number) {
        put(&mut set, held, true);
        number = held + 1;
    }
    set
}
