// The words of an index: of its blocks, and of the sets that it keeps beside them.
ghost use Rattle.std.specs.Prelude.{◌≡◌, ◌+◌, ◌*◌, ◌/◌, ◌%◌, ◌<◌, ◌≤◌, min, nat_lt, length, slice_index, slice_set, replicate, MatchOption, IfOk};
ghost use Rattle.bit_words.specs.Numbers.{IsPut, IsFilled, ones};
ghost use Rattle.slab_index.specs.Kept.{IsTakenFrom, IsSummary, IsLeastAt, HasPlaceFor, IsSummedUp};

use bit_words::{fill, least_of, ones, put};
use pmem_lines::OutOfMemory;
use std::alloc::Global;

/// How many numbers of a set there are at each place: among the blocks for each granule, and among the starts for each class
/// and for each number of live blocks.
pub(crate) const NUMBERS: u32 = 4096;

// How many words have the numbers of a place.
const WORDS: usize = 64;

/// A set of numbers, 4096 at each of its places, and which of its words are not 0.
#[derive(Drop)]
pub(crate) struct Summed {
    pub(crate) words: Vec<u64>,
    /// The numbers of the words that are not 0: a word for each place.
    pub(crate) some: Vec<u64>,
}

impl Summed {
    /// A set of so many places without a number.
    pub(crate) fn new(alloc: Global, places: usize) -> Result<Summed, OutOfMemory>
        requires { places ≤ 4096 }
        ensures words { IfOk result (λ set. set.words.items ≡ replicate (64 * places) 0) }
        ensures some { IfOk result (λ set. set.some.items ≡ replicate places 0) }
    {
        let words = vec![in alloc; 0; WORDS * places]?;
        let some = vec![in alloc; 0; places]?;
        Ok(Summed { words, some })
    }

    /// Puts a number in or out. Which words are not 0 stays as it was.
    pub(crate) fn put(&mut self, number: u32, on: bool)
        requires { number / 64 < length self.old.words.items }
        ensures words { IsPut self.old.words.items number on self.new.words.items }
        ensures some { self.new.some ≡ self.old.some }
    {
        put(&mut self.words, number, on);
    }

    /// Takes the numbers that a word has, of the 64 that word `at` of the set is for. Which words are not 0 stays as it was.
    pub(crate) fn take(&mut self, at: u32, word: u64)
        requires { at < length self.old.words.items }
        ensures words { IsTakenFrom self.old.words.items at word self.new.words.items }
        ensures some { self.new.some ≡ self.old.some }
    {
        take_numbers(&mut self.words, at, word);
    }

    /// Puts the first `count` numbers of a place in, and its other ones out.
    pub(crate) fn fill(&mut self, place: u32, count: u32)
        requires small { place < 4096 }
        requires most { count ≤ 4096 }
        requires within { 64 * place + 64 ≤ length self.old.words.items }
        requires some_within { place < length self.old.some.items }
        ensures words { IsFilled self.old.words.items place count self.new.words.items }
        ensures some { self.new.some.items ≡ slice_set self.old.some.items place (ones (count / 64 + min 1 (count % 64))) }
    {
        fill(&mut self.words, place, count);
        self.some[place as usize] = ones(count.div_ceil(64));
    }
}

/// The least of the 4096 numbers at a place that a set has, counted from the first of them. It looks at two words.
pub(crate) fn least_at(set: &Summed, place: u32) -> Option<u32>
    requires place { place < length set.now.some.items }
    requires few { length set.now.some.items ≤ 4096 }
    requires size { length set.now.words.items ≡ 64 * length set.now.some.items }
    requires summary { IsSummary set.now.words.items set.now.some.items }
    ensures { MatchOption result (slice_index set.now.some.items place ≡ 0) (IsLeastAt set.now.words.items set.now.some.items place) }
{
    let word = least_of(&set.some, place as usize)?;
    let number = least_of(&set.words, word as usize)?;
    Some(number - NUMBERS * place)
}

/// Puts a number into a set, or out of it, and brings up to it which words are not 0.
pub(crate) fn put_summed(set: &mut Summed, number: u32, on: bool)
    requires within { number / 64 < length set.old.words.items }
    requires some_within { number / 64 / 64 < length set.old.some.items }
    requires summary { IsSummary set.old.words.items set.old.some.items }
    ensures words { IsPut set.old.words.items number on set.new.words.items }
    ensures some_size { length set.new.some.items ≡ length set.old.some.items }
    ensures summary { IsSummary set.new.words.items set.new.some.items }
{
    put_both(&mut set.words, &mut set.some, number, on);
}

// The same for the words, and the words that are not 0.
fn put_both(words: &mut [u64], some: &mut [u64], number: u32, on: bool)
    requires within { number / 64 < length words.old }
    requires some_within { number / 64 / 64 < length some.old }
    requires summary { IsSummary words.old some.old }
    ensures words { IsPut words.old number on words.new }
    ensures some_size { length some.new ≡ length some.old }
    ensures summary { IsSummary words.new some.new }
{
    put(words, number, on);
    put(some, number / 64, words[(number / 64) as usize] != 0);
}

// Takes the numbers out of words that a word has, of the 64 that word `at` of them is for.
fn take_numbers(set: &mut [u64], at: u32, word: u64)
    requires { at < length set.old }
    ensures { IsTakenFrom set.old at word set.new }
{
    set[at as usize] &= !word;
}

/// Brings the sets up to one word of the blocks, which changed: whether it is not 0, and whether its slab, of a class, has an
/// available block.
pub(crate) fn summarize(blocks: &mut Summed, starts: &mut Summed, class: u8, at: u32)
    requires { HasPlaceFor blocks.old.words.items blocks.old.some.items starts.old.words.items starts.old.some.items class at }
    ensures words { blocks.new.words ≡ blocks.old.words }
    ensures sums { IsSummedUp blocks.old.words.items blocks.old.some.items starts.old.words.items starts.old.some.items class at blocks.new.some.items starts.new.words.items starts.new.some.items }
{
    let start = at / 64;
    put(&mut blocks.some, at, blocks.words[at as usize] != 0);
    let any = blocks.some[start as usize] != 0;
    put_summed(starts, NUMBERS * u32::from(class) + start, any);
}
