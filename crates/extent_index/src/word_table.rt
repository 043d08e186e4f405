// Words that are looked at one at a time, and a counter of the looks.
ghost use Rattle.std.specs.Prelude.{◌≡◌, ℕ, ◌+◌, ◌/◌, ◌<◌, length, slice_index, replicate, IfOk};
ghost use Rattle.bit_words.specs.Numbers.{IsPut};

use pmem_lines::OutOfMemory;
use std::alloc::Global;
use std::marker::Model;
use std::sync::ledger::{Blank, Book, Ledger, Share};

/// How many words were looked at, in the account of a ledger. It takes no bytes: contracts alone see it, as a number.
/// Only `WordTable::look` adds to it.
#[derive(Drop)]
pub struct Steps<L: Ledger> {
    book: Book<L>,
    share: Share<L>,
}

impl<L: Ledger> Model for Steps<L> {
    ghost Value = { ℕ };

    ghost view = { λ s. s.book.total };

    ghost invariant = { λ s. 0 < s.share.parts };
}

impl<L: Ledger> Steps<L> {
    /// A counter at 0, over a ledger of at least one part that nothing was opened of.
    pub fn new(blank: Blank) -> Steps<L>
        requires name { blank.name ≡ L.name }
        requires parts { blank.parts ≡ L.parts }
        requires some { 0 < blank.parts }
        ensures { result ≡ 0 }
    {
        let (book, share) = blank.open::<L>();
        Steps { book, share }
    }
}

/// Words that are a set of numbers: number `k` is bit `k mod 64` of word `k div 64`. In contracts it is the list of the
/// words. `look` is the only call that reads one.
#[derive(Drop)]
pub struct WordTable {
    words: Vec<u64>,
}

impl Model for WordTable {
    ghost use Rattle.std.specs.Prelude.{List, ℕ};

    ghost Value = { List ℕ };

    ghost view = { λ a. a.words.items };
}

impl WordTable {
    /// So many words, all 0. It takes 8 bytes for each, and refuses where there is no memory for them.
    pub fn new(alloc: Global, count: u32) -> Result<WordTable, OutOfMemory>
        ensures { IfOk result (λ table. table ≡ replicate count 0) }
    {
        let words = vec![in alloc; 0; count as usize]?;
        Ok(WordTable { words })
    }

    /// Word `i`. It counts one step.
    pub fn look<L: Ledger>(&self, i: u32, steps: &mut Steps<L>) -> u64
        requires { i < length self.now }
        ensures word { result ≡ slice_index self.now i }
        ensures step { steps.new ≡ steps.old + 1 }
    {
        steps.book.add(&mut steps.share, 1);
        self.words[i as usize]
    }

    /// Puts the number into the set, or out of it.
    pub fn put(&mut self, k: u32, on: bool)
        requires { k / 64 < length self.old }
        ensures { IsPut self.old k on self.new }
    {
        bit_words::put(&mut self.words, k, on);
    }
}
