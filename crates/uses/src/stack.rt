// A stack of records.
ghost use Rattle.std.specs.Prelude.{◌≡◌, ◌↔◌, [], length, IsTrue, MatchOption};
ghost use Rattle.uses.specs.Stack.{LawOfStacks, IsKept};
ghost use Rattle.uses.specs.Calls.{IsPushedBy, IsPoppedBy, IsLast};

use crate::steps::{fill_block, release_block, show_block, stage, take_block};
use crate::{PopRefusal, PushRefusal};
use arena_core::Arena;
use pmem_lines::Pmem;
use std::marker::Model;

/// A record: eight words.
pub type Record = [u64; 8];

/// A stack of at most 4095 records in an arena of either version, whose first 4096 roots have nothing else. In contracts it is
/// its arena, and its records, the lowest first.
#[derive(Drop)]
pub struct RecordStack<P: Pmem> {
    pub(crate) arena: Arena<P>,
    pub(crate) depth: u32,
}

impl<P: Pmem> Model for RecordStack<P> {
    ghost use Rattle.pmem_lines.specs.Pmem.{words_of};
    ghost use Rattle.uses.specs.Stack.{StackState, IsKept, records_in};

    ghost Value = { StackState };

    ghost view = { λ s. record { arena = s.arena; records = records_in (words_of s.arena.device) s.depth } };

    ghost invariant = { λ s. IsKept (record { arena = s.arena; records = records_in (words_of s.arena.device) s.depth }) };
}

impl<P: Pmem> RecordStack<P> {
    /// How many records there are.
    pub fn len(&self) -> u32
        ensures count { result ≡ length self.now.records }
        ensures kept { IsKept self.now }
    {
        self.depth
    }

    /// There is no record.
    pub fn is_empty(&self) -> bool
        ensures { IsTrue result ↔ (self.now.records ≡ []) }
    {
        self.depth == 0
    }

    /// Puts a record on top. `Full` exactly where there are 4095 records, then `NoSpace` exactly where the heap has no place for
    /// a block of 64 bytes; the records are as before then. It makes three calls of the arena, or none where the stack is full.
    /// A crash within them leaves the old records or, from the third on, the new ones: `reopen` finds them. It takes no memory.
    pub fn push(&mut self, words: &Record) -> Result<(), PushRefusal>
        ensures pushed { IsPushedBy self.old self.new words.now result }
        ensures kept { IsKept self.new }
    {
        if self.depth >= stage() {
            return Err(PushRefusal::Full);
        }
        take_block(&mut self.arena)?;
        fill_block(&mut self.arena, words);
        show_block(&mut self.arena, self.depth);
        self.depth += 1;
        Ok(())
    }

    /// Takes the top record away. `Empty` exactly where there is none. It makes one call of the arena. A crash within it leaves
    /// the old records or the new ones. It takes no memory.
    pub fn pop(&mut self) -> Result<(), PopRefusal>
        ensures popped { IsPoppedBy self.old self.new result }
        ensures kept { IsKept self.new }
    {
        if self.depth == 0 {
            return Err(PopRefusal::Empty);
        }
        release_block(&mut self.arena, self.depth - 1);
        self.depth -= 1;
        Ok(())
    }

    /// Lends the words of the top record, in place. `None` exactly where there is none.
    pub fn top(&self) -> Option<&[u64]>
        ensures { MatchOption result (self.now.records ≡ []) (λ words. IsLast self.now.records words.now) }
    {
        if self.depth == 0 {
            return None;
        }
        match self.arena.view(self.depth - 1) {
            Ok(words) => Some(words),
            Err(_) => None,
        }
    }

    /// Lends the arena.
    pub fn arena(&self) -> &Arena<P>
        ensures arena { result.now ≡ self.now.arena }
        ensures kept { IsKept self.now }
    {
        &self.arena
    }

    /// Gives the arena back.
    pub fn into_arena(self) -> Arena<P>
        ensures arena { result ≡ self.arena }
        ensures kept { IsKept self }
    {
        let RecordStack { arena, depth: _ } = self;
        arena
    }
}

/// The law of stacks: an image is the stack of one list of records at most.
pub fn law_of_stacks()
    ensures { LawOfStacks }
{}
