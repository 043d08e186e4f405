// A pair is made ready at the stage.
ghost use Rattle.std.specs.Prelude.{◌≡◌, ◌≢◌, ◌≤◌, ℕ, length};
ghost use Rattle.pmem_lines.specs.Pmem.{words_of};
ghost use Rattle.attach_dict.specs.Calls.{IsStagedBy, HasFilled, HasCancelled};
ghost use Rattle.attach_dict.specs.Dict.{most_values};
ghost use Rattle.attach_dict.specs.Stages.{Idle, Staged, AreNoneStale, IsKept, IsStagedFor};

use crate::StageRefusal;
use crate::dict::Dict;
use crate::layout::{HEAD_WORDS, STAGE, lay_out};
use crate::progress::Progress;
use crate::steps::{fill_block, free_block, take_block};
use pmem_lines::Pmem;

impl<P: Pmem> Dict<P> {
    /// Gives the stage a block for a value of `count` words, at most 509, under a key. Nothing is staged, and no root is stale.
    /// `Full` comes exactly where every root but the stage has a block, then `NumbersSpent` exactly where the greatest number
    /// of a pair is 2^64 - 1, then `NoSpace` exactly where the heap has no place for 24 bytes and 8 for each word. A key that is
    /// there needs a root for its new pair too. The map stays, also in a crash. It makes one call of the arena, by seat 0, and
    /// none where it answers `Full` or `NumbersSpent`; a refusal changes no word. It takes no memory.
    pub fn stage(&mut self, key: u64, count: u32) -> Result<(), StageRefusal>
        requires idle { self.old.phase ≡ Idle }
        requires tidy { AreNoneStale (words_of self.old.arena.device) Idle }
        requires few { count ≤ most_values }
        ensures staged { IsStagedBy self.old self.new key count result }
        ensures kept { IsKept self.new }
    {
        if self.index.free.len() == 0 {
            return Err(StageRefusal::Full);
        }
        if self.index.numbers.greatest() == u64::MAX {
            return Err(StageRefusal::NumbersSpent);
        }
        take_block(&mut self.arena, count)?;
        self.progress = Progress::Staged { count };
        self.key = key;
        Ok(())
    }

    /// Writes the staged pair into its block: the key, the number of a new pair, the count and the value, which has as many
    /// words as were staged. The number is the greatest of a pair and one, or 1 where there is no pair. The map stays, also in
    /// a crash. It makes one call of the arena, and takes no memory.
    pub fn fill(&mut self, value: &[u64])
        requires { IsStagedFor self.old.phase (length value.now) }
        ensures filled { (key : ℕ) → self.old.phase ≡ Staged key (length value.now) → HasFilled self.old self.new key value.now }
        ensures kept { IsKept self.new }
    {
        let number = self.index.numbers.greatest() + 1;
        lay_out(&mut self.index.block, self.key, number, value);
        let words = HEAD_WORDS + value.len();
        fill_block(&mut self.arena, &self.index.block[..words]);
        self.progress = Progress::Filled;
    }

    /// Frees the block at the stage, with or without its value. No root is stale behind it. The map stays, also in a crash. It
    /// makes one call of the arena, by seat 0, and takes no memory.
    pub fn cancel(&mut self)
        requires { self.old.phase ≢ Idle }
        ensures cancelled { HasCancelled self.old self.new }
        ensures kept { IsKept self.new }
    {
        free_block(&mut self.arena, STAGE);
        self.progress = Progress::Idle;
    }
}
