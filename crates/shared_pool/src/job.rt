// What is done to an arena and its journal in one turn.
ghost use Rattle.std.specs.Prelude.{◌≡◌, ◌<◌, IfOk, OnErr};
ghost use Rattle.arena_lock.specs.Journal.{Grows};
ghost use Rattle.arena_lock.specs.Legality.{IsLegal};
ghost use Rattle.arena_journal.specs.Journals.{HasAnswered};
ghost use Rattle.shared_pool.specs.Value.{Receives};

use crate::value::PoolArena;
use arena_lock::{Job, Logged};
use heap_model::{Call, Entry};
use pmem_lines::{OutOfMemory, Pmem};

/// An entry of an arena's journal, and its place there, counted from 0.
#[derive(Clone, Copy, Debug, PartialEq, Eq)]
pub struct Receipt {
    pub place: u64,
    pub entry: Entry,
}

/// One call of an arena by a seat, below 64. It takes the memory for one entry, makes the call, and puts its entry at the
/// journal's end. On want of memory the arena, its memory and the journal stay as they were.
#[derive(Clone, Copy, Debug, Drop)]
pub struct PoolJob {
    pub seat: u32,
    pub call: Call,
}

impl<P: Pmem> Job<PoolArena<P>> for PoolJob {
    type Out = Result<Receipt, OutOfMemory>;

    ghost use Rattle.std.specs.Prelude.{◌<◌};
    ghost use Rattle.shared_pool.specs.Value.{Receives};

    ghost number = { λ j. j.seat };

    ghost allowed = { λ j. j.seat < 64 };

    ghost relation = { λ j before after out. Receives j.seat j.call before after out };

    fn run(self, value: &mut PoolArena<P>) -> Result<Receipt, OutOfMemory>
        requires seat { self.seat < 64 }
        ensures opening { value.new.opening ≡ value.old.opening }
        ensures journal { Grows self.seat value.old.journal value.new.journal }
        ensures legal { IsLegal value.new.opening value.new.journal }
        ensures relation { Receives self.seat self.call value.old.journal value.new.journal result }
        ensures answered { IfOk result (λ r. HasAnswered self.seat value.old.now value.new.now self.call r.entry.reply) }
        ensures refused_unchanged { OnErr result (value.new ≡ value.old) }
    {
        value.receive(self.seat, self.call)
    }
}

/// The same, and how many entries the journal has afterwards, so that a pass knows how much it has seen also on want of
/// memory.
#[derive(Clone, Copy, Drop)]
pub(crate) struct Counted {
    pub job: PoolJob,
}

impl<P: Pmem> Job<PoolArena<P>> for Counted {
    type Out = (Result<Receipt, OutOfMemory>, u64);

    ghost use Rattle.std.specs.Prelude.{◌≡◌, ◌<◌, length};
    ghost use Rattle.shared_pool.specs.Value.{Receives};

    ghost number = { λ j. j.job.seat };

    ghost allowed = { λ j. j.job.seat < 64 };

    ghost relation = { λ j before after out. Receives j.job.seat j.job.call before after out.0 × (out.1 ≡ length after) };

    fn run(self, value: &mut PoolArena<P>) -> (Result<Receipt, OutOfMemory>, u64) {
        let result = self.job.run(value);
        (result, value.count())
    }
}
