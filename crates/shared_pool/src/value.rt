// The value behind an arena's lock.
ghost use Rattle.std.specs.Prelude.{◌≡◌, [], ◌<◌, IfOk, OnErr};
ghost use Rattle.arena_lock.specs.Legality.{IsLegal};
ghost use Rattle.arena_journal.specs.Journals.{opened, IsBehind, HasAnswered};
ghost use Rattle.shared_pool.specs.Value.{Held, Receives};

use crate::job::Receipt;
use arena_core::Arena;
use arena_journal::answer;
use arena_lock::Logged;
use heap_model::{Call, Entry};
use pmem_lines::{OutOfMemory, Pmem};
use std::alloc::Global;
use std::marker::Model;
use std::snapshot::Snapshot;

/// An arena with the journal of its calls. In contracts it has the opening too: what the arena was when the journal was
/// empty. Of each it is true, also while it lies behind a lock, that the journal leads from the opening to the arena as it
/// is.
#[derive(Drop)]
pub struct PoolArena<P: Pmem> {
    was: Snapshot<Arena<P>>,
    arena: Arena<P>,
    journal: Vec<Entry>,
}

impl<P: Pmem> Model for PoolArena<P> {
    ghost use Rattle.arena_journal.specs.Journals.{opened, IsBehind};
    ghost use Rattle.shared_pool.specs.Value.{Held};

    ghost Value = { Held };

    ghost view = { λ s. record { opening = opened s.was.value; journal = s.journal.items; now = s.arena } };

    ghost invariant = { λ s. IsBehind (opened s.was.value) s.journal.items s.arena };
}

impl<P: Pmem> PoolArena<P> {
    /// The arena with an empty journal. It takes no memory; entries come from `alloc`.
    pub fn open(alloc: Global, arena: Arena<P>) -> PoolArena<P>
        ensures value { result ≡ record { opening = opened arena; journal = []; now = arena } }
        ensures legal { IsLegal result.opening result.journal }
    {
        let _memory = arena.pmem();
        PoolArena {
            was: Snapshot::of(&arena),
            arena,
            journal: Vec::new(alloc),
        }
    }

    /// Lends the arena, and tells what is true of each such value.
    pub fn arena(&self) -> &Arena<P>
        ensures arena { result.now ≡ self.now.now }
        ensures held { IsBehind self.now.opening self.now.journal self.now.now }
    {
        &self.arena
    }

    /// Gives the arena and its journal.
    pub(crate) fn into_parts(self) -> (Arena<P>, Vec<Entry>)
        ensures arena { result.0 ≡ self.now }
        ensures journal { result.1.items ≡ self.journal }
        ensures held { IsBehind self.opening self.journal self.now }
    {
        let PoolArena {
            was: _,
            arena,
            journal,
        } = self;
        (arena, journal)
    }

    /// Makes one call of the arena by a seat, and puts its entry at the journal's end. The memory for the entry is taken
    /// before the arena is touched; on want of memory all stays.
    pub(crate) fn receive(&mut self, seat: u32, call: Call) -> Result<Receipt, OutOfMemory>
        requires seat { seat < 64 }
        ensures opening { self.new.opening ≡ self.old.opening }
        ensures receives { Receives seat call self.old.journal self.new.journal result }
        ensures answered { IfOk result (λ r. HasAnswered seat self.old.now self.new.now call r.entry.reply) }
        ensures legal { IsLegal self.new.opening self.new.journal }
        ensures refused_unchanged { OnErr result (self.new ≡ self.old) }
    {
        self.journal.reserve(1)?;
        let place = self.journal.len() as u64;
        let entry = answer(&mut self.arena, seat, call);
        self.journal.push_reserved(entry);
        Ok(Receipt { place, entry })
    }
}

impl<P: Pmem> Logged for PoolArena<P> {
    ghost opening = { λ h. h.opening };

    ghost journal = { λ h. h.journal };

    fn count(&self) -> u64 {
        self.journal.len() as u64
    }
}
