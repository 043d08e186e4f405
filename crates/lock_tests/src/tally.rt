// A value with a journal.
ghost use Rattle.std.specs.Prelude.{◌≡◌, ◌↔◌, [], length, IsTrue};
ghost use Rattle.arena_lock.specs.Legality.{IsLegal, no_opening};
ghost use Rattle.lock_tests.specs.Tally.{Asks};

use arena_lock::Logged;
use heap_model::{Call, Entry, Reply};
use pmem_lines::OutOfMemory;
use std::alloc::Global;
use std::marker::Model;

/// The journal of an arena that was never asked for a root that it has.
#[derive(Drop)]
pub struct Tally {
    journal: Vec<Entry>,
}

impl Model for Tally {
    ghost use Rattle.std.specs.Prelude.{List};
    ghost use Rattle.heap_model.specs.declared.call.Entry.{Entry};

    ghost Value = { List Entry };

    ghost view = { λ t. t.journal.items };
}

impl Tally {
    /// An empty journal.
    pub fn new(alloc: Global) -> Tally
        ensures empty { result ≡ [] }
        ensures legal { IsLegal no_opening result }
    {
        Tally {
            journal: Vec::new(alloc),
        }
    }

    /// How many entries there are.
    pub fn len(&self) -> usize
        ensures { result ≡ length self.now }
    {
        self.journal.len()
    }

    pub fn is_empty(&self) -> bool
        ensures { IsTrue result ↔ (self.now ≡ []) }
    {
        self.journal.is_empty()
    }

    /// Asks for so many bytes at a root that no arena has. The answer is the place of the entry, counted from 0; on want of
    /// memory the journal stays.
    pub fn ask(&mut self, seat: u32, size: u64) -> Result<u64, OutOfMemory>
        requires legal { IsLegal no_opening self.old }
        ensures asks { Asks seat size self.old self.new result }
        ensures legal { IsLegal no_opening self.new }
    {
        let place = self.journal.len() as u64;
        self.journal.push(Entry {
            seat,
            call: Call::Malloc {
                root: u32::MAX,
                size,
            },
            reply: Reply::NoRoot,
        })?;
        Ok(place)
    }
}

impl Logged for Tally {
    ghost opening = { λ _. no_opening };

    ghost journal = { λ t. t };

    fn count(&self) -> u64 {
        self.journal.len() as u64
    }
}
