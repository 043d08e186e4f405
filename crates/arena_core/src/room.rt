// The memory that an arena needs beside the words.
ghost use Rattle.std.specs.Prelude.{◌≡◌, ◌≤◌, IfOk};

use crate::volatile::Volatile;
use block_supply::BlockSupply;
use book_log::BookLog;
use extent_index::ExtentIndex;
use pmem_lines::OutOfMemory;
use slab_index::SlabLives;
use std::alloc::Global;
use std::marker::Model;

/// All the memory that an arena ever takes beside its device. In contracts it is the number of granules that the arena
/// may have.
#[derive(Drop)]
pub struct ArenaRoom {
    pub(crate) volatile: Volatile,
}

impl Model for ArenaRoom {
    ghost use Rattle.std.specs.Prelude.{ℕ};
    ghost use Rattle.arena_core.specs.Arena.{IsRoom};

    ghost Value = { ℕ };

    ghost view = { λ a. a.volatile.log.granules };

    ghost invariant = { λ a. IsRoom a.volatile.log.granules a.volatile };
}

impl ArenaRoom {
    /// Room for an arena of 16 to 4096 granules.
    pub fn new(alloc: Global, granules: u32) -> Result<ArenaRoom, OutOfMemory>
        requires least { 16 ≤ granules }
        requires most { granules ≤ 4096 }
        ensures { IfOk result (λ room. room ≡ granules) }
    {
        let log = BookLog::new(alloc, granules)?;
        let lives = match SlabLives::new(alloc, granules) {
            Ok(lives) => lives,
            Err(fault) => {
                drop(log);
                return Err(fault);
            }
        };
        let free = match ExtentIndex::new(alloc, granules) {
            Ok(free) => free,
            Err(fault) => {
                drop(log);
                drop(lives);
                return Err(fault);
            }
        };
        match BlockSupply::new(alloc, granules) {
            Ok(supply) => {
                let volatile = Volatile {
                    log,
                    free,
                    supply,
                    lives,
                    line: 0,
                };
                Ok(ArenaRoom { volatile })
            }
            Err(fault) => {
                drop(log);
                drop(lives);
                drop(free);
                Err(fault)
            }
        }
    }

    // How many granules it is for.
    pub(crate) fn granules(&self) -> u32
        ensures is { result ≡ self.now }
        ensures least { 16 ≤ self.now }
    {
        self.volatile.log.granules()
    }
}
