// Which granules the blocks of roots begin in.
ghost use Rattle.std.specs.Prelude.{◌≡◌, IfOk};
ghost use Rattle.pool_layout.specs.Header.{granules_in};
ghost use Rattle.heap_check.specs.Image.{IsSoundImage};
ghost use Rattle.recovery_steps.specs.Names.{AreNames};

use defect_search::{named_granules, named_starts, open_entry};
use pmem_lines::OutOfMemory;
use std::alloc::Global;
use std::marker::Model;

/// Which granules of an arena the blocks of its roots begin in.
#[derive(Drop)]
pub struct RootNames {
    starts: Vec<bool>,
    granules: Vec<bool>,
}

impl Model for RootNames {
    ghost use Rattle.recovery_steps.specs.Names.{Names};

    ghost Value = { Names };

    ghost view = { λ names. record { starts = names.starts.items; granules = names.granules.items } };
}

impl RootNames {
    /// Reads them off the words of an arena, of so many granules. It takes all the memory that recovery needs.
    pub fn new(alloc: Global, words: &[u64], granules: u32) -> Result<RootNames, OutOfMemory>
        requires image { IsSoundImage words.now }
        requires granules { granules ≡ granules_in words.now }
        ensures { IfOk result (λ names. AreNames names words.now) }
    {
        let entry = open_entry(words);
        let starts = named_starts(alloc, words, entry, granules)?;
        let granules = named_granules(alloc, words, entry, granules)?;
        Ok(RootNames { starts, granules })
    }

    /// For each granule whether a root's block begins at its first byte.
    pub(crate) fn starts(&self) -> &[bool]
        ensures { result.now ≡ self.now.starts }
    {
        &self.starts
    }

    /// For each granule whether a root's block begins in it.
    pub(crate) fn granules(&self) -> &[bool]
        ensures { result.now ≡ self.now.granules }
    {
        &self.granules
    }
}
