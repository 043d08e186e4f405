// The memory that an arena needs beside the words.
ghost use Rattle.std.specs.Prelude.{◌≡◌, ◌≤◌, IfOk};

use book_log::BookLog;
use heap_indexes::HeapIndexes;
use pmem_lines::OutOfMemory;
use pool_layout::layout_of;
use std::alloc::Global;
use std::marker::Model;

/// The version whose layout an arena of this variant has.
pub(crate) const VERSION: u32 = 1;

/// All the memory that an arena ever takes beside its device. In contracts it is the number of granules that the arena has.
#[derive(Drop)]
pub struct GcRoom {
    pub(crate) log: BookLog,
    pub(crate) indexes: HeapIndexes,
}

impl Model for GcRoom {
    ghost use Rattle.std.specs.Prelude.{ℕ};
    ghost use Rattle.gc_heap.specs.Arena.{IsGcRoom};

    ghost Value = { ℕ };

    ghost view = { λ a. a.log.granules };

    ghost invariant = { λ a. IsGcRoom a.log.granules a.log a.indexes };
}

impl GcRoom {
    /// Room for an arena of 16 to 1024 granules.
    pub fn new(alloc: Global, granules: u32) -> Result<GcRoom, OutOfMemory>
        requires least { 16 ≤ granules }
        requires most { granules ≤ 1024 }
        ensures { IfOk result (λ room. room ≡ granules) }
    {
        let log = BookLog::new(alloc, granules)?;
        match HeapIndexes::new(alloc, granules, layout_of(VERSION).first_granule) {
            Ok(indexes) => Ok(GcRoom { log, indexes }),
            Err(fault) => {
                drop(log);
                Err(fault)
            }
        }
    }

    // How many granules it is for.
    pub(crate) fn granules(&self) -> u32
        ensures is { result ≡ self.now }
        ensures least { 16 ≤ self.now }
        ensures most { self.now ≤ 1024 }
    {
        self.log.granules()
    }
}
