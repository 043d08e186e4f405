// Why an image of this variant was not found sound.

ghost use Rattle.std.specs.Prelude.{◌≡◌};
ghost use Rattle.gc_search.specs.declared.fault.GcFault.TheVariants as faults;

use pmem_lines::OutOfMemory;
use pool_layout::Defect;
use thiserror::Error;

/// Why an image of this variant was not found sound.
#[derive(Debug, Drop, Error)]
pub enum GcFault {
    /// There was no memory.
    #[error("Memory")]
    Memory(OutOfMemory),
    /// This is its first defect.
    #[error("Defect")]
    Defect(Defect),
}

impl From<OutOfMemory> for GcFault {
    ghost from_gives = { λ error fault. fault ≡ faults.Memory error };

    fn from(error: OutOfMemory) -> Self {
        GcFault::Memory(error)
    }
}
