// Why a call of a dictionary is refused.
ghost use Rattle.std.specs.Prelude.{◌≡◌};

use pmem_lines::OutOfMemory;
use thiserror::Error;

/// Why there is no dictionary over an arena.
#[derive(Debug, Drop, Error)]
pub enum OpenFault {
    /// There was no memory.
    #[error("Memory")]
    Memory(OutOfMemory),
    /// The block of this root is no pair, or a lower root has one with its key and its number. It is the lowest such root.
    #[error("NotDict")]
    NotDict { root: u32 },
}

impl From<OutOfMemory> for OpenFault {
    ghost use Rattle.attach_dict.specs.declared.refusal.OpenFault.TheVariants.{Memory};

    ghost from_gives = { λ error fault. fault ≡ Memory error };

    fn from(error: OutOfMemory) -> OpenFault {
        OpenFault::Memory(error)
    }
}

/// Why no block is staged. The first that holds is answered.
#[derive(Clone, Copy, Debug, PartialEq, Eq, Error)]
pub enum StageRefusal {
    /// Every root but the stage names a block.
    #[error("Full")]
    Full,
    /// The greatest number of a pair is 2^64 - 1.
    #[error("NumbersSpent")]
    NumbersSpent,
    /// The heap has no place for such a block as it is.
    #[error("NoSpace")]
    NoSpace,
}

/// The dictionary lacks the key.
#[derive(Clone, Copy, Debug, PartialEq, Eq, Error)]
#[error("Absent")]
pub struct Absent;
