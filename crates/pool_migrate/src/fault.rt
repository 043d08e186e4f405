// Why an arena is not migrated.

ghost use Rattle.pool_migrate.specs.declared.fault.MigrateFault.TheVariants as faults;
ghost use Rattle.std.specs.Prelude.{◌≡◌};
ghost use Rattle.pool_migrate.specs.Faults.{of_check};

use image_check::CheckFault;
use pmem_lines::OutOfMemory;
use pool_layout::Defect;
use thiserror::Error;

/// Why an arena is not migrated.
#[derive(Debug, Drop, Error)]
pub enum MigrateFault {
    /// There was no memory.
    #[error("Memory")]
    Memory(OutOfMemory),
    /// It has this version, which is not the first.
    #[error("Newer")]
    Newer { version: u32 },
    /// Its image is not sound, and this is the first defect.
    #[error("Defect")]
    Defect(Defect),
}

impl From<OutOfMemory> for MigrateFault {
    ghost from_gives = { λ error fault. fault ≡ faults.Memory error };

    fn from(error: OutOfMemory) -> Self {
        MigrateFault::Memory(error)
    }
}

/// The fault of the check of an arena of version 1.
pub(crate) fn of_check(fault: CheckFault) -> MigrateFault
    ensures { result ≡ of_check fault }
{
    match fault {
        CheckFault::Memory(error) => MigrateFault::Memory(error),
        CheckFault::Defect(defect) => MigrateFault::Defect(defect),
    }
}
