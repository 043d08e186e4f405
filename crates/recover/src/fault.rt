// Why a device was not recovered.

ghost use Rattle.recover.specs.declared.fault.RecoverFault.TheVariants as faults;
ghost use Rattle.recover.specs.Faults.{fault_of};
ghost use Rattle.std.specs.Prelude.{◌≡◌};

use image_check::CheckFault;
use pmem_lines::OutOfMemory;
use pool_layout::Defect;
use thiserror::Error;

/// Why a device was not recovered.
#[derive(Debug, Drop, Error)]
pub enum RecoverFault {
    /// There was no memory.
    #[error("Memory")]
    Memory(OutOfMemory),
    /// Its image is not sound, and this is the first defect.
    #[error("Defect")]
    Defect(Defect),
}

impl From<OutOfMemory> for RecoverFault {
    ghost from_gives = { λ error fault. fault ≡ faults.Memory error };

    fn from(error: OutOfMemory) -> Self {
        RecoverFault::Memory(error)
    }
}

/// The fault of a check.
pub(crate) fn fault_of(fault: CheckFault) -> RecoverFault
    ensures { result ≡ fault_of fault }
{
    match fault {
        CheckFault::Memory(error) => RecoverFault::Memory(error),
        CheckFault::Defect(defect) => RecoverFault::Defect(defect),
    }
}
