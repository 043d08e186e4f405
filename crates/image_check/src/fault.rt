// Why an image was not found sound.

use pmem_lines::OutOfMemory;
use pool_layout::Defect;
use thiserror::Error;

/// Why an image was not found sound.
#[derive(Debug, Drop, Error)]
pub enum CheckFault {
    /// There was no memory.
    #[error("Memory")]
    Memory(OutOfMemory),
    /// This is its first defect.
    #[error("Defect")]
    Defect(Defect),
}
