// Why a call of a stack is refused.
use pmem_lines::OutOfMemory;
use pool_layout::Defect;
use thiserror::Error;

/// Why no record comes to the stack. The first that holds is answered.
#[derive(Clone, Copy, Debug, PartialEq, Eq, Error)]
pub enum PushRefusal {
    /// There is a record for every root but the stage: 4095.
    #[error("Full")]
    Full,
    /// The heap has no place for a block of 64 bytes as it is.
    #[error("NoSpace")]
    NoSpace,
}

/// Why no record goes from the stack.
#[derive(Clone, Copy, Debug, PartialEq, Eq, Error)]
pub enum PopRefusal {
    /// There is none.
    #[error("Empty")]
    Empty,
}

/// Why there is no stack over a device.
#[derive(Debug, Drop, Error)]
pub enum ReopenFault {
    /// There was no memory.
    #[error("Memory")]
    Memory(OutOfMemory),
    /// Its image is not sound, and this is the first defect.
    #[error("Defect")]
    Defect(Defect),
    /// Its heap is not a stack of records.
    #[error("NoStack")]
    NoStack,
}
