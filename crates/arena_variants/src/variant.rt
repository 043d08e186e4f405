// An arena of one of the variants.
ghost use Rattle.std.specs.Prelude.{◌≡◌, ◌≤◌, IfOk, IfSome};
ghost use Rattle.pmem_lines.specs.Events.{IsQuiet};
ghost use Rattle.pmem_lines.specs.Pmem.{fresh};

use heap_model::{Block, Call};
use pmem_lines::{OutOfMemory, SimPmem};
use std::alloc::Global;

/// The events that a device has room for which may be of any version.
pub const ROOM: u32 = 4096;

/// An arena over a simulated device.
pub trait Variant: Drop {
    /// Its blocks may be moved from root to root.
    const MOVES: bool;

    /// Its recovery stores few words, whatever was under way.
    const SHORT_RECOVERY: bool;

    /// An arena in which no root names a block, of a version and with as many granules as that has.
    fn new_arena(alloc: Global, version: u32, granules: u32) -> Result<Self, OutOfMemory>;

    /// The arena that is recovered from a device. `None` where its image is not sound.
    fn recovered(alloc: Global, device: SimPmem) -> Result<Option<Self>, OutOfMemory>
        requires quiet { IsQuiet device.events }
        requires room { 4096 ≤ device.room };

    /// Makes a call by a seat.
    fn make(&mut self, seat: u32, call: Call);

    /// The block that a root names.
    fn named(&self, root: u32) -> Option<Block>;

    /// The words of that block; none where there is no block.
    fn words(&self, root: u32) -> &[u64];

    /// The device, whose events are those of the last call.
    fn device(&self) -> &SimPmem;
}

/// A device of these words. `None` where no device has so many.
pub fn device_of(alloc: Global, image: &[u64]) -> Result<Option<SimPmem>, OutOfMemory>
    ensures { IfOk result (λ found. IfSome found (λ device. device ≡ fresh image.now 4096)) }
{
    if image.len() % 8 != 0 || image.len() < 8 || image.len() > 8_388_608 {
        return Ok(None);
    }
    Ok(Some(SimPmem::from_image(alloc, image, ROOM)?))
}
