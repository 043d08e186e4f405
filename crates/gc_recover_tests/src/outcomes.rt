// What becomes of images.
ghost use Rattle.std.specs.Prelude.{◌≡◌, ◌≤◌, ◌%◌, length};

use check_tests::{Became, Put, image, image_under, recovered_to, was_refused};
use gc_recover::recover_device;
use gc_search::GcFault;
use gc_search_tests::ONE_BLOCK;
use pmem_lines::{OutOfMemory, SimPmem};
use std::alloc::Global;

/// The events that a device has room for.
pub const ROOM: u32 = 2048;

/// The arena with one block, with the words of a row over its own, is recovered, and its words are compared with those of another
/// row over them.
pub fn recovered(alloc: Global, changes: &[Put], after: &[Put]) -> Result<Became, OutOfMemory> {
    let wanted = image_under(alloc, &ONE_BLOCK, changes, after)?;
    compared(alloc, changes, &wanted)
}

// That arena, with the words of a row over its own, is recovered, and its words are compared with these.
fn compared(alloc: Global, changes: &[Put], wanted: &[u64]) -> Result<Became, OutOfMemory> {
    let before = image(alloc, &ONE_BLOCK, changes)?;
    recovery_of(alloc, &before, wanted)
}

// What becomes of words, where these are wanted.
fn recovery_of(alloc: Global, before: &[u64], wanted: &[u64]) -> Result<Became, OutOfMemory>
    requires whole { length before.now % 8 ≡ 0 }
    requires some { 8 ≤ length before.now }
    requires few { length before.now ≤ 8388608 }
{
    let device = SimPmem::from_image(alloc, before, ROOM)?;
    match recover_device(alloc, device) {
        Ok(done) => Ok(recovered_to(&done.device, wanted)),
        Err((fault, device)) => {
            let refused = refused_by(fault, &device, before);
            drop(device);
            refused
        }
    }
}

// A device that was refused, if it was not memory that lacked.
fn refused_by(fault: GcFault, device: &SimPmem, before: &[u64]) -> Result<Became, OutOfMemory> {
    match fault {
        GcFault::Memory(error) => Err(error),
        GcFault::Defect(defect) => Ok(was_refused(device, before, defect)),
    }
}

/// The device that is recovered from these words, of 16 granules. `None` where they are not sound.
pub fn device_of(alloc: Global, words: &[u64]) -> Result<Option<SimPmem>, OutOfMemory>
    requires whole { length words.now % 8 ≡ 0 }
    requires some { 8 ≤ length words.now }
    requires few { length words.now ≤ 8388608 }
{
    let device = SimPmem::from_image(alloc, words, ROOM)?;
    match recover_device(alloc, device) {
        Ok(done) => Ok(Some(done.device)),
        Err((GcFault::Memory(error), _)) => Err(error),
        Err((GcFault::Defect(_), _)) => Ok(None),
    }
}
