// What a malloc and a free decide before their first store. A malloc takes its block out of the indexes.
ghost use Rattle.std.specs.Prelude.{◌≡◌, ◌<◌, ◌≤◌, ◌*◌, ◌-◌, ◌^◌};
ghost use Rattle.pmem_lines.specs.Pmem.{words_of};
ghost use Rattle.log_steps.specs.Log.{IsBookOf};
ghost use Rattle.heap_indexes.specs.Indexes.{AreIndexesOf};
ghost use Rattle.heap_check.specs.Image.{bounds_of};
ghost use Rattle.gc_check.specs.Image.{IsGcExactImage};
ghost use Rattle.gc_heap.specs.Arena.{state_in};
ghost use Rattle.gc_heap.specs.Plan.{IsRequestPlan, IsGcMallocPlan, IsGcFreePlan};

use crate::blocks::{address_in, block_of, root_word};
use crate::room::VERSION;
use arena_core::{BlockRefusal, FreeRefusal, MallocRefusal};
use book_log::BookLog;
use heap_indexes::{HeapIndexes, Place};
use heap_model::Block;
use pmem_lines::Pmem;
use pool_layout::{GRANULE_BYTES, layout_of};

// A granule of 16384 bytes has so many words.
const GRANULE_WORDS: u32 = 2048;

/// The place for a malloc of a seat, below 64, or why there is none. The block is taken out of the indexes.
pub(crate) fn plan_malloc<P: Pmem>(
    device: &P,
    indexes: &mut HeapIndexes,
    seat: u32,
    root: u32,
    size: u64,
) -> Result<Place, MallocRefusal>
    requires exact { IsGcExactImage (words_of (P.state device.now)) }
    requires are { AreIndexesOf (bounds_of (words_of (P.state device.now))) (state_in (words_of (P.state device.now))) indexes.old }
    requires seat { seat < 64 }
    ensures { IsGcMallocPlan (words_of (P.state device.now)) seat root size indexes.old result indexes.new }
{
    match check_request(device, root, size) {
        Ok(()) => match indexes.place(seat, size) {
            Some(place) => Ok(place),
            None => Err(MallocRefusal::NoSpace),
        },
        Err(refusal) => Err(refusal),
    }
}

// Whether a malloc is looked at further.
fn check_request<P: Pmem>(device: &P, root: u32, size: u64) -> Result<(), MallocRefusal>
    requires exact { IsGcExactImage (words_of (P.state device.now)) }
    ensures { IsRequestPlan (words_of (P.state device.now)) root size result }
{
    if root >= layout_of(VERSION).roots {
        return Err(MallocRefusal::NoRoot);
    }
    let word = root_word(device, root);
    if word != 0 {
        return Err(MallocRefusal::Occupied {
            at: address_in(word),
        });
    }
    if size == 0 {
        return Err(MallocRefusal::ZeroSize);
    }
    if size > heap_bytes(device) {
        return Err(MallocRefusal::TooLarge);
    }
    Ok(())
}

// How many bytes the heap has.
fn heap_bytes<P: Pmem>(device: &P) -> u64
    requires exact { IsGcExactImage (words_of (P.state device.now)) }
    ensures { result ≡ ((bounds_of (words_of (P.state device.now))).granules - (bounds_of (words_of (P.state device.now))).first) * 16384 }
{
    let granules = device.size_words() / GRANULE_WORDS - layout_of(VERSION).first_granule;
    u64::from(granules * GRANULE_BYTES)
}

/// The block that a free takes from a root, or why there is none.
pub(crate) fn plan_free<P: Pmem>(device: &P, log: &BookLog, root: u32) -> Result<Block, FreeRefusal>
    requires exact { IsGcExactImage (words_of (P.state device.now)) }
    requires book { IsBookOf log.now (words_of (P.state device.now)) }
    ensures { IsGcFreePlan (words_of (P.state device.now)) root result }
{
    match block_of(device, log, root) {
        Ok(block) => Ok(block),
        Err(BlockRefusal::NoRoot) => Err(FreeRefusal::NoRoot),
        Err(_) => Err(FreeRefusal::Empty),
    }
}
