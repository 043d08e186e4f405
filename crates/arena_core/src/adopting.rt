// What an arena keeps beside its words is read from an image that is there.
ghost use Rattle.std.specs.Prelude.{false, ◌≡◌, ◌↔◌, ◌+◌, ◌<◌, ◌≤◌, ℕ, true, None, length, slice_index};
ghost use Rattle.pmem_lines.specs.Pmem.{words_of};
ghost use Rattle.pool_layout.specs.Header.{granules_in};
ghost use Rattle.image_tables.specs.Tables.{tables_of};
ghost use Rattle.book_log.specs.Entry.{start_of};
ghost use Rattle.extent_index.specs.FreeSet.{IsFree};
ghost use Rattle.slab_index.specs.SlabSet.{class_in};
ghost use Rattle.block_supply.specs.Supply.{IsClearOf};
ghost use Rattle.heap_check.specs.Image.{bounds_of, IsExactImage};
ghost use Rattle.log_steps.specs.Log.{IsBookOf};
ghost use Rattle.slab_index.specs.Unfit.{is_unfit};
ghost use Rattle.slab_index.specs.Lives.{normal_at};
ghost use Rattle.arena_core.specs.Arena.{IsIndexOf, IsSlabsOf, AreLivesOf};
ghost use Rattle.arena_core.specs.Adopting.{IsReadBelow, IsNextRead, IsWithSlabOf, HasCounted, HasNoted};

use crate::plan::{granules_in, layout_in, root_word};
use block_supply::BlockSupply;
use book_log::{BookLog, LogEntry};
use extent_index::ExtentIndex;
use pmem_lines::Pmem;
use pool_layout::{GRANULE_BYTES, SLAB_GRANULES, granule_at};
use slab_header::class_at;
use slab_index::SlabLives;
use slab_morph::{is_normal, used_blocks};

// The granule from which on all of an index is free that nothing was taken from.
const FIRST_FREE: u32 = 4;

/// Takes the granules before the heap, which begins with the granule `first`, out of an index that nothing was taken from.
pub(crate) fn take_front(free: &mut ExtentIndex, first: u32)
    requires all_free { (k : ℕ) → IsFree free.old k ↔ ((4 ≤ k) × (k < free.old.granules)) }
    requires low { 4 ≤ first }
    requires high { first < free.old.granules }
    ensures granules { free.new.granules ≡ free.old.granules }
    ensures heap { (k : ℕ) → IsFree free.new k ↔ ((first ≤ k) × (k < free.old.granules)) }
{
    free.take(FIRST_FREE, first - FIRST_FREE);
}

/// Makes the indexes those of an exact image: nothing was taken from the index of granules before, and no slab was there.
/// `log` is the image's.
#[tactic(auto, using(crate::proofs::AdoptedExtents::read_first, crate::proofs::AdoptedExtents::extent_below, pool_layout::proofs::Layouts::layout_rules, heap_check::proofs::Sizes::sizes_of))]
pub(crate) fn read_image<P: Pmem>(
    device: &P,
    log: &BookLog,
    free: &mut ExtentIndex,
    supply: &mut BlockSupply,
)
    requires exact { IsExactImage (words_of (P.state device.now)) }
    requires log { IsBookOf log.now (words_of (P.state device.now)) }
    requires granules { free.old.granules ≡ granules_in (words_of (P.state device.now)) }
    requires all_free { (k : ℕ) → IsFree free.old k ↔ ((4 ≤ k) × (k < free.old.granules)) }
    requires slab_granules { supply.old.slabs.granules ≡ granules_in (words_of (P.state device.now)) }
    requires no_slab { (start : ℕ) → class_in supply.old.slabs start ≡ None }
    ensures free { IsIndexOf free.new (words_of (P.state device.now)) }
    ensures slabs { IsSlabsOf supply.new (words_of (P.state device.now)) }
    ensures stacks { supply.new.stacks ≡ supply.old.stacks }
{
    take_front(free, layout_in(device).first_granule);
    let mut from = 0;
    while let Some(extent) = log.next_live(from) {
        read_extent(device, free, supply, extent);
        from = extent.start() + 1;
    }
}

// Takes over the live extent that an entry says; those that start below it are taken over.
fn read_extent<P: Pmem>(
    device: &P,
    free: &mut ExtentIndex,
    supply: &mut BlockSupply,
    extent: LogEntry,
)
    requires exact { IsExactImage (words_of (P.state device.now)) }
    requires next { IsNextRead (words_of (P.state device.now)) free.old supply.old extent }
    ensures read { IsReadBelow (words_of (P.state device.now)) free.new supply.new (start_of extent + 1) }
    ensures stacks { supply.new.stacks ≡ supply.old.stacks }
{
    match extent {
        LogEntry::Large { start, granules } => free.take(start, granules),
        LogEntry::Slab { start } => {
            free.take(start, SLAB_GRANULES);
            read_slab(device, supply, start);
        }
        LogEntry::Tomb { .. } => {}
    }
}

// Takes over a slab: its class, and which of its blocks are unused.
#[tactic(auto, using(crate::proofs::AdoptedSlabs::class_read, crate::proofs::HeldBlocks::slab_here))]
fn read_slab<P: Pmem>(device: &P, supply: &mut BlockSupply, start: u32)
    requires exact { IsExactImage (words_of (P.state device.now)) }
    requires slab { (tables_of (words_of (P.state device.now))).slab start ≡ true }
    requires granules { supply.old.slabs.granules ≡ granules_in (words_of (P.state device.now)) }
    requires fresh { class_in supply.old.slabs start ≡ None }
    requires clear { IsClearOf supply.old start }
    ensures slab { IsWithSlabOf (words_of (P.state device.now)) supply.old supply.new start }
    ensures stacks { supply.new.stacks ≡ supply.old.stacks }
{
    let at = granule_at(start);
    supply.add_used(start, class_at(device, at), &used_blocks(device, at));
}

/// Counts the live blocks of each slab of an exact image, by the words of its roots, and notes which slabs are normal; all counts
/// were 0 before, no slab was normal, and none was found unfit.
pub(crate) fn read_lives<P: Pmem>(device: &P, supply: &BlockSupply, lives: &mut SlabLives)
    requires exact { IsExactImage (words_of (P.state device.now)) }
    requires slabs { IsSlabsOf supply.now (words_of (P.state device.now)) }
    requires size { length lives.old.counts ≡ granules_in (words_of (P.state device.now)) }
    requires none { (start : ℕ) → slice_index lives.old.counts start ≡ 0 }
    requires no_normal { (start : ℕ) → normal_at lives.old start ≡ None }
    requires no_unfit { (class start : ℕ) → is_unfit lives.old.unfit class start ≡ false }
    ensures { AreLivesOf lives.new (words_of (P.state device.now)) }
{
    for root in 0..layout_in(device).roots {
        count_root(device, supply, lives, root);
    }
    for start in 0..granules_in(device) {
        note_slab(device, supply, lives, start);
    }
}

// Counts the block of a root, where it lies in a slab; those of the roots below it are counted.
#[tactic(auto, using(crate::proofs::AdoptedSlabs::counted_empty, crate::proofs::AdoptedSlabs::counted_outside, crate::proofs::Plans::root_in))]
fn count_root<P: Pmem>(device: &P, supply: &BlockSupply, lives: &mut SlabLives, root: u32)
    requires exact { IsExactImage (words_of (P.state device.now)) }
    requires slabs { IsSlabsOf supply.now (words_of (P.state device.now)) }
    requires root { root < (bounds_of (words_of (P.state device.now))).roots }
    requires counted { HasCounted (words_of (P.state device.now)) lives.old.counts root }
    ensures counted { HasCounted (words_of (P.state device.now)) lives.new.counts (root + 1) }
    ensures normal { (start : ℕ) → normal_at lives.new start ≡ normal_at lives.old start }
    ensures unfit { lives.new.unfit ≡ lives.old.unfit }
{
    let at = root_word(device, root);
    if at == 0 {
        return;
    }
    if let Some(slab) = supply.slab_with(at / GRANULE_BYTES) {
        lives.raise(slab.start);
    }
}

// Notes the slab that begins at a granule, where it is normal; those that begin below are noted.
#[tactic(auto, using(crate::proofs::HeldBlocks::slab_here, crate::proofs::Plans::slab_of_set))]
fn note_slab<P: Pmem>(device: &P, supply: &BlockSupply, lives: &mut SlabLives, start: u32)
    requires exact { IsExactImage (words_of (P.state device.now)) }
    requires slabs { IsSlabsOf supply.now (words_of (P.state device.now)) }
    requires size { length lives.old.counts ≡ granules_in (words_of (P.state device.now)) }
    requires noted { HasNoted (words_of (P.state device.now)) lives.old start }
    ensures noted { HasNoted (words_of (P.state device.now)) lives.new (start + 1) }
    ensures counts { lives.new.counts ≡ lives.old.counts }
{
    if let Some(class) = supply.class_at(start) {
        if is_normal(device, granule_at(start)) {
            lives.put_normal(start, class);
        }
    }
}
