// Where a block lies, by the slabs that there are.
//
// Which slab has a granule is asked at each call. So for each granule a note is kept of how far before it its slab begins.
// A note is looked up and then asked of the index, so that nothing depends on it but time: where it tells no slab, the four
// starts that there may be are asked.
ghost use Rattle.std.specs.Prelude.{◌≡◌, ◌*◌, ◌+◌, ◌<◌, ℕ, Some, IfSome, MatchOption};
ghost use Rattle.size_classes.specs.Classes.{class_capacity};
ghost use Rattle.heap_model.specs.Machine.{slab_block};
ghost use Rattle.slab_index.specs.SlabSet.{class_in};
ghost use Rattle.block_supply.specs.Supply.{IsInSlabOf, IsInNoSlabOf};
ghost use Rattle.block_supply.specs.Kept.{IsBlockAt, IsSomeBlock, AreSlabsApart};

use pool_layout::{GRANULE_BYTES, SLAB_GRANULES, blocks_at, granule_at};
use size_classes::size_of_class;
use slab_index::{SlabBlock, SlabIndex};

/// A slab: the granule that it begins at, and its class.
#[derive(Clone, Copy, Debug, PartialEq, Eq)]
pub struct SlabAt {
    pub start: u32,
    pub class: u8,
}

/// Notes of the four granules of a slab how far before them it begins, as far as there are notes.
pub(crate) fn note_slab(notes: &mut [u8], start: u32)
    requires { start < 4096 }
{
    for back in 0..SLAB_GRANULES {
        let at = (start + back) as usize;
        if at < notes.len() {
            notes[at] = back as u8;
        }
    }
}

/// The slab that has a granule, where one has it.
pub(crate) fn slab_with(slabs: &SlabIndex, notes: &[u8], granule: u32) -> Option<SlabAt>
    ensures { MatchOption result (IsInNoSlabOf (class_in slabs.now) granule) (λ slab. IsInSlabOf (class_in slabs.now) granule slab.start slab.class) }
{
    if let Some(slab) = noted_slab(slabs, notes, granule) {
        return Some(slab);
    }
    nearest_slab(slabs, granule)
}

// The slab that is noted of a granule, where it has the granule.
fn noted_slab(slabs: &SlabIndex, notes: &[u8], granule: u32) -> Option<SlabAt>
    ensures { IfSome result (λ slab. IsInSlabOf (class_in slabs.now) granule slab.start slab.class) }
{
    if granule as usize >= notes.len() {
        return None;
    }
    let back = u32::from(notes[granule as usize]);
    if back > granule || back >= SLAB_GRANULES {
        return None;
    }
    let start = granule - back;
    match slabs.class_at(start) {
        Some(class) => Some(SlabAt { start, class }),
        None => None,
    }
}

// The slab that has a granule, where one has it: of the four starts that there may be, the first that has one.
fn nearest_slab(slabs: &SlabIndex, granule: u32) -> Option<SlabAt>
    ensures { MatchOption result (IsInNoSlabOf (class_in slabs.now) granule) (λ slab. IsInSlabOf (class_in slabs.now) granule slab.start slab.class) }
{
    for back in 0..SLAB_GRANULES {
        if back <= granule {
            if let Some(class) = slabs.class_at(granule - back) {
                return Some(SlabAt {
                    start: granule - back,
                    class,
                });
            }
        }
    }
    None
}

/// The block of a class that begins at byte `at`.
pub(crate) fn block_at(slabs: &SlabIndex, notes: &[u8], class: u8, at: u32) -> SlabBlock
    requires class { class < 36 }
    requires apart { AreSlabsApart slabs.now }
    requires few { (start class : ℕ) → class_in slabs.now start ≡ Some class → start < 4096 }
    requires block { IsSomeBlock slabs.now class at }
    ensures { IsBlockAt slabs.now class at result.start result.number }
{
    let start = match slab_with(slabs, notes, at / GRANULE_BYTES) {
        Some(slab) => slab.start,
        None => 0,
    };
    SlabBlock {
        start,
        number: (at - blocks_at(granule_at(start))) / size_of_class(class),
    }
}

/// The byte at which a block of a class begins.
pub(crate) fn address_of(class: u8, block: SlabBlock) -> u32
    requires class { class < 36 }
    requires few { block.start < 4096 }
    requires within { block.number < class_capacity class }
    ensures { result ≡ (slab_block block.start class block.number).at }
{
    blocks_at(granule_at(block.start)) + block.number * size_of_class(class)
}
