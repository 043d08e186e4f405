// How many blocks live in a slab.
ghost use Rattle.std.specs.Prelude.{◌≡◌, ◌≢◌, ◌↔◌, ◌+◌, ◌*◌, ◌<◌, ◌≤◌, true, IsTrue};
ghost use Rattle.size_classes.specs.Classes.{class_size, class_capacity};
ghost use Rattle.image_tables.specs.Forms.{normal_kind, morphing_kind};
ghost use Rattle.image_tables.specs.Tables.{tables_of};
ghost use Rattle.slab_header.specs.State.{kind_of, class_of, old_of, entries_of, IsValidState};
ghost use Rattle.image_defects.specs.Count.{IsCount};
ghost use Rattle.image_reading.specs.Slabs.{IsSlabAt, IsRead};
ghost use Rattle.heap_map.specs.LogRules.{log_rules};
ghost use Rattle.heap_map.specs.Cells.{IsSetBit, IsLivePlace, IsLiveCount, IsOldCount, IsSlabFill};

use crate::cell::SlabFill;
use defect_search::counted;
use image_reading::{Slab, bit_at, live_at};
use size_classes::{capacity, size_of_class};
use slab_header::SlabState;

// How many blocks of a slab have their bits set, of so many.
fn count_bits(words: &[u64], start: u32, blocks: u32) -> u32
    requires slab { IsSlabAt words.now start }
    requires few { blocks ≤ 4096 }
    ensures count { IsCount (IsSetBit ((tables_of words.now).header start)) blocks result }
    ensures most { result ≤ blocks }
{
    let mut count = 0;
    for i in 0..blocks {
        count = counted(count, bit_at(words, start, i));
    }
    count
}

// How many of the first places of a slab's index table have a live block.
fn count_places(words: &[u64], start: u32, places: u32) -> u32
    requires slab { IsSlabAt words.now start }
    requires few { places ≤ 64 }
    ensures count { IsCount (IsLivePlace ((tables_of words.now).header start)) places result }
    ensures most { result ≤ places }
{
    let mut count = 0;
    for place in 0..places {
        count = counted(count, live_at(words, start, place));
    }
    count
}

// How many blocks of its class live in a slab.
fn live_of(words: &[u64], slab: Slab) -> u32
    requires { IsRead words.now slab }
    ensures count { IsLiveCount ((tables_of words.now).header slab.start) result }
    ensures few { result ≤ 4096 }
{
    match slab.state {
        SlabState::Normal { class } => count_bits(words, slab.start, capacity(class)),
        SlabState::Morphing { .. } => 0,
        SlabState::Morphed { class, .. } => count_bits(words, slab.start, capacity(class)),
    }
}

// How many blocks of the class before live in a slab.
fn old_of(words: &[u64], slab: Slab) -> u32
    requires { IsRead words.now slab }
    ensures count { IsOldCount ((tables_of words.now).header slab.start) result }
    ensures few { result ≤ 64 }
{
    match slab.state {
        SlabState::Normal { .. } => 0,
        SlabState::Morphing { entries, .. } => count_places(words, slab.start, u32::from(entries)),
        SlabState::Morphed { entries, .. } => count_places(words, slab.start, u32::from(entries)),
    }
}

// Bytes of so many blocks of the class of a slab, and so many of the class before.
fn bytes_of(state: SlabState, live: u32, old: u32) -> u32
    requires valid { IsValidState state }
    requires live { live ≤ 4096 }
    requires old { old ≤ 64 }
    ensures { result ≡ live * class_size (class_of state) + old * class_size (old_of state) }
{
    match state {
        SlabState::Normal { class } => live * size_of_class(class) + old * size_of_class(0),
        SlabState::Morphing {
            class,
            old: was,
            ..
        } => live * size_of_class(class) + old * size_of_class(was),
        SlabState::Morphed {
            class,
            old: was,
            ..
        } => live * size_of_class(class) + old * size_of_class(was),
    }
}

// The slab is in transition.
fn is_turning(state: SlabState) -> bool
    ensures { IsTrue result ↔ (kind_of state ≢ normal_kind) }
{
    match state {
        SlabState::Normal { .. } => false,
        SlabState::Morphing { .. } => true,
        SlabState::Morphed { .. } => true,
    }
}

/// A slab that was read, with how many blocks live in it.
pub(crate) fn fill_of(words: &[u64], slab: Slab) -> SlabFill
    requires { IsRead words.now slab }
    ensures slab { result.slab ≡ slab }
    ensures fill { IsSlabFill log_rules words.now result }
{
    let live = live_of(words, slab);
    let old = old_of(words, slab);
    SlabFill {
        slab,
        live,
        old,
        bytes: bytes_of(slab.state, live, old),
        turns: is_turning(slab.state),
    }
}
