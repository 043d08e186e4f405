// In which slabs the blocks of roots lie.
ghost use Rattle.std.specs.Prelude.{◌≡◌, ◌<◌, ◌≤◌, ℕ, true, false, IfOk, MatchOption};
ghost use Rattle.gc_check.specs.Heap.{gc_tables};
ghost use Rattle.gc_check.specs.Image.{IsGcSoundImage};
ghost use Rattle.gc_search.specs.Known.{IsLogRead};
ghost use Rattle.gc_map.specs.GcRules.{roots_in};
ghost use Rattle.gc_map.specs.Places.{HasNoSlabOver, IsSlabOver, HasNoPlace, IsPlaceOf, ArePlaces};

use book_log::BookLog;
use gc_search::{address_of, class_field_of};
use image_reading::{is_slab, root_word, roots_of, state_word};
use pmem_lines::OutOfMemory;
use std::alloc::Global;

/// Where a small block lies: the granule at which its slab begins, the class of that, and its own.
#[derive(Clone, Copy)]
pub(crate) struct Place {
    pub(crate) start: u32,
    pub(crate) slab_class: u8,
    pub(crate) class: u8,
}

// The slab that has a granule, if one has. It begins there or at one of the three before it.
fn slab_over(words: &[u64], log: &BookLog, granule: u32) -> Option<u32>
    requires { IsLogRead words.now log.now }
    ensures { MatchOption result (HasNoSlabOver (gc_tables words.now) granule) (IsSlabOver (gc_tables words.now) granule) }
{
    let _ = words;
    for back in 0..4u32 {
        if back <= granule && is_slab(log, granule - back) {
            return Some(granule - back);
        }
    }
    None
}

/// The class of the slab that begins at a granule.
pub(crate) fn class_of_slab(words: &[u64], log: &BookLog, start: u32) -> u8
    requires sound { IsGcSoundImage words.now }
    requires read { IsLogRead words.now log.now }
    requires slab { (gc_tables words.now).slab start ≡ true }
    ensures class { result ≡ ((gc_tables words.now).header start).class }
    ensures few { result < 36 }
{
    let _ = log;
    (state_word(words, start) / 256) as u8
}

// Where the block of a root lies, if it is in a slab.
fn place_of(words: &[u64], log: &BookLog, root: u32) -> Option<Place>
    requires sound { IsGcSoundImage words.now }
    requires read { IsLogRead words.now log.now }
    ensures { MatchOption result (HasNoPlace (gc_tables words.now) root) (IsPlaceOf (gc_tables words.now) root) }
{
    let word = root_word(words, root);
    let class = class_field_of(word);
    if class == 0 {
        return None;
    }
    match slab_over(words, log, (address_of(word) / 16384) as u32) {
        None => None,
        Some(start) => Some(Place {
            start,
            slab_class: class_of_slab(words, log, start),
            class: class - 1,
        }),
    }
}

/// Where the block of each root lies that is in a slab.
pub(crate) fn places_of(
    alloc: Global,
    words: &[u64],
    log: &BookLog,
) -> Result<Vec<Option<Place>>, OutOfMemory>
    requires sound { IsGcSoundImage words.now }
    requires read { IsLogRead words.now log.now }
    ensures { IfOk result (λ places. ArePlaces (gc_tables words.now) (roots_in words.now) places.items) }
{
    let roots = roots_of(words);
    let mut places = Vec::with_capacity(alloc, roots as usize)?;
    for root in 0..roots {
        places.push(place_of(words, log, root))?;
    }
    Ok(places)
}
