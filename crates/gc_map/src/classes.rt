// How full the slabs of each class are.
ghost use Rattle.std.specs.Prelude.{◌≡◌, ◌↔◌, ◌<◌, ◌≤◌, IsTrue, IfOk, length};
ghost use Rattle.pool_layout.specs.Header.{granules_in};
ghost use Rattle.image_defects.specs.Count.{IsCount};
ghost use Rattle.gc_check.specs.Heap.{gc_tables};
ghost use Rattle.gc_check.specs.Image.{IsGcSoundImage};
ghost use Rattle.gc_search.specs.Known.{IsLogRead};
ghost use Rattle.heap_map.specs.Facts.{IsOfClass, IsFillOf, AreClassFills};
ghost use Rattle.gc_map.specs.Slabs.{IsLiveOf, IsOldOf};
ghost use Rattle.gc_map.specs.GcRules.{roots_in, gc_rules};
ghost use Rattle.gc_map.specs.Places.{IsPlaced, ArePlaces};
ghost use Rattle.gc_map.specs.Readings.{IsReading};

use crate::places::{Place, class_of_slab};
use crate::reading::Reading;
use book_log::BookLog;
use defect_search::counted;
use heap_map::ClassFill;
use image_reading::is_slab;
use pmem_lines::OutOfMemory;
use std::alloc::Global;

// How many classes there are.
const CLASSES: u8 = 36;

// A slab of the class begins at a granule.
fn is_of_class(words: &[u64], log: &BookLog, class: u8, start: u32) -> bool
    requires sound { IsGcSoundImage words.now }
    requires read { IsLogRead words.now log.now }
    ensures { IsTrue result ↔ IsOfClass (gc_tables words.now) class start }
{
    if !is_slab(log, start) {
        return false;
    }
    class_of_slab(words, log, start) == class
}

// How many slabs are of the class.
fn slabs_of(words: &[u64], log: &BookLog, class: u8) -> u32
    requires sound { IsGcSoundImage words.now }
    requires read { IsLogRead words.now log.now }
    ensures { IsCount (IsOfClass (gc_tables words.now) class) (granules_in words.now) result }
{
    let mut count = 0;
    for start in 0..log.granules() {
        count = counted(count, is_of_class(words, log, class, start));
    }
    count
}

// The block of a root is of the class, and lies in a slab of the class.
fn is_live(words: &[u64], class: u8, root: u32, place: Option<Place>) -> bool
    requires sound { IsGcSoundImage words.now }
    requires place { IsPlaced (gc_tables words.now) root place }
    ensures { IsTrue result ↔ IsLiveOf (gc_tables words.now) class root }
{
    let _ = words;
    let _ = root;
    match place {
        None => false,
        Some(place) => place.class == class && place.slab_class == class,
    }
}

// The block of a root is of the class, and lies in a slab of another.
fn is_old(words: &[u64], class: u8, root: u32, place: Option<Place>) -> bool
    requires sound { IsGcSoundImage words.now }
    requires place { IsPlaced (gc_tables words.now) root place }
    ensures { IsTrue result ↔ IsOldOf (gc_tables words.now) class root }
{
    let _ = words;
    let _ = root;
    match place {
        None => false,
        Some(place) => place.class == class && place.slab_class != class,
    }
}

// How many blocks of the class lie in slabs of the class.
fn count_live(words: &[u64], places: &[Option<Place>], class: u8) -> u32
    requires sound { IsGcSoundImage words.now }
    requires places { ArePlaces (gc_tables words.now) (roots_in words.now) places.now }
    ensures { IsCount (IsLiveOf (gc_tables words.now) class) (roots_in words.now) result }
{
    let mut count = 0;
    for root in 0..places.len() as u32 {
        count = counted(count, is_live(words, class, root, places[root as usize]));
    }
    count
}

// How many lie in slabs of others.
fn count_old(words: &[u64], places: &[Option<Place>], class: u8) -> u32
    requires sound { IsGcSoundImage words.now }
    requires places { ArePlaces (gc_tables words.now) (roots_in words.now) places.now }
    ensures { IsCount (IsOldOf (gc_tables words.now) class) (roots_in words.now) result }
{
    let mut count = 0;
    for root in 0..places.len() as u32 {
        count = counted(count, is_old(words, class, root, places[root as usize]));
    }
    count
}

// How full the slabs of a class are.
fn class_fill(words: &[u64], reading: &Reading, class: u8) -> ClassFill
    requires { IsReading words.now reading.now }
    ensures { IsFillOf gc_rules words.now class result }
{
    ClassFill {
        slabs: slabs_of(words, &reading.image.log, class),
        live: count_live(words, &reading.places, class),
        old: count_old(words, &reading.places, class),
    }
}

/// How full the slabs of each class are.
pub(crate) fn class_fills(
    alloc: Global,
    words: &[u64],
    reading: &Reading,
) -> Result<Vec<ClassFill>, OutOfMemory>
    requires { IsReading words.now reading.now }
    ensures { IfOk result (λ fills. AreClassFills gc_rules words.now fills.items) }
{
    let mut fills = Vec::with_capacity(alloc, CLASSES as usize)?;
    for class in 0..CLASSES {
        fills.push(class_fill(words, reading, class))?;
    }
    Ok(fills)
}
