// How many blocks live in each slab, and how many bytes they have.
ghost use Rattle.std.specs.Prelude.{◌≡◌, ◌+◌, ◌*◌, ◌<◌, ◌≤◌, ℕ, length, IfOk};
ghost use Rattle.pool_layout.specs.Header.{granules_in};
ghost use Rattle.gc_check.specs.Heap.{gc_tables};
ghost use Rattle.gc_check.specs.Image.{IsGcSoundImage};
ghost use Rattle.gc_map.specs.GcRules.{roots_in};
ghost use Rattle.gc_map.specs.Places.{IsPlaceOf, IsPlaced, ArePlaces, IsTally, tally_in, AreTallies};

use crate::places::Place;
use pmem_lines::OutOfMemory;
use size_classes::size_of_class;
use std::alloc::Global;

/// How many blocks of its class live in a slab, how many of other classes, and how many bytes they have together.
#[derive(Clone, Copy)]
pub(crate) struct Tally {
    pub(crate) live: u32,
    pub(crate) old: u32,
    pub(crate) bytes: u32,
}

/// The tally of a granule.
pub(crate) fn tally_at(tallies: &[Tally], start: u32) -> Tally
    requires { start < length tallies.now }
    ensures { result ≡ tally_in tallies.now start }
{
    tallies[start as usize]
}

// The tally of a slab with one block more, which lies in it.
fn one_more(words: &[u64], root: u32, tally: Tally, place: Place) -> Tally
    requires sound { IsGcSoundImage words.now }
    requires root { root < 4096 }
    requires place { IsPlaceOf (gc_tables words.now) root place }
    requires tally { IsTally (gc_tables words.now) place.start root tally }
    ensures { IsTally (gc_tables words.now) place.start (root + 1) result }
{
    let _ = words;
    let bytes = tally.bytes + size_of_class(place.class);
    if place.class == place.slab_class {
        return Tally {
            live: tally.live + 1,
            old: tally.old,
            bytes,
        };
    }
    Tally {
        live: tally.live,
        old: tally.old + 1,
        bytes,
    }
}

// Counts the block of a root, which lies in a slab. Those of the roots before it are counted.
fn add_place(words: &[u64], tallies: &mut [Tally], root: u32, place: Place)
    requires sound { IsGcSoundImage words.now }
    requires root { root < 4096 }
    requires place { IsPlaceOf (gc_tables words.now) root place }
    requires counted { AreTallies (gc_tables words.now) (granules_in words.now) root tallies.old }
    ensures { AreTallies (gc_tables words.now) (granules_in words.now) (root + 1) tallies.new }
{
    let start = place.start as usize;
    tallies[start] = one_more(words, root, tallies[start], place);
}

// Counts the block of a root, which lies in a slab or not. Those of the roots before it are counted.
fn count_root(words: &[u64], tallies: &mut [Tally], root: u32, place: Option<Place>)
    requires sound { IsGcSoundImage words.now }
    requires root { root < 4096 }
    requires place { IsPlaced (gc_tables words.now) root place }
    requires counted { AreTallies (gc_tables words.now) (granules_in words.now) root tallies.old }
    ensures { AreTallies (gc_tables words.now) (granules_in words.now) (root + 1) tallies.new }
{
    match place {
        None => {}
        Some(place) => add_place(words, tallies, root, place),
    }
}

// No block is counted yet.
fn no_tallies(alloc: Global, words: &[u64], granules: u32) -> Result<Vec<Tally>, OutOfMemory>
    requires { granules ≡ granules_in words.now }
    ensures { IfOk result (λ tallies. AreTallies (gc_tables words.now) (granules_in words.now) 0 tallies.items) }
{
    let _ = words;
    let mut tallies = Vec::with_capacity(alloc, granules as usize)?;
    for _granule in 0..granules {
        tallies.push(Tally {
            live: 0,
            old: 0,
            bytes: 0,
        })?;
    }
    Ok(tallies)
}

/// The tally of each granule: of the slab that begins there, if one does.
pub(crate) fn tallies_of(
    alloc: Global,
    words: &[u64],
    places: &[Option<Place>],
    granules: u32,
) -> Result<Vec<Tally>, OutOfMemory>
    requires sound { IsGcSoundImage words.now }
    requires places { ArePlaces (gc_tables words.now) (roots_in words.now) places.now }
    requires granules { granules ≡ granules_in words.now }
    ensures { IfOk result (λ tallies. AreTallies (gc_tables words.now) (granules_in words.now) (roots_in words.now) tallies.items) }
{
    let mut tallies = no_tallies(alloc, words, granules)?;
    for root in 0..places.len() as u32 {
        count_root(words, &mut tallies, root, places[root as usize]);
    }
    Ok(tallies)
}
