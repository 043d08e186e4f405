// What is read of an image before its granules are gone through.
ghost use Rattle.std.specs.Prelude.{IfOk};
ghost use Rattle.gc_search.specs.Image.{IsSoundWith};
ghost use Rattle.gc_map.specs.Readings.{IsReading};

use crate::places::{Place, places_of};
use crate::tallies::{Tally, tallies_of};
use gc_search::GcImage;
use pmem_lines::OutOfMemory;
use std::alloc::Global;

/// What is read of an image before its granules are gone through: the live extents and the granules that blocks of roots begin
/// in, in which slab the block of each root lies, and how many blocks live in each slab.
#[derive(Drop)]
pub(crate) struct Reading {
    pub(crate) image: GcImage,
    pub(crate) places: Vec<Option<Place>>,
    pub(crate) tallies: Vec<Tally>,
}

/// Reads a sound image, of which the search has read this.
pub(crate) fn read(alloc: Global, words: &[u64], image: GcImage) -> Result<Reading, OutOfMemory>
    requires { IsSoundWith words.now image }
    ensures { IfOk result (IsReading words.now) }
{
    let places = places_of(alloc, words, &image.log)?;
    let tallies = tallies_of(alloc, words, &places, image.log.granules())?;
    Ok(Reading {
        image,
        places,
        tallies,
    })
}
