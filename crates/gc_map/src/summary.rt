// How many extents are live, how many roots hold a block, and how many things are loose.
ghost use Rattle.std.specs.Prelude.{◌≡◌, ◌+◌, ◌↔◌, ◌<◌, ◌≤◌, IsTrue};
ghost use Rattle.pool_layout.specs.Header.{granules_in};
ghost use Rattle.heap_check.specs.Sound.{IsLooseLarge, IsEmptySlab};
ghost use Rattle.image_defects.specs.Count.{IsCount};
ghost use Rattle.image_defects.specs.Summaries.{HasLarge, HasSlab, HasRoot};
ghost use Rattle.gc_check.specs.Heap.{gc_tables};
ghost use Rattle.gc_check.specs.Image.{IsGcSoundImage};
ghost use Rattle.gc_search.specs.Image.{IsSoundWith};
ghost use Rattle.heap_map.specs.Facts.{AreSummed};
ghost use Rattle.gc_map.specs.GcRules.{roots_in, gc_rules};

use defect_search::counted;
use gc_search::{GcImage, address_of, is_empty_slab, is_loose_large};
use image_defects::Summary;
use image_reading::{is_slab, large_at, root_word, roots_of};

// A large extent begins at a granule.
fn has_large(words: &[u64], image: &GcImage, start: u32) -> bool
    requires { IsSoundWith words.now image.now }
    ensures { IsTrue result ↔ HasLarge (gc_tables words.now) start }
{
    let _ = words;
    large_at(&image.log, start) > 0
}

// How many do.
fn count_large(words: &[u64], image: &GcImage) -> u32
    requires { IsSoundWith words.now image.now }
    ensures { IsCount (HasLarge (gc_tables words.now)) (granules_in words.now) result }
{
    let mut count = 0;
    for start in 0..image.log.granules() {
        count = counted(count, has_large(words, image, start));
    }
    count
}

// A slab begins at a granule.
fn has_slab(words: &[u64], image: &GcImage, start: u32) -> bool
    requires { IsSoundWith words.now image.now }
    ensures { IsTrue result ↔ HasSlab (gc_tables words.now) start }
{
    let _ = words;
    is_slab(&image.log, start)
}

// How many do.
fn count_slabs(words: &[u64], image: &GcImage) -> u32
    requires { IsSoundWith words.now image.now }
    ensures { IsCount (HasSlab (gc_tables words.now)) (granules_in words.now) result }
{
    let mut count = 0;
    for start in 0..image.log.granules() {
        count = counted(count, has_slab(words, image, start));
    }
    count
}

// A root holds a block.
fn has_root(words: &[u64], root: u32) -> bool
    requires { IsGcSoundImage words.now }
    ensures { IsTrue result ↔ HasRoot (gc_tables words.now) root }
{
    address_of(root_word(words, root)) != 0
}

// How many do.
fn count_roots(words: &[u64]) -> u32
    requires { IsGcSoundImage words.now }
    ensures { IsCount (HasRoot (gc_tables words.now)) (roots_in words.now) result }
{
    let mut count = 0;
    for root in 0..roots_of(words) {
        count = counted(count, has_root(words, root));
    }
    count
}

// How many large extents no root names.
fn count_loose_large(words: &[u64], image: &GcImage) -> u32
    requires { IsSoundWith words.now image.now }
    ensures count { IsCount (IsLooseLarge (gc_tables words.now)) (granules_in words.now) result }
    ensures few { result ≤ 1024 }
{
    let mut count = 0;
    for start in 0..image.log.granules() {
        count = counted(
            count,
            is_loose_large(words, &image.log, &image.names, start),
        );
    }
    count
}

// In how many slabs no root's block lies.
fn count_empty(words: &[u64], image: &GcImage) -> u32
    requires { IsSoundWith words.now image.now }
    ensures count { IsCount (IsEmptySlab (gc_tables words.now)) (granules_in words.now) result }
    ensures few { result ≤ 1024 }
{
    let mut count = 0;
    for start in 0..image.log.granules() {
        count = counted(count, is_empty_slab(words, &image.log, &image.names, start));
    }
    count
}

/// How many large extents and slabs are live, how many roots hold a block, and how many things are loose, of a sound image.
pub(crate) fn summary_of(words: &[u64], image: &GcImage) -> Summary
    requires { IsSoundWith words.now image.now }
    ensures { AreSummed gc_rules words.now result }
{
    let loose_large = count_loose_large(words, image);
    let empty = count_empty(words, image);
    Summary {
        large: count_large(words, image),
        slabs: count_slabs(words, image),
        blocks: count_roots(words),
        loose: loose_large + empty,
    }
}
