// How a malloc and a free carry out on the words what they decided.
ghost use Rattle.std.specs.Prelude.{◌≡◌, ◌<◌, ◌++◌, [], None};
ghost use Rattle.pmem_lines.specs.Pmem.{words_of, HasRoom};
ghost use Rattle.pmem_lines.specs.Steps.{IsQuietStep};
ghost use Rattle.log_steps.specs.Log.{IsBookOf};
ghost use Rattle.heap_model.specs.Machine.{Range, slab_block};
ghost use Rattle.heap_model.specs.Choice.{range_of};
ghost use Rattle.heap_indexes.specs.Steps.{site_of};
ghost use Rattle.heap_check.specs.Image.{bounds_of};
ghost use Rattle.arena_core.specs.Call.{IsReady};
ghost use Rattle.gc_check.specs.Heap.{small_word};
ghost use Rattle.gc_check.specs.Image.{IsGcExactImage};
ghost use Rattle.gc_check.specs.State.{gc_blocks, IsEitherGcHeap};
ghost use Rattle.gc_steps.specs.Roots.{root_events};
ghost use Rattle.gc_heap.specs.Plan.{HasPlaceFor, IsInReach, IsBlockPlace, word_of_place, prepare_events, IsPrepared, IsPlacedWords, given_events, HasGivenAs, IsFreedWords};

use arena_core::Placed;
use book_log::BookLog;
use gc_steps::{attach, create_large, create_slab, detach, drop_extent, put_class};
use heap_indexes::{Given, Place};
use pmem_lines::Pmem;
use pool_layout::{GRANULE_BYTES, blocks_at, granule_at};
use size_classes::size_of_class;

/// Gives a root, which has none, the block of a place: first it is there for a root, and then the root gets its word.
pub(crate) fn carry_out_place<P: Pmem>(
    device: &mut P,
    log: &mut BookLog,
    root: u32,
    place: Place,
) -> Placed
    requires ready { IsReady (P.state device.old) }
    requires fresh { (P.state device.old).events ≡ [] }
    requires exact { IsGcExactImage (words_of (P.state device.old)) }
    requires book { IsBookOf log.old (words_of (P.state device.old)) }
    requires rooted { root < (bounds_of (words_of (P.state device.old))).roots }
    requires none { gc_blocks (words_of (P.state device.old)) root ≡ None }
    requires place { HasPlaceFor (words_of (P.state device.old)) place }
    ensures step { IsQuietStep (P.state device.old) (P.state device.new) (prepare_events (words_of (P.state device.old)) place ++ root_events root (word_of_place place)) (IsEitherGcHeap (words_of (P.state device.old)) (words_of (P.state device.new))) }
    ensures placed { IsPlacedWords (words_of (P.state device.old)) root place (words_of (P.state device.new)) }
    ensures at { result.at ≡ (range_of (site_of place)).at }
    ensures size { result.size ≡ (range_of (site_of place)).size }
    ensures book { IsBookOf log.new (words_of (P.state device.new)) }
{
    let placed = placed_of(place);
    let word = word_of(place, placed.at);
    prepare(device, log, place);
    attach(device, root, word);
    placed
}

// Makes a place be there for a root: its extent comes, or its slab takes the class, or nothing is to be done.
fn prepare<P: Pmem>(device: &mut P, log: &mut BookLog, place: Place)
    requires ready { IsReady (P.state device.old) }
    requires fresh { (P.state device.old).events ≡ [] }
    requires exact { IsGcExactImage (words_of (P.state device.old)) }
    requires book { IsBookOf log.old (words_of (P.state device.old)) }
    requires place { HasPlaceFor (words_of (P.state device.old)) place }
    ensures step { IsQuietStep (P.state device.old) (P.state device.new) (prepare_events (words_of (P.state device.old)) place) (IsEitherGcHeap (words_of (P.state device.old)) (words_of (P.state device.new))) }
    ensures prepared { IsPrepared (words_of (P.state device.old)) place (words_of (P.state device.new)) }
    ensures book { IsBookOf log.new (words_of (P.state device.new)) }
    ensures room { HasRoom (P.state device.new) 3 }
{
    match place {
        Place::Granules { start, granules } => create_large(device, log, start, granules),
        Place::InSlab { .. } => {}
        Place::InMorph { start, class, .. } => put_class(device, start, class),
        Place::InNewSlab { start, class, .. } => create_slab(device, log, start, class),
    }
}

// The block of a place.
fn placed_of(place: Place) -> Placed
    requires { IsInReach place }
    ensures at { result.at ≡ (range_of (site_of place)).at }
    ensures size { result.size ≡ (range_of (site_of place)).size }
{
    match place {
        Place::Granules { start, granules } => Placed {
            at: granule_at(start),
            size: GRANULE_BYTES * granules,
        },
        Place::InSlab {
            start,
            class,
            number,
        } => small_block(start, class, number),
        Place::InMorph {
            start,
            class,
            number,
        } => small_block(start, class, number),
        Place::InNewSlab {
            start,
            class,
            number,
        } => small_block(start, class, number),
    }
}

// The block of a slab with a number.
fn small_block(start: u32, class: u8, number: u32) -> Placed
    requires { IsBlockPlace start class number }
    ensures at { result.at ≡ (slab_block start class number).at }
    ensures size { result.size ≡ (slab_block start class number).size }
{
    let size = size_of_class(class);
    Placed {
        at: blocks_at(granule_at(start)) + number * size,
        size,
    }
}

// The word that a root gets for the block of a place, which begins at byte `at`.
fn word_of(place: Place, at: u32) -> u64
    requires reach { IsInReach place }
    requires at { at ≡ (range_of (site_of place)).at }
    ensures { result ≡ word_of_place place }
{
    match place {
        Place::Granules { .. } => u64::from(at),
        Place::InSlab { class, .. } => small_word(at, class),
        Place::InMorph { class, .. } => small_word(at, class),
        Place::InNewSlab { class, .. } => small_word(at, class),
    }
}

// The word of a small block of a class.
fn small_word(at: u32, class: u8) -> u64
    requires { class < 36 }
    ensures { result ≡ small_word at class }
{
    u64::from(at) + ((u64::from(class) + 1) << 32)
}

/// Takes its block from a root, and then its extent away where no other root's block lies in it, by what came back to the indexes.
pub(crate) fn carry_out_given<P: Pmem>(device: &mut P, log: &mut BookLog, root: u32, given: Given)
    requires ready { IsReady (P.state device.old) }
    requires fresh { (P.state device.old).events ≡ [] }
    requires exact { IsGcExactImage (words_of (P.state device.old)) }
    requires book { IsBookOf log.old (words_of (P.state device.old)) }
    requires given { (range : Range) × HasGivenAs (words_of (P.state device.old)) root range given }
    ensures step { IsQuietStep (P.state device.old) (P.state device.new) (given_events (words_of (P.state device.old)) root given) (IsEitherGcHeap (words_of (P.state device.old)) (words_of (P.state device.new))) }
    ensures freed { (range : Range) → HasGivenAs (words_of (P.state device.old)) root range given → IsFreedWords (words_of (P.state device.old)) root range (words_of (P.state device.new)) }
    ensures book { IsBookOf log.new (words_of (P.state device.new)) }
{
    detach(device, root);
    match given {
        Given::Granules { start } => drop_extent(device, log, start),
        Given::Slab { start } => drop_extent(device, log, start),
        Given::Block => {}
    }
}
