// What an arena keeps beside its words is read from an image that is there: its roots are counted, and its extents taken over.
ghost use Rattle.std.specs.Prelude.{◌≡◌, ◌+◌, ◌<◌, ℕ, List, true, Some};
ghost use Rattle.pmem_lines.specs.Pmem.{words_of};
ghost use Rattle.image_tables.specs.Tables.{is_slab};
ghost use Rattle.book_log.specs.Entry.{start_of};
ghost use Rattle.log_steps.specs.Log.{IsBookOf};
ghost use Rattle.heap_indexes.specs.Indexes.{AreIndexesOf};
ghost use Rattle.heap_check.specs.Image.{bounds_of};
ghost use Rattle.gc_check.specs.Image.{IsGcExactImage};
ghost use Rattle.gc_check.specs.State.{gc_slabs};
ghost use Rattle.gc_heap.specs.Arena.{state_in};
ghost use Rattle.gc_heap.specs.Adopting.{AreReadTo, IsNextExtent, IsSmallOf, HasSlabAround, IsSlabAround};

use crate::blocks::{address_in, class_in, root_word};
use crate::room::VERSION;
use book_log::{BookLog, LogEntry};
use heap_indexes::HeapIndexes;
use image_tables::Extent;
use pmem_lines::Pmem;
use pool_layout::{GRANULE_BYTES, granule_at, layout_of};
use size_classes::size_of_class;

/// Makes the indexes of an empty heap those of an exact image, which has this log.
pub(crate) fn read_image<P: Pmem>(device: &P, log: &BookLog, indexes: &mut HeapIndexes)
    requires exact { IsGcExactImage (words_of (P.state device.now)) }
    requires book { IsBookOf log.now (words_of (P.state device.now)) }
    requires none { AreReadTo (words_of (P.state device.now)) 0 0 indexes.old }
    ensures are { AreIndexesOf (bounds_of (words_of (P.state device.now))) (state_in (words_of (P.state device.now))) indexes.new }
    ensures stacks { indexes.new.supply.stacks ≡ indexes.old.supply.stacks }
{
    for root in 0..layout_of(VERSION).roots {
        count_root(device, log, indexes, root);
    }
    let mut from = 0;
    while let Some(extent) = log.next_live(from) {
        take_extent(device, log, indexes, extent);
        from = extent.start() + 1;
    }
}

// Counts a root; those below it are counted.
fn count_root<P: Pmem>(device: &P, log: &BookLog, indexes: &mut HeapIndexes, root: u32)
    requires exact { IsGcExactImage (words_of (P.state device.now)) }
    requires book { IsBookOf log.now (words_of (P.state device.now)) }
    requires root { root < (bounds_of (words_of (P.state device.now))).roots }
    requires counted { AreReadTo (words_of (P.state device.now)) root 0 indexes.old }
    ensures counted { AreReadTo (words_of (P.state device.now)) (root + 1) 0 indexes.new }
    ensures stacks { indexes.new.supply.stacks ≡ indexes.old.supply.stacks }
{
    let word = root_word(device, root);
    match class_in(word) {
        0 => {}
        class => count_small(
            device,
            log,
            indexes,
            root,
            address_in(word),
            size_of_class(class - 1),
        ),
    }
}

// Counts a root that names a small block, of so many bytes from byte `at` on.
fn count_small<P: Pmem>(
    device: &P,
    log: &BookLog,
    indexes: &mut HeapIndexes,
    root: u32,
    at: u32,
    size: u32,
)
    requires exact { IsGcExactImage (words_of (P.state device.now)) }
    requires book { IsBookOf log.now (words_of (P.state device.now)) }
    requires counted { AreReadTo (words_of (P.state device.now)) root 0 indexes.old }
    requires block { IsSmallOf (words_of (P.state device.now)) root at size }
    ensures counted { AreReadTo (words_of (P.state device.now)) (root + 1) 0 indexes.new }
    ensures stacks { indexes.new.supply.stacks ≡ indexes.old.supply.stacks }
{
    let start = slab_around(device, log, at / GRANULE_BYTES);
    let class = class_at(device, start);
    indexes.count_block(start, at, size, size != size_of_class(class));
}

// The start of the slab that a granule lies in.
fn slab_around<P: Pmem>(device: &P, log: &BookLog, granule: u32) -> u32
    requires exact { IsGcExactImage (words_of (P.state device.now)) }
    requires book { IsBookOf log.now (words_of (P.state device.now)) }
    requires slab { HasSlabAround (words_of (P.state device.now)) granule }
    ensures { IsSlabAround (words_of (P.state device.now)) granule result }
{
    let _ = device;
    let mut start = granule;
    while !is_slab(log, start) {
        start -= 1;
    }
    start
}

// Whether a slab begins at a granule.
fn is_slab(log: &BookLog, start: u32) -> bool
    ensures { (words : List ℕ) → IsBookOf log.now words → result ≡ is_slab words start }
{
    match log.extent_at(start) {
        Some(Extent::Slab) => true,
        Some(Extent::Large { .. }) => false,
        None => false,
    }
}

// The class of the slab that begins at a granule.
fn class_at<P: Pmem>(device: &P, start: u32) -> u8
    requires exact { IsGcExactImage (words_of (P.state device.now)) }
    requires slab { is_slab (words_of (P.state device.now)) start ≡ true }
    ensures { gc_slabs (words_of (P.state device.now)) start ≡ Some result }
{
    (device.load(granule_at(start)) / 256) as u8
}

// Takes over an extent; all roots are counted, and those that begin below it are taken over.
fn take_extent<P: Pmem>(device: &P, log: &BookLog, indexes: &mut HeapIndexes, extent: LogEntry)
    requires exact { IsGcExactImage (words_of (P.state device.now)) }
    requires book { IsBookOf log.now (words_of (P.state device.now)) }
    requires next { IsNextExtent (words_of (P.state device.now)) indexes.old extent }
    ensures taken { AreReadTo (words_of (P.state device.now)) (bounds_of (words_of (P.state device.now))).roots (start_of extent + 1) indexes.new }
    ensures stacks { indexes.new.supply.stacks ≡ indexes.old.supply.stacks }
{
    let _ = log;
    match extent {
        LogEntry::Large { start, granules } => indexes.take_large(start, granules),
        LogEntry::Slab { start } => indexes.take_slab(start, class_at(device, start)),
        LogEntry::Tomb { .. } => {}
    }
}
