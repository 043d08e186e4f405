// What the word of a root says, and which block it names.
ghost use Rattle.std.specs.Prelude.{◌≡◌, ◌<◌, ℕ, List};
ghost use Rattle.pmem_lines.specs.Pmem.{words_of};
ghost use Rattle.image_tables.specs.Tables.{large_of};
ghost use Rattle.log_steps.specs.Log.{IsBookOf};
ghost use Rattle.heap_check.specs.Image.{bounds_of};
ghost use Rattle.gc_check.specs.Heap.{address_field, class_field, gc_size, gc_tables};
ghost use Rattle.gc_check.specs.Image.{IsGcExactImage};
ghost use Rattle.gc_heap.specs.Plan.{IsGcBlockPlan, IsNamedIn};

use crate::room::VERSION;
use arena_core::BlockRefusal;
use book_log::BookLog;
use heap_model::Block;
use image_tables::Extent;
use pmem_lines::Pmem;
use pool_layout::{GRANULE_BYTES, layout_of, root_at};
use size_classes::size_of_class;

/// The block of a root, or why there is none.
pub(crate) fn block_of<P: Pmem>(device: &P, log: &BookLog, root: u32) -> Result<Block, BlockRefusal>
    requires exact { IsGcExactImage (words_of (P.state device.now)) }
    requires book { IsBookOf log.now (words_of (P.state device.now)) }
    ensures { IsGcBlockPlan (words_of (P.state device.now)) root result }
{
    if root >= layout_of(VERSION).roots {
        return Err(BlockRefusal::NoRoot);
    }
    let word = root_word(device, root);
    if word == 0 {
        return Err(BlockRefusal::Empty);
    }
    Ok(Block {
        root,
        at: address_in(word),
        size: size_in(log, word),
    })
}

/// The word of a root.
pub(crate) fn root_word<P: Pmem>(device: &P, root: u32) -> u64
    requires exact { IsGcExactImage (words_of (P.state device.now)) }
    requires root { root < (bounds_of (words_of (P.state device.now))).roots }
    ensures { result ≡ (gc_tables (words_of (P.state device.now))).word root }
{
    device.load(root_at(root))
}

/// The address that a word has.
pub(crate) fn address_in(word: u64) -> u32
    ensures { result ≡ address_field word }
{
    (word % (1 << 32)) as u32
}

/// The class that a word has and one, 0 where it is that of a large block.
pub(crate) fn class_in(word: u64) -> u8
    ensures { result ≡ class_field word }
{
    ((word >> 32) % 256) as u8
}

// The size of the block that a root's word names.
fn size_in(log: &BookLog, word: u64) -> u32
    requires { (words : List ℕ) × IsGcExactImage words × IsBookOf log.now words × IsNamedIn words word }
    ensures { (words : List ℕ) → IsBookOf log.now words → result ≡ gc_size (gc_tables words).large word }
{
    match class_in(word) {
        0 => GRANULE_BYTES * granules_at(log, address_in(word) / GRANULE_BYTES),
        class => size_of_class(class - 1),
    }
}

// How many granules the large extent has that begins at a granule, 0 where none does.
fn granules_at(log: &BookLog, start: u32) -> u32
    ensures { (words : List ℕ) → IsBookOf log.now words → result ≡ (gc_tables words).large start }
{
    granules_of(log.extent_at(start))
}

// How many granules an extent has, where it is a large one.
fn granules_of(extent: Option<Extent>) -> u32
    ensures { result ≡ large_of extent }
{
    match extent {
        Some(Extent::Large { granules }) => granules,
        Some(Extent::Slab) => 0,
        None => 0,
    }
}
