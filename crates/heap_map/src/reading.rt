// What is read of an image before its granules are gone through.
ghost use Rattle.std.specs.Prelude.{◌≡◌, ◌↔◌, IfOk, IsTrue, Option};
ghost use Rattle.pool_layout.specs.Header.{granules_in};
ghost use Rattle.book_log.specs.Book.{Reads};
ghost use Rattle.heap_check.specs.Image.{IsSoundImage};
ghost use Rattle.heap_map.specs.Cells.{HasOpen};
ghost use Rattle.heap_map.specs.Scans.{IsReading};

use book_log::BookLog;
use defect_search::{named_granules, named_starts, open_entry};
use image_tables::WalEntry;
use pmem_lines::OutOfMemory;
use std::alloc::Global;

// Words of a granule.
const GRANULE_WORDS: usize = 2048;

/// What is read of an image before its granules are gone through: the live extents, whether an entry is open, and the granules
/// at whose first byte, and in which, a root's block begins.
#[derive(Drop)]
pub(crate) struct Reading {
    pub(crate) log: BookLog,
    pub(crate) opens: bool,
    pub(crate) starts: Vec<bool>,
    pub(crate) met: Vec<bool>,
}

// An entry is open.
fn has_open(entry: Option<WalEntry>) -> bool
    ensures { IsTrue result ↔ HasOpen entry }
{
    match entry {
        None => false,
        Some(_) => true,
    }
}

/// The live extents of a sound image.
pub(crate) fn log_of(alloc: Global, words: &[u64]) -> Result<BookLog, OutOfMemory>
    requires { IsSoundImage words.now }
    ensures reads { IfOk result (λ log. Reads log words.now) }
    ensures granules { IfOk result (λ log. log.granules ≡ granules_in words.now) }
{
    let granules = (words.len() / GRANULE_WORDS) as u32;
    let mut log = BookLog::new(alloc, granules)?;
    log.load_words(words);
    Ok(log)
}

/// Reads a sound image.
pub(crate) fn read(alloc: Global, words: &[u64]) -> Result<Reading, OutOfMemory>
    requires { IsSoundImage words.now }
    ensures { IfOk result (IsReading words.now) }
{
    let log = log_of(alloc, words)?;
    let granules = log.granules();
    let entry = open_entry(words);
    let starts = named_starts(alloc, words, entry, granules)?;
    let met = named_granules(alloc, words, entry, granules)?;
    Ok(Reading {
        log,
        opens: has_open(entry),
        starts,
        met,
    })
}
