// The classes of defects before the last three, stage by stage.
ghost use Rattle.std.specs.Prelude.{◌≡◌, OnOk, IfOk, IfErr};
ghost use Rattle.pool_layout.specs.Header.{granules_in, IsHeader};
ghost use Rattle.book_log.specs.Book.{Reads, HasLog};
ghost use Rattle.heap_check.specs.Image.{header_in};
ghost use Rattle.image_defects.specs.Defects.{HasLength, FromDirectory, FromExtents, FromWal};
ghost use Rattle.image_defects.specs.Summaries.{IsSummary};
ghost use Rattle.image_check.specs.Faults.{AreSlabsRead, IfDefect, HasGoodRoots, HasGoodExtents, HasGoodLog};

use crate::CheckFault;
use crate::blocks::check_blocks;
use book_log::BookLog;
use defect_search::{
    bad_directory, bad_entry, bad_line, bad_slab, claims_of, first_overlap, open_entry, slabs_of,
    stray_root,
};
use image_defects::Summary;
use image_reading::{Slab, held_root, wal_word};
use pool_layout::{Defect, PoolHeader};
use std::alloc::Global;

// Looks for write-ahead words that may not be open, then for stray roots, then on. `slabs` has all slabs.
fn check_roots(
    alloc: Global,
    words: &[u64],
    log: &BookLog,
    slabs: &[Slab],
) -> Result<Summary, CheckFault>
    requires known { AreSlabsRead words.now log.now slabs.now }
    ensures good { OnOk result (HasGoodRoots words.now) }
    ensures summary { IfOk result (IsSummary words.now) }
    ensures defect { IfErr result (λ fault. IfDefect fault (FromWal words.now)) }
{
    if let Some(line) = bad_line(words, log, slabs) {
        return Err(CheckFault::Defect(Defect::BadWal {
            line: line as u8,
            value: wal_word(words, line),
        }));
    }
    let entry = open_entry(words);
    if let Some(root) = stray_root(words, log, entry) {
        return Err(CheckFault::Defect(Defect::StrayRoot {
            root,
            at: held_root(words, entry, root),
        }));
    }
    let claims = match claims_of(alloc, words, log, entry) {
        Ok(claims) => claims,
        Err(error) => return Err(CheckFault::Memory(error)),
    };
    check_blocks(alloc, words, log, entry, slabs, &claims)
}

// Looks for live extents that overlap, then for bad headers of slabs, then on.
fn check_extents(alloc: Global, words: &[u64], log: &BookLog) -> Result<Summary, CheckFault>
    requires header { IsHeader words.now (header_in words.now) }
    requires size { HasLength words.now }
    requires reads { Reads log.now words.now }
    requires granules { log.now.granules ≡ granules_in words.now }
    ensures good { OnOk result (HasGoodExtents words.now) }
    ensures summary { IfOk result (IsSummary words.now) }
    ensures defect { IfErr result (λ fault. IfDefect fault (FromExtents words.now)) }
{
    if let Some(pair) = first_overlap(words, log) {
        return Err(CheckFault::Defect(Defect::Overlap {
            first: pair.first,
            second: pair.second,
        }));
    }
    if let Some(found) = bad_slab(words, log) {
        return Err(CheckFault::Defect(Defect::BadSlab {
            start: found.start,
            value: found.value,
        }));
    }
    let slabs = match slabs_of(alloc, words, log) {
        Ok(slabs) => slabs,
        Err(error) => return Err(CheckFault::Memory(error)),
    };
    check_roots(alloc, words, log, &slabs)
}

// Reads the log, whose directory and entries are good, and looks on.
fn check_extents_of(alloc: Global, words: &[u64], granules: u32) -> Result<Summary, CheckFault>
    requires header { IsHeader words.now (header_in words.now) }
    requires size { HasLength words.now }
    requires granules { granules ≡ granules_in words.now }
    requires log { HasLog (granules_in words.now) words.now }
    ensures good { OnOk result (HasGoodExtents words.now) }
    ensures summary { IfOk result (IsSummary words.now) }
    ensures defect { IfErr result (λ fault. IfDefect fault (FromExtents words.now)) }
{
    let mut log = match BookLog::new(alloc, granules) {
        Ok(log) => log,
        Err(error) => return Err(CheckFault::Memory(error)),
    };
    log.load_words(words);
    check_extents(alloc, words, &log)
}

/// Looks for a bad directory, then for bad entries of the log, then on. The header line is good and says the version and the
/// granules, and the length is what it says.
pub(crate) fn check_log(
    alloc: Global,
    words: &[u64],
    header: PoolHeader,
) -> Result<Summary, CheckFault>
    requires header { IsHeader words.now (header_in words.now) }
    requires same { header ≡ header_in words.now }
    requires size { HasLength words.now }
    ensures good { OnOk result (HasGoodLog words.now) }
    ensures summary { IfOk result (IsSummary words.now) }
    ensures defect { IfErr result (λ fault. IfDefect fault (FromDirectory words.now)) }
{
    if let Some(value) = bad_directory(words) {
        return Err(CheckFault::Defect(Defect::BadDirectory { value }));
    }
    if let Some(place) = bad_entry(words, header.version, header.granules) {
        return Err(CheckFault::Defect(Defect::BadEntry {
            chunk: place.chunk as u8,
            entry: place.entry as u16,
            value: place.value,
        }));
    }
    check_extents_of(alloc, words, header.granules)
}
