// The length of an image, its log and its extents: what both variants have alike.
ghost use Rattle.std.specs.Prelude.{◌<◌, length, OnOk, IfErr};
ghost use Rattle.image_tables.specs.Tables.{tables_of};
ghost use Rattle.image_defects.specs.Defects.{HasLength, IsLengthDefect};
ghost use Rattle.image_defects.specs.Log.{HasDirectory, IsDirectoryDefect, HasEntries, IsEntryDefect, AreDisjoint, IsOverlapDefect};
ghost use Rattle.pool_layout.specs.Header.{IsGcHeader};
ghost use Rattle.gc_search.specs.Known.{IsLogRead};

use book_log::BookLog;
use defect_search::{bad_directory, bad_entry, first_overlap};
use pool_layout::{Defect, PoolHeader};

/// Looks for another length than the header's granules have.
pub(crate) fn check_length(words: &[u64], header: &PoolHeader) -> Result<(), Defect>
    requires { IsGcHeader words.now header.now }
    ensures size { OnOk result (HasLength words.now) }
    ensures defect { IfErr result (IsLengthDefect words.now) }
{
    let have = words.len() as u64;
    let need = 2048 * u64::from(header.granules);
    if have != need {
        return Err(Defect::BadLength {
            have: 8 * have,
            need: 8 * need,
        });
    }
    Ok(())
}

/// Looks for a bad directory of the log.
pub(crate) fn check_directory(words: &[u64]) -> Result<(), Defect>
    requires { 2 < length words.now }
    ensures directory { OnOk result (HasDirectory words.now) }
    ensures defect { IfErr result (IsDirectoryDefect words.now) }
{
    match bad_directory(words) {
        None => Ok(()),
        Some(value) => Err(Defect::BadDirectory { value }),
    }
}

/// Looks for a bad entry of the log, whose directory is good.
pub(crate) fn check_entries(words: &[u64], header: &PoolHeader) -> Result<(), Defect>
    requires header { IsGcHeader words.now header.now }
    requires size { HasLength words.now }
    requires directory { HasDirectory words.now }
    ensures entries { OnOk result (HasEntries words.now) }
    ensures defect { IfErr result (IsEntryDefect words.now) }
{
    match bad_entry(words, header.version, header.granules) {
        None => Ok(()),
        Some(place) => Err(Defect::BadEntry {
            chunk: place.chunk as u8,
            entry: place.entry as u16,
            value: place.value,
        }),
    }
}

/// Looks for live extents that overlap.
pub(crate) fn check_extents(words: &[u64], log: &BookLog) -> Result<(), Defect>
    requires { IsLogRead words.now log.now }
    ensures disjoint { OnOk result (AreDisjoint (tables_of words.now)) }
    ensures defect { IfErr result (IsOverlapDefect words.now) }
{
    match first_overlap(words, log) {
        None => Ok(()),
        Some(pair) => Err(Defect::Overlap {
            first: pair.first,
            second: pair.second,
        }),
    }
}
