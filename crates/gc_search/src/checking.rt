// The classes of defects, one after another.
ghost use Rattle.std.specs.Prelude.{◌≡◌, ◌≤◌, OnOk, IfOk, IfErr};
ghost use Rattle.std.specs.Vec.{vec_capacity};
ghost use Rattle.gc_check.specs.Image.{IsGcSoundImage};
ghost use Rattle.gc_check.specs.Defects.{FromExtents, IsFirstGcDefect};
ghost use Rattle.gc_search.specs.Known.{IsLogRead};
ghost use Rattle.gc_search.specs.Names.{AreBlankNames, AreNamesOf};
ghost use Rattle.gc_search.specs.Faults.{IfDefect};
ghost use Rattle.gc_search.specs.Image.{IsRoomFor, HasGoodHeap, IsSoundBy, IsSoundWith};

use crate::log::{check_directory, check_entries, check_extents, check_length};
use crate::loose::check_loose;
use crate::roots::check_roots;
use crate::shared::check_shared;
use crate::slabs::check_slabs;
use crate::{GcFault, GcImage, GcNames, GcSearch};
use book_log::BookLog;
use defect_search::Claim;
use pool_layout::{Defect, gc_header_of};
use std::alloc::Global;

/// Looks for the first defect. The log comes to be that of the words, and the names come to be those of their roots.
pub(crate) fn find_defect(
    words: &[u64],
    log: &mut BookLog,
    names: &mut GcNames,
    claims: &mut Vec<Claim>,
) -> Result<(), Defect>
    requires granules { IsRoomFor words.now log.old.granules }
    requires blank { AreBlankNames log.old.granules names.old }
    requires room { 4096 ≤ vec_capacity claims.old }
    ensures sound { OnOk result (IsSoundBy words.now log.new names.new) }
    ensures defect { IfErr result (IsFirstGcDefect words.now) }
{
    let header = gc_header_of(words)?;
    check_length(words, &header)?;
    check_directory(words)?;
    check_entries(words, &header)?;
    log.load_words(words);
    find_in_heap(words, log, names, claims)
}

// Looks for the first defect behind those of the log, which is read. The names come to be those of the roots.
fn find_in_heap(
    words: &[u64],
    log: &BookLog,
    names: &mut GcNames,
    claims: &mut Vec<Claim>,
) -> Result<(), Defect>
    requires read { IsLogRead words.now log.now }
    requires blank { AreBlankNames log.now.granules names.old }
    requires room { 4096 ≤ vec_capacity claims.old }
    ensures good { OnOk result (HasGoodHeap words.now) }
    ensures names { OnOk result (AreNamesOf words.now names.new) }
    ensures defect { IfErr result (FromExtents words.now) }
{
    check_extents(words, log)?;
    check_slabs(words, log)?;
    check_roots(words, log)?;
    check_shared(words, log, claims)?;
    names.read(words);
    check_loose(words, log, names)
}

/// Checks the words of an arena. Ok comes exactly where they are a sound image, with what was read of it; a defect exactly where
/// they are not, and it is the first in the order of the format. Either yields to want of memory, which is told before anything
/// is looked for.
pub fn check_gc_arena(alloc: Global, words: &[u64]) -> Result<GcImage, GcFault>
    ensures sound { OnOk result (IsGcSoundImage words.now) }
    ensures image { IfOk result (IsSoundWith words.now) }
    ensures defect { IfErr result (λ fault. IfDefect fault (IsFirstGcDefect words.now)) }
{
    let search = GcSearch::new(alloc, words)?;
    match search.judge(words) {
        Ok(image) => Ok(image),
        Err(defect) => Err(GcFault::Defect(defect)),
    }
}
