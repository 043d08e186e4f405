// The last three classes of defects, one after another.
ghost use Rattle.std.specs.Prelude.{◌≡◌, OnOk, IfOk, IfErr};
ghost use Rattle.image_tables.specs.Tables.{tables_of};
ghost use Rattle.image_defects.specs.Defects.{FromShared};
ghost use Rattle.image_defects.specs.Summaries.{IsSummary};
ghost use Rattle.defect_search.specs.Claims.{AreClaims};
ghost use Rattle.image_check.specs.Faults.{AreSlabsRead, IfDefect, HasGoodBlocks};

use crate::CheckFault;
use crate::summing::summary_of;
use book_log::BookLog;
use defect_search::{Claim, by_address, is_too_many, loose_things, shared_pair, stray_bit};
use image_defects::Summary;
use image_reading::Slab;
use image_tables::WalEntry;
use pool_layout::Defect;
use std::alloc::Global;

/// Looks for shared blocks, then stray ones, then loose things. `claims` has the blocks of the roots, `slabs` all slabs.
pub(crate) fn check_blocks(
    alloc: Global,
    words: &[u64],
    log: &BookLog,
    entry: Option<WalEntry>,
    slabs: &[Slab],
    claims: &[Claim],
) -> Result<Summary, CheckFault>
    requires known { AreSlabsRead words.now log.now slabs.now }
    requires entry { (tables_of words.now).open_entry ≡ entry }
    requires claims { AreClaims (tables_of words.now) claims.now }
    ensures good { OnOk result (HasGoodBlocks words.now) }
    ensures summary { IfOk result (IsSummary words.now) }
    ensures defect { IfErr result (λ fault. IfDefect fault (FromShared words.now)) }
{
    let sorted = match by_address(alloc, claims) {
        Ok(sorted) => sorted,
        Err(error) => return Err(CheckFault::Memory(error)),
    };
    if let Some(pair) = shared_pair(claims, &sorted) {
        return Err(CheckFault::Defect(Defect::SharedBlock {
            first: pair.first,
            second: pair.second,
        }));
    }
    if let Some(at) = stray_bit(words, slabs, &sorted) {
        return Err(CheckFault::Defect(Defect::StrayBit { at }));
    }
    let loose = match loose_things(alloc, words, log, entry) {
        Ok(loose) => loose,
        Err(error) => return Err(CheckFault::Memory(error)),
    };
    if is_too_many(&loose) {
        return Err(CheckFault::Defect(Defect::TooManyLoose {
            large: loose.large,
            empty: loose.empty,
            morphing: loose.morphing,
            done: loose.done,
        }));
    }
    Ok(summary_of(words, log, entry, &loose))
}
