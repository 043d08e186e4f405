// The checker of an image.
ghost use Rattle.std.specs.Prelude.{◌≡◌, OnOk, IfOk, IfErr};
ghost use Rattle.pool_layout.specs.Header.{IsHeader};
ghost use Rattle.heap_check.specs.Image.{header_in, IsSoundImage};
ghost use Rattle.image_defects.specs.Defects.{HasLength, FromLength, IsFirstDefect};
ghost use Rattle.image_defects.specs.Summaries.{IsSummary};
ghost use Rattle.image_check.specs.Faults.{IfDefect, HasGoodLog};

use crate::CheckFault;
use crate::stages::check_log;
use image_defects::Summary;
use pool_layout::{Defect, PoolHeader, header_of};
use std::alloc::Global;

// Looks for another length than the header's granules have, then on.
fn check_length(alloc: Global, words: &[u64], header: PoolHeader) -> Result<Summary, CheckFault>
    requires header { IsHeader words.now (header_in words.now) }
    requires same { header ≡ header_in words.now }
    ensures size { OnOk result (HasLength words.now) }
    ensures good { OnOk result (HasGoodLog words.now) }
    ensures summary { IfOk result (IsSummary words.now) }
    ensures defect { IfErr result (λ fault. IfDefect fault (FromLength words.now)) }
{
    let have = words.len() as u64;
    let need = 2048 * u64::from(header.granules);
    if have != need {
        return Err(CheckFault::Defect(Defect::BadLength {
            have: 8 * have,
            need: 8 * need,
        }));
    }
    check_log(alloc, words, header)
}

/// Checks the words of an arena. Ok comes exactly where they are a sound image, with its counts; a defect exactly where they
/// are not, and it is the first in the order of the format. Either yields to want of memory.
pub fn check_arena(alloc: Global, words: &[u64]) -> Result<Summary, CheckFault>
    ensures sound { OnOk result (IsSoundImage words.now) }
    ensures summary { IfOk result (IsSummary words.now) }
    ensures defect { IfErr result (λ fault. IfDefect fault (IsFirstDefect words.now)) }
{
    match header_of(words) {
        Ok(header) => check_length(alloc, words, header),
        Err(defect) => Err(CheckFault::Defect(defect)),
    }
}
