// State words of slabs.
ghost use Rattle.std.specs.Prelude.{◌≡◌, ◌↔◌, false, IsTrue, OnOk, IfErr, MatchOption};
ghost use Rattle.image_defects.specs.Least.{IsLeast};
ghost use Rattle.gc_check.specs.Image.{IsNormalWord, AreNormalSlabs};
ghost use Rattle.gc_check.specs.Defects.{IsBadSlab, IsGcSlabDefect};
ghost use Rattle.gc_search.specs.Known.{IsLogRead, IsNormalIfSlab};

use book_log::BookLog;
use image_reading::{is_slab, state_word};
use pool_layout::Defect;

// A state word says Normal with a class, and nothing else.
fn is_normal_word(word: u64) -> bool
    ensures { IsTrue result ↔ IsNormalWord word }
{
    word % 256 == 1 && word / 256 < 36
}

// The state word of the slab that starts at a granule, if one does, says something else.
fn is_bad_slab(words: &[u64], log: &BookLog, start: u32) -> bool
    requires { IsLogRead words.now log.now }
    ensures bad { IsTrue result → IsBadSlab words.now start }
    ensures normal { result ≡ false → IsNormalIfSlab words.now start }
{
    if !is_slab(log, start) {
        return false;
    }
    !is_normal_word(state_word(words, start))
}

// The lowest slab of which it does.
fn bad_slab(words: &[u64], log: &BookLog) -> Option<u32>
    requires { IsLogRead words.now log.now }
    ensures { MatchOption result (AreNormalSlabs words.now) (IsLeast (IsBadSlab words.now)) }
{
    for start in 0..log.granules() {
        if is_bad_slab(words, log, start) {
            return Some(start);
        }
    }
    None
}

/// Looks for a slab whose state word is not Normal with a class.
pub(crate) fn check_slabs(words: &[u64], log: &BookLog) -> Result<(), Defect>
    requires { IsLogRead words.now log.now }
    ensures slabs { OnOk result (AreNormalSlabs words.now) }
    ensures defect { IfErr result (IsGcSlabDefect words.now) }
{
    match bad_slab(words, log) {
        None => Ok(()),
        Some(start) => Err(Defect::BadSlab {
            start,
            value: state_word(words, start),
        }),
    }
}
