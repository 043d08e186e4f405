// Roots whose word names no block that may stand.
ghost use Rattle.std.specs.Prelude.{◌≡◌, ◌↔◌, ◌^◌, ◌<◌, false, IsTrue, OnOk, IfErr, MatchOption};
ghost use Rattle.image_defects.specs.Least.{IsLeast};
ghost use Rattle.gc_check.specs.Heap.{gc_tables};
ghost use Rattle.gc_check.specs.Sound.{IsClassBlock, IsGcStanding};
ghost use Rattle.gc_check.specs.Defects.{AreGcStanding, IsGcStrayRoot, IsGcRootDefect};
ghost use Rattle.gc_search.specs.Known.{IsLogRead, HasClassBlockIn, IsGcSettled};

use crate::root_word::{address_of, class_field_of, is_root_word};
use book_log::BookLog;
use image_reading::{is_large, is_slab, number_of, root_word, roots_of};
use pool_layout::Defect;

// A slab begins so many granules before another, and a block of the class stands there in it.
fn has_block_back(words: &[u64], log: &BookLog, class: u8, at: u64, back: u32) -> bool
    requires read { IsLogRead words.now log.now }
    requires class { class < 36 }
    requires few { at < 2 ^ 32 }
    ensures { IsTrue result ↔ HasClassBlockIn words.now class at back }
{
    let last = (at / 16384) as u32;
    if last < back || !is_slab(log, last - back) {
        return false;
    }
    match number_of(last - back, class, at) {
        Some(_number) => true,
        None => false,
    }
}

// A block of a class stands at the address, in a slab of whatever class. The slab begins at the address's granule or at one of the
// three before it.
fn has_class_block(words: &[u64], log: &BookLog, class: u8, at: u64) -> bool
    requires read { IsLogRead words.now log.now }
    requires class { class < 36 }
    requires few { at < 2 ^ 32 }
    ensures { IsTrue result ↔ IsClassBlock (gc_tables words.now).slab class at }
{
    for back in 0..4u32 {
        if has_block_back(words, log, class, at, back) {
            return true;
        }
    }
    false
}

// A word is one of a root, and its block may stand where it says.
fn is_standing(words: &[u64], log: &BookLog, word: u64) -> bool
    requires { IsLogRead words.now log.now }
    ensures { IsTrue result ↔ IsGcStanding (gc_tables words.now) word }
{
    if !is_root_word(word) {
        return false;
    }
    let class = class_field_of(word);
    if class == 0 {
        return is_large(words, log, address_of(word));
    }
    has_class_block(words, log, class - 1, address_of(word))
}

// The word of a root names no such block.
fn is_stray_root(words: &[u64], log: &BookLog, root: u32) -> bool
    requires { IsLogRead words.now log.now }
    ensures stray { IsTrue result → IsGcStrayRoot (gc_tables words.now) root }
    ensures settled { result ≡ false → IsGcSettled (gc_tables words.now) root }
{
    let word = root_word(words, root);
    if word == 0 {
        return false;
    }
    !is_standing(words, log, word)
}

// The lowest root of which it does not.
fn stray_root(words: &[u64], log: &BookLog) -> Option<u32>
    requires { IsLogRead words.now log.now }
    ensures { MatchOption result (AreGcStanding (gc_tables words.now)) (IsLeast (IsGcStrayRoot (gc_tables words.now))) }
{
    for root in 0..roots_of(words) {
        if is_stray_root(words, log, root) {
            return Some(root);
        }
    }
    None
}

/// Looks for a root whose word names no block that may stand.
pub(crate) fn check_roots(words: &[u64], log: &BookLog) -> Result<(), Defect>
    requires { IsLogRead words.now log.now }
    ensures standing { OnOk result (AreGcStanding (gc_tables words.now)) }
    ensures defect { IfErr result (IsGcRootDefect words.now) }
{
    match stray_root(words, log) {
        None => Ok(()),
        Some(root) => Err(Defect::StrayRoot {
            root,
            at: root_word(words, root),
        }),
    }
}
