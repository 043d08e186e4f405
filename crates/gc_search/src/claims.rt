// The blocks of all roots.
ghost use Rattle.std.specs.Prelude.{◌≡◌, ◌≢◌, ◌≤◌, MatchOption, vec_len};
ghost use Rattle.std.specs.Vec.{vec_capacity};
ghost use Rattle.pool_layout.specs.Layout.{layout_of};
ghost use Rattle.pool_layout.specs.Header.{version_in};
ghost use Rattle.gc_check.specs.Heap.{gc_tables, gc_size};
ghost use Rattle.gc_check.specs.Sound.{IsGcStanding};
ghost use Rattle.gc_check.specs.Defects.{AreGcStanding};
ghost use Rattle.defect_search.specs.Claims.{IsRising};
ghost use Rattle.gc_search.specs.Known.{IsLogRead};
ghost use Rattle.gc_search.specs.Claims.{HasNoBlock, IsBlockOf, AreGcClaims};

use crate::root_word::{address_of, class_field_of};
use book_log::BookLog;
use defect_search::Claim;
use image_reading::{large_at, root_word, roots_of};
use size_classes::size_of_class;

// The size of the block that a word names, in bytes.
fn size_of(words: &[u64], log: &BookLog, word: u64) -> u64
    requires read { IsLogRead words.now log.now }
    requires standing { IsGcStanding (gc_tables words.now) word }
    ensures { result ≡ gc_size (gc_tables words.now).large word }
{
    let class = class_field_of(word);
    if class == 0 {
        return 16384 * u64::from(large_at(log, (address_of(word) / 16384) as u32));
    }
    u64::from(size_of_class(class - 1))
}

// The block of a root, if it has one.
fn claim_of(words: &[u64], log: &BookLog, root: u32) -> Option<Claim>
    requires read { IsLogRead words.now log.now }
    requires standing { AreGcStanding (gc_tables words.now) }
    ensures { MatchOption result (HasNoBlock (gc_tables words.now) root) (IsBlockOf (gc_tables words.now) root) }
{
    let word = root_word(words, root);
    if word == 0 {
        return None;
    }
    Some(Claim {
        root,
        at: address_of(word),
        size: size_of(words, log, word),
    })
}

// Reads the blocks of all roots into a list that has room for them.
fn read_claims(words: &[u64], log: &BookLog, claims: &mut Vec<Claim>)
    requires read { IsLogRead words.now log.now }
    requires standing { AreGcStanding (gc_tables words.now) }
    requires room { (layout_of (version_in words.now)).roots ≤ vec_capacity claims.old }
    ensures { AreGcClaims (gc_tables words.now) claims.new.items }
{
    claims.clear();
    for root in 0..roots_of(words) {
        if let Some(claim) = claim_of(words, log, root) {
            claims.push_reserved(claim);
        }
    }
}

/// Reads the blocks of all roots, by rising address, into a list that has room for them. It takes no memory.
pub(crate) fn read_sorted(words: &[u64], log: &BookLog, claims: &mut Vec<Claim>)
    requires read { IsLogRead words.now log.now }
    requires standing { AreGcStanding (gc_tables words.now) }
    requires room { (layout_of (version_in words.now)).roots ≤ vec_capacity claims.old }
    ensures claims { AreGcClaims (gc_tables words.now) claims.new.items }
    ensures rising { IsRising claims.new.items }
{
    read_claims(words, log, claims);
    claims.sort_unstable_by_key(|claim| claim.at);
}
