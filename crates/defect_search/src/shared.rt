// Two roots whose blocks overlap.
ghost use Rattle.std.specs.Prelude.{◌≡◌, ℕ, ◌<◌, ◌↔◌, length, IsTrue, IfOk, MatchOption};
ghost use Rattle.image_tables.specs.Tables.{Tables};
ghost use Rattle.image_defects.specs.Least.{HasNone, IsLeast};
ghost use Rattle.defect_search.specs.Claims.{range_of, AreClaims, IsByAddress};
ghost use Rattle.image_defects.specs.Blocks.{DoOverlap};
ghost use Rattle.defect_search.specs.Pairs.{DoClash, AreSpread, AreAllApart, IsFirstPair};
ghost use Rattle.image_defects.specs.Blocks.{IsSharing, IsFirstShared};

use crate::Claim;
use image_defects::Pair;

// The blocks of two claims share a byte.
fn do_overlap(one: &Claim, other: &Claim) -> bool
    ensures { IsTrue result ↔ DoOverlap (range_of one.now) (range_of other.now) }
{
    (other.at < one.at || other.at - one.at < one.size)
        && (one.at < other.at || one.at - other.at < other.size)
}

// Each claim ends before the next begins.
fn are_spread(sorted: &[Claim]) -> bool
    ensures { IsTrue result → AreSpread sorted.now }
{
    for i in 1..sorted.len() {
        let one = sorted[i - 1];
        let next = sorted[i];
        if next.at < one.at || next.at - one.at < one.size {
            return false;
        }
    }
    true
}

// The first claim that overlaps one.
fn clash_of(claims: &[Claim], i: usize) -> Option<usize>
    requires { i < length claims.now }
    ensures { MatchOption result (HasNone (DoClash claims.now i)) (IsLeast (DoClash claims.now i)) }
{
    let one = claims[i];
    for j in 0..claims.len() {
        let other = claims[j];
        if other.root != one.root && do_overlap(&one, &other) {
            return Some(j);
        }
    }
    None
}

// The first two claims that overlap.
fn first_pair(claims: &[Claim]) -> Option<Pair>
    ensures { MatchOption result (AreAllApart claims.now) (IsFirstPair claims.now) }
{
    for i in 0..claims.len() {
        if let Some(j) = clash_of(claims, i) {
            return Some(Pair {
                first: claims[i].root,
                second: claims[j].root,
            });
        }
    }
    None
}

/// The two roots whose blocks overlap, with the lowest first root and then the lowest second. `claims` has the blocks of
/// all roots by rising root, and `sorted` the same by rising address: where each ends before the next begins, no two
/// overlap. Only where that fails the claims are compared two by two.
pub fn shared_pair(claims: &[Claim], sorted: &[Claim]) -> Option<Pair>
    requires { IsByAddress claims.now sorted.now }
    ensures list { MatchOption result (AreAllApart claims.now) (IsFirstPair claims.now) }
    ensures tables { (t : Tables) → AreClaims t claims.now → MatchOption result (HasNone (IsSharing t)) (IsFirstShared t) }
{
    if are_spread(sorted) {
        None
    } else {
        first_pair(claims)
    }
}
