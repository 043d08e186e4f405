// Two roots whose blocks overlap.
ghost use Rattle.std.specs.Prelude.{◌≡◌, ◌+◌, ◌≤◌, ◌<◌, ◌↔◌, length, IsTrue, Some, OnOk, IfErr, MatchOption};
ghost use Rattle.std.specs.Vec.{vec_capacity};
ghost use Rattle.pool_layout.specs.Layout.{layout_of};
ghost use Rattle.pool_layout.specs.Header.{version_in};
ghost use Rattle.image_defects.specs.Least.{HasNone, IsLeast, lesser};
ghost use Rattle.image_defects.specs.Blocks.{DoOverlap};
ghost use Rattle.defect_search.specs.Claims.{range_of};
ghost use Rattle.gc_check.specs.Heap.{gc_tables};
ghost use Rattle.gc_check.specs.Defects.{AreGcStanding, AreGcUnshared, IsGcSharedDefect};
ghost use Rattle.gc_search.specs.Known.{IsLogRead};
ghost use Rattle.gc_search.specs.Pairs.{AreInOrder, IsReach, IsClashing, IsFirstClashing, HasNoClashing, IsPartner, HasNoSharing, IsFirstSharing};

use crate::claims::read_sorted;
use book_log::BookLog;
use defect_search::Claim;
use image_defects::Pair;
use pool_layout::Defect;

// The blocks of two claims share a byte.
fn do_overlap(one: &Claim, other: &Claim) -> bool
    ensures { IsTrue result ↔ DoOverlap (range_of one.now) (range_of other.now) }
{
    (other.at < one.at || other.at - one.at < one.size)
        && (one.at < other.at || one.at - other.at < other.size)
}

// How far the blocks of the first claims reach, with one more.
fn farther(sorted: &[Claim], i: usize, reach: u64) -> u64
    requires order { AreInOrder sorted.now }
    requires below { i < length sorted.now }
    requires reach { IsReach sorted.now i reach }
    ensures { IsReach sorted.now (i + 1) result }
{
    let end = sorted[i].at + sorted[i].size;
    if reach < end { end } else { reach }
}

// The block of a claim overlaps another: an earlier one, of which one reaches so far, or the next.
fn is_clashing(sorted: &[Claim], i: usize, reach: u64) -> bool
    requires order { AreInOrder sorted.now }
    requires below { i < length sorted.now }
    requires reach { IsReach sorted.now i reach }
    ensures { IsTrue result ↔ IsClashing sorted.now i }
{
    let one = sorted[i];
    if one.at < reach {
        return true;
    }
    if i + 1 >= sorted.len() {
        return false;
    }
    sorted[i + 1].at - one.at < one.size
}

// Of two claims the one with the lower root.
fn lower(sorted: &[Claim], found: Option<usize>, i: usize) -> usize
    requires below { i < length sorted.now }
    requires clashing { IsClashing sorted.now i }
    requires found { MatchOption found (HasNoClashing sorted.now i) (IsFirstClashing sorted.now i) }
    ensures { IsFirstClashing sorted.now (i + 1) result }
{
    match found {
        None => i,
        Some(first) => {
            if sorted[i].root < sorted[first].root {
                i
            } else {
                first
            }
        }
    }
}

// The claim with the lowest root of those whose block overlaps another.
fn first_clashing(sorted: &[Claim]) -> Option<usize>
    requires { AreInOrder sorted.now }
    ensures { MatchOption result (HasNoClashing sorted.now (length sorted.now)) (IsFirstClashing sorted.now (length sorted.now)) }
{
    let mut found = None;
    let mut reach = 0;
    for i in 0..sorted.len() {
        if is_clashing(sorted, i, reach) {
            found = Some(lower(sorted, found, i));
        }
        reach = farther(sorted, i, reach);
    }
    found
}

// The lesser of two roots, where there are any.
fn lesser(found: Option<u32>, root: u32) -> u32
    ensures { Some result ≡ lesser found (Some root) }
{
    match found {
        None => root,
        Some(least) => { if root < least { root } else { least } }
    }
}

// The lowest root whose block overlaps that of a claim.
fn partner_of(sorted: &[Claim], i: usize) -> Option<u32>
    requires { i < length sorted.now }
    ensures { MatchOption result (HasNone (IsPartner sorted.now i)) (IsLeast (IsPartner sorted.now i)) }
{
    let one = sorted[i];
    let mut found = None;
    for j in 0..sorted.len() {
        let other = sorted[j];
        if other.root != one.root && do_overlap(&one, &other) {
            found = Some(lesser(found, other.root));
        }
    }
    found
}

// The root of a claim that overlaps another, and the lowest root whose block overlaps it.
fn pair_of(sorted: &[Claim], i: usize) -> Option<Pair>
    requires order { AreInOrder sorted.now }
    requires first { IsFirstClashing sorted.now (length sorted.now) i }
    ensures { MatchOption result (HasNoSharing sorted.now) (IsFirstSharing sorted.now) }
{
    match partner_of(sorted, i) {
        None => None,
        Some(second) => Some(Pair {
            first: sorted[i].root,
            second,
        }),
    }
}

// The two roots whose blocks overlap, with the lowest first root and then the lowest second. The claims are gone through twice.
fn shared_pair(sorted: &[Claim]) -> Option<Pair>
    requires { AreInOrder sorted.now }
    ensures { MatchOption result (HasNoSharing sorted.now) (IsFirstSharing sorted.now) }
{
    match first_clashing(sorted) {
        None => None,
        Some(i) => pair_of(sorted, i),
    }
}

/// Looks for two roots whose blocks overlap. `claims` has room for the blocks of all roots.
pub(crate) fn check_shared(
    words: &[u64],
    log: &BookLog,
    claims: &mut Vec<Claim>,
) -> Result<(), Defect>
    requires read { IsLogRead words.now log.now }
    requires standing { AreGcStanding (gc_tables words.now) }
    requires room { (layout_of (version_in words.now)).roots ≤ vec_capacity claims.old }
    ensures apart { OnOk result (AreGcUnshared (gc_tables words.now)) }
    ensures defect { IfErr result (IsGcSharedDefect words.now) }
{
    read_sorted(words, log, claims);
    match shared_pair(claims) {
        None => Ok(()),
        Some(pair) => Err(Defect::SharedBlock {
            first: pair.first,
            second: pair.second,
        }),
    }
}
