// The block of a root.
ghost use Rattle.std.specs.Prelude.{◌≡◌, ◌≢◌, IfOk, IfErr, OnOk, MatchOption, None};
ghost use Rattle.image_tables.specs.Tables.{Tables, tables_of};
ghost use Rattle.heap_check.specs.Heap.{heap};
ghost use Rattle.heap_check.specs.Image.{IsSoundImage};
ghost use Rattle.image_defects.specs.Defects.{IsFirstDefect};
ghost use Rattle.image_check.specs.Faults.{IfDefect};
ghost use Rattle.defect_search.specs.Claims.{AreClaims};
ghost use Rattle.heap_map.specs.LogRules.{log_rules};
ghost use Rattle.heap_map.specs.Blocks.{IsRootBlock};

use crate::reading::log_of;
use defect_search::{Claim, claims_of, open_entry};
use image_check::{CheckFault, check_arena};
use image_reading::held_root;
use pmem_lines::OutOfMemory;
use std::alloc::Global;

/// Where a root's block lies: its first byte in the arena, and its size in bytes.
#[derive(Clone, Copy, Debug, PartialEq, Eq)]
pub struct RootBlock {
    pub at: u64,
    pub size: u64,
}

/// The block that a root of an arena of these words holds, if it holds one. Ok comes exactly where they are a sound image; a
/// defect exactly where they are not, and it is the first in the order of the format. Either yields to want of memory.
pub fn block_of(alloc: Global, words: &[u64], root: u32) -> Result<Option<RootBlock>, CheckFault>
    ensures sound { OnOk result (IsSoundImage words.now) }
    ensures block { IfOk result (λ found. MatchOption found (heap (tables_of words.now) root ≡ None) (IsRootBlock log_rules words.now root)) }
    ensures defect { IfErr result (λ fault. IfDefect fault (IsFirstDefect words.now)) }
{
    match check_arena(alloc, words) {
        Ok(_) => {}
        Err(fault) => return Err(fault),
    }
    match find(alloc, words, root) {
        Ok(found) => Ok(found),
        Err(error) => Err(CheckFault::Memory(error)),
    }
}

// The same of a sound image.
fn find(alloc: Global, words: &[u64], root: u32) -> Result<Option<RootBlock>, OutOfMemory>
    requires { IsSoundImage words.now }
    ensures { IfOk result (λ found. MatchOption found (heap (tables_of words.now) root ≡ None) (IsRootBlock log_rules words.now root)) }
{
    let log = log_of(alloc, words)?;
    let entry = open_entry(words);
    if held_root(words, entry, root) == 0 {
        return Ok(None);
    }
    let claims = claims_of(alloc, words, &log, entry)?;
    Ok(held_among(words, &claims, root))
}

// The block of a root that holds one, among those of all roots.
fn held_among(words: &[u64], claims: &[Claim], root: u32) -> Option<RootBlock>
    requires sound { IsSoundImage words.now }
    requires claims { AreClaims (tables_of words.now) claims.now }
    requires some { (tables_of words.now).root root ≢ 0 }
    ensures { MatchOption result (heap (tables_of words.now) root ≡ None) (IsRootBlock log_rules words.now root) }
{
    for i in 0..claims.len() {
        let claim = claims[i];
        if claim.root == root {
            return Some(RootBlock {
                at: claim.at,
                size: claim.size,
            });
        }
    }
    None
}
