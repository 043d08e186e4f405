// The blocks that roots have.
ghost use Rattle.std.specs.Prelude.{◌≡◌, ◌↔◌, ℕ, ◌<◌, ◌≤◌, length, IsTrue, IfOk};
ghost use Rattle.image_tables.specs.Tables.{Tables};
ghost use Rattle.defect_search.specs.Claims.{claim_in, IsRising, AreClaims, IsByAddress, AreBlocks};
ghost use Rattle.image_defects.specs.Blocks.{IsRooted};

use pmem_lines::OutOfMemory;
use std::alloc::Global;

/// A block that a root has: its first byte and its size, in bytes.
#[derive(Clone, Copy, Debug)]
pub struct Claim {
    pub root: u32,
    pub at: u64,
    pub size: u64,
}

/// The claims by rising address.
pub fn by_address(alloc: Global, claims: &[Claim]) -> Result<Vec<Claim>, OutOfMemory>
    ensures sorted { IfOk result (λ sorted. IsByAddress claims.now sorted.items) }
    ensures blocks { IfOk result (λ sorted. (t : Tables) → AreClaims t claims.now → AreBlocks t sorted.items) }
{
    let mut sorted = Vec::from_slice(alloc, claims)?;
    sorted.sort_by_key(|claim| claim.at)?;
    Ok(sorted)
}

// How many claims begin before this byte.
fn place_of(sorted: &[Claim], at: u64) -> usize
    requires { IsRising sorted.now }
    ensures bound { result ≤ length sorted.now }
    ensures before { (k : ℕ) → k < result → (claim_in sorted.now k).at < at }
    ensures behind { (k : ℕ) → result ≤ k → k < length sorted.now → at ≤ (claim_in sorted.now k).at }
{
    sorted.partition_point(|claim| claim.at < at)
}

/// It is the block of a root: `sorted` has the blocks of the roots by rising address.
pub fn has_block(sorted: &[Claim], at: u64, size: u64) -> bool
    requires { IsRising sorted.now }
    ensures { (t : Tables) → AreBlocks t sorted.now → (IsTrue result ↔ IsRooted t (record { at = at; size = size })) }
{
    let first = place_of(sorted, at);
    for i in first..sorted.len() {
        let claim = sorted[i];
        if claim.at != at {
            return false;
        }
        if claim.size == size {
            return true;
        }
    }
    false
}
