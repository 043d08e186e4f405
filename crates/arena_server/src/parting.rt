// Owners in their parts: a pool is closed with their passes, before their queues are emptied.
ghost use Rattle.std.specs.Prelude.{◌≡◌, ◌≤◌, length, vec_len, IfOk};
ghost use Rattle.std.specs.Vec.{vec_capacity};
ghost use Rattle.shared_pool.specs.Rows.{each_of, AllRoom};
ghost use Rattle.arena_server.specs.Emptied.{owners_of, AllOwners};

use crate::owner::{Owner, Till};
use pmem_lines::OutOfMemory;
use shared_pool::Pass;
use std::alloc::Global;

/// Room for so many items in each of so many rows.
pub(crate) fn rooms<T: Drop>(
    alloc: Global,
    rows: usize,
    items: usize,
) -> Result<Vec<Vec<T>>, OutOfMemory>
    ensures { IfOk result (λ v. (length v.items ≡ rows) × AllRoom items (each_of v.items (λ r. (vec_len r, vec_capacity r)))) }
{
    let mut made = Vec::new(alloc);
    for _ in 0..rows {
        made.push(Vec::with_capacity(alloc, items)?)?;
    }
    Ok(made)
}

/// The passes of owners, and the rest of them. The room that the owners had is given back.
pub(crate) fn part_owners(
    mut owners: Vec<Owner>,
    mut passes: Vec<Pass>,
    mut tills: Vec<Till>,
) -> (Vec<Owner>, Vec<Pass>, Vec<Till>)
    requires passes { (vec_len passes ≡ 0) × (length owners.items ≤ vec_capacity passes) }
    requires tills { (vec_len tills ≡ 0) × (length owners.items ≤ vec_capacity tills) }
    ensures owners { owners_of result.1.items result.2.items ≡ owners.items }
    ensures each { AllOwners result.1.items result.2.items }
    ensures room { (vec_len result.0 ≡ 0) × (length result.1.items ≤ vec_capacity result.0) }
{
    while !owners.is_empty() {
        let Owner { pass, till } = owners.remove(0);
        passes.push_reserved(pass);
        tills.push_reserved(till);
    }
    (owners, passes, tills)
}

/// Owners from their passes and the rest.
pub(crate) fn join_owners(
    mut owners: Vec<Owner>,
    mut passes: Vec<Pass>,
    mut tills: Vec<Till>,
) -> Vec<Owner>
    requires room { (vec_len owners ≡ 0) × (length passes.items ≤ vec_capacity owners) }
    requires each { AllOwners passes.items tills.items }
    ensures { result.items ≡ owners_of passes.items tills.items }
{
    while !passes.is_empty() {
        let pass = passes.remove(0);
        let till = tills.remove(0);
        owners.push_reserved(Owner { pass, till });
    }
    owners
}
