// Room for rows, before any seat is dealt out or gathered.
ghost use Rattle.std.specs.Prelude.{◌≡◌, length, IfOk, vec_len};
ghost use Rattle.std.specs.Vec.{vec_capacity};
ghost use Rattle.shared_pool.specs.Rows.{each_of, AllRoom};

use pmem_lines::OutOfMemory;
use std::alloc::Global;

/// Room for so many items in each of so many rows.
pub(crate) fn rooms<T: Drop>(
    alloc: Global,
    rows: usize,
    items: usize,
) -> Result<Vec<Vec<T>>, OutOfMemory>
    ensures { IfOk result (λ v. (length v.items ≡ rows) × AllRoom items (each_of v.items (λ r. (vec_len r, vec_capacity r)))) }
{
    let mut made = Vec::new(alloc);
    for _ in 0..rows {
        made.push(Vec::with_capacity(alloc, items)?)?;
    }
    Ok(made)
}
