// Images with defects of two classes, and the one that is told.
use crate::answers::{answer, bad_slab, shared, stray_root};
use crate::images::small_word;
use crate::values::same;
use pool_layout::Defect;
use std::test::Fail;

// The text comes before the fields, and both before the length that they say, the log, the slabs and the roots.
#[test]
fn header_first(rt: HostRuntime) -> Result<(), Fail> {
    same(
        &rt,
        &answer(rt.alloc(), &[(0, 0), (1, 0), (2, 17)])?,
        &Some(Defect::BadHeader { word: 0, value: 0 }),
    );
    same(
        &rt,
        &answer(rt.alloc(), &[(1, 0x0001_0011_0000_0001), (2, 17)])?,
        &Some(Defect::BadLength {
            have: 262144,
            need: 278528,
        }),
    );
    Ok(())
}

#[test]
fn log_before_slabs(rt: HostRuntime) -> Result<(), Fail> {
    same(
        &rt,
        &answer(rt.alloc(), &[(2, 257), (6152, 0), (6160, 1026)])?,
        &Some(Defect::BadDirectory { value: 257 }),
    );
    same(
        &rt,
        &answer(rt.alloc(), &[(6160, 33555969), (8192, 0)])?,
        &Some(Defect::Overlap {
            first: 4,
            second: 6,
        }),
    );
    Ok(())
}

#[test]
fn slabs_before_roots(rt: HostRuntime) -> Result<(), Fail> {
    same(
        &rt,
        &answer(rt.alloc(), &[(8192, 9217), (2048, 1)])?,
        &bad_slab(4, 9217),
    );
    // Of two slabs the lower.
    same(
        &rt,
        &answer(rt.alloc(), &[(6160, 2050), (8192, 0), (16384, 2)])?,
        &bad_slab(4, 0),
    );
    Ok(())
}

// A root that names nothing comes before two that share a block, though it is the higher one; of two such the lower.
#[test]
fn strays_before_shared(rt: HostRuntime) -> Result<(), Fail> {
    let here = small_word(67584, 6);
    same(
        &rt,
        &answer(rt.alloc(), &[(2049, here), (6143, 8), (2100, 16)])?,
        &stray_root(52, 16),
    );
    Ok(())
}

// Two slabs of which both are empty but for two blocks that overlap in the first.
#[test]
fn shared_before_loose(rt: HostRuntime) -> Result<(), Fail> {
    let here = small_word(67584, 6);
    same(
        &rt,
        &answer(
            rt.alloc(),
            &[
                (2049, here),
                (6160, 2050),
                (16384, 1),
                (6168, 3074),
                (24576, 1),
            ],
        )?,
        &shared(1, 5),
    );
    Ok(())
}
