// Images in which nothing is loose, and open entries of an arena with one block.
use crate::images::{Row, all_become, goes_on, placed, recovered};
use crate::values::same;
use check_tests::{Became, IN_TRANSITION, ONE_BLOCK, Put, SECOND_VERSION};
use heap_model::Block;
use pool_layout::Defect;
use std::test::Fail;

// What is exact stays so, by no event.
#[test]
fn exact_images(rt: HostRuntime) -> Result<(), Fail> {
    all_become(&rt, rt.alloc(), &ONE_BLOCK, &[(&[], &[], 0)])?;
    all_become(&rt, rt.alloc(), &IN_TRANSITION, &[(&[], &[], 0)])
}

const ENTRIES: [Row; 3] = [
    (
        &[(64, 290271070060545), (8200, 0)],
        &[(64, 0), (8200, 1)],
        6,
    ),
    (
        &[(64, 290271070060545), (2053, 0)],
        &[(64, 0), (8200, 0), (6160, 1027)],
        9,
    ),
    (
        &[(64, 38655033349), (2057, 67584)],
        &[(64, 0), (2053, 0)],
        6,
    ),
];

#[test]
fn open_entries(rt: HostRuntime) -> Result<(), Fail> {
    all_become(&rt, rt.alloc(), &ONE_BLOCK, &ENTRIES)
}

// The arena has the block of root 5, or none, and gives root 6 the lowest free block of class 6.
#[test]
fn arena_goes_on(rt: HostRuntime) -> Result<(), Fail> {
    let first = Block {
        root: 5,
        at: 67584,
        size: 112,
    };
    let rows: [(&[Put], Option<Block>, u32); 3] = [
        (&[], Some(first), 67696),
        (&[(64, 290271070060545), (8200, 0)], Some(first), 67696),
        (&[(64, 290271070060545), (2053, 0)], None, 67584),
    ];
    for (changes, block, at) in rows {
        same(
            &rt,
            &goes_on(rt.alloc(), &ONE_BLOCK, changes, 5, 6, 100)?,
            &Some((block, placed(at, 112))),
        );
    }
    Ok(())
}

const CHANGES: [Row; 5] = [
    (&[], &[], 0),
    (
        &[(64, 0x0003_4800_3fff_0001), (26632, 0)],
        &[(64, 0), (26632, 1)],
        6,
    ),
    (
        &[(64, 0x0003_4800_3fff_0001), (18431, 0)],
        &[(64, 0), (26632, 0), (18448, 3331)],
        9,
    ),
    (
        &[(64, 0x0009_3fff_0005), (2057, 215_040)],
        &[(64, 0), (18431, 0)],
        6,
    ),
    (&[(18448, 33558785)], &[(18456, 4355)], 3),
];

// An arena of version 2: it is exact; its block is coming, going or moving; and there is a large extent that no root names. Its
// log has the second entry on the second line.
#[test]
fn of_version_2(rt: HostRuntime) -> Result<(), Fail> {
    all_become(&rt, rt.alloc(), &SECOND_VERSION, &CHANGES)?;
    same(
        &rt,
        &recovered(rt.alloc(), &SECOND_VERSION, &[(18430, 215_040)], &[])?,
        &Became::Refused(Defect::SharedBlock {
            first: 16382,
            second: 16383,
        }),
    );
    Ok(())
}

// Root 16383 has its block, and root 6 is given the one behind it.
#[test]
fn arena_of_version_2_goes_on(rt: HostRuntime) -> Result<(), Fail> {
    let held = Block {
        root: 16383,
        at: 215_040,
        size: 112,
    };
    same(
        &rt,
        &goes_on(rt.alloc(), &SECOND_VERSION, &[], 16383, 6, 100)?,
        &Some((Some(held), placed(215_152, 112))),
    );
    Ok(())
}
