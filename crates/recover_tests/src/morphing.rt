// An arena with a slab that took another class, and images in which several things are loose.
use crate::images::{Answered, Row, all_become, answers, freed, placed, recovered};
use crate::values::same;
use check_tests::{Became, IN_TRANSITION, Put};
use pool_layout::Defect;
use std::test::Fail;

const CHANGES: [Row; 6] = [
    (
        &[(24576, 16978690), (2050, 0)],
        &[(24576, 16978691), (24592, 0)],
        76,
    ),
    (&[(24648, 0), (2049, 0)], &[(24576, 4865)], 3),
    (
        &[(2049, 0), (64, 853221023219715)],
        &[(64, 0), (24648, 0), (24576, 4865)],
        9,
    ),
    (
        &[(2049, 0), (64, 853221023219715), (24648, 0)],
        &[(64, 0), (24576, 4865)],
        9,
    ),
    (
        &[(64, 853221023219715), (24648, 0)],
        &[(64, 0), (24648, 1)],
        6,
    ),
    (
        &[(2051, 198656), (64, 12884967429)],
        &[(64, 0), (2049, 0)],
        6,
    ),
];

#[test]
fn slabs_in_transition(rt: HostRuntime) -> Result<(), Fail> {
    all_become(&rt, rt.alloc(), &IN_TRANSITION, &CHANGES)
}

const LOOSE: [Row; 3] = [
    (&[(2048, 0)], &[(6168, 1027)], 3),
    (
        &[(2049, 0), (2050, 0), (24592, 0), (24648, 0)],
        &[(6168, 3075)],
        3,
    ),
    (
        &[(2048, 0), (2049, 0), (2050, 0), (24592, 0), (24648, 0)],
        &[(6168, 1027), (6176, 3075)],
        6,
    ),
];

#[test]
fn loose_extents(rt: HostRuntime) -> Result<(), Fail> {
    all_become(&rt, rt.alloc(), &IN_TRANSITION, &LOOSE)
}

// A second slab, at granule 4, is in Morphing and has no live block, while no old block lives in the one at 12: the image is
// sound, and not steady.
#[test]
fn two_slabs_nearly_done(rt: HostRuntime) -> Result<(), Fail> {
    let rows: [Row; 1] = [(
        &[
            (2048, 0),
            (2049, 0),
            (6152, 1026),
            (8192, 16978690),
            (24648, 0),
        ],
        &[(24576, 4865), (8192, 16978691), (6168, 1027)],
        82,
    )];
    all_become(&rt, rt.alloc(), &IN_TRANSITION, &rows)
}

#[test]
fn defects(rt: HostRuntime) -> Result<(), Fail> {
    let stray: [Put; 1] = [(24576, 16978690)];
    same(
        &rt,
        &recovered(rt.alloc(), &IN_TRANSITION, &stray, &[])?,
        &Became::Refused(Defect::StrayRoot {
            root: 2,
            at: 199680,
        }),
    );
    Ok(())
}

// Block 0 of the class overlaps the old block, so it is given out only once that is freed. The malloc before has put the
// blocks 3 to 9 on the seat's stack; they are given first, and then block 0. With the old block goes the slab's transition:
// behind the 11 events of the free the state word says Normal, by 3.
#[test]
fn old_block_goes(rt: HostRuntime) -> Result<(), Fail> {
    let wanted = Answered {
        before: placed(200704, 1024),
        freed: freed(198656, 64),
        events: 14,
        next: placed(201728, 1024),
        eighth: placed(198656, 1024),
    };
    same(
        &rt,
        &answers(rt.alloc(), &IN_TRANSITION, 1, 1000)?,
        &Some(wanted),
    );
    Ok(())
}
