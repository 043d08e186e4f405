// An arena with a slab that took another class, or is taking it.
use crate::answers::answer;
use crate::images::{IN_TRANSITION, Put};
use crate::values::same;
use image_defects::Summary;
use pool_layout::Defect;
use std::test::Fail;

const ANSWERS: [(&[Put], Result<Summary, Defect>); 15] = [
    (
        &[],
        Ok(Summary {
            large: 1,
            slabs: 1,
            blocks: 3,
            loose: 0,
        }),
    ),
    (
        &[(24576, 16978690), (2050, 0)],
        Ok(Summary {
            large: 1,
            slabs: 1,
            blocks: 2,
            loose: 1,
        }),
    ),
    (
        &[(24576, 16978690)],
        Err(Defect::StrayRoot {
            root: 2,
            at: 199680,
        }),
    ),
    (
        &[(24648, 0), (2049, 0)],
        Ok(Summary {
            large: 1,
            slabs: 1,
            blocks: 2,
            loose: 1,
        }),
    ),
    (
        &[(2049, 0), (64, 853221023219715)],
        Ok(Summary {
            large: 1,
            slabs: 1,
            blocks: 2,
            loose: 2,
        }),
    ),
    (
        &[(2049, 0), (64, 853221023219715), (24648, 0)],
        Ok(Summary {
            large: 1,
            slabs: 1,
            blocks: 2,
            loose: 2,
        }),
    ),
    (
        &[(64, 853221023219715), (24648, 0)],
        Ok(Summary {
            large: 1,
            slabs: 1,
            blocks: 3,
            loose: 2,
        }),
    ),
    (
        &[(64, 853221023350785)],
        Err(Defect::SharedBlock {
            first: 1,
            second: 3,
        }),
    ),
    (&[(24584, 1)], Err(Defect::StrayBit { at: 198656 })),
    (
        &[(24576, 201475)],
        Err(Defect::BadSlab {
            start: 12,
            value: 201475,
        }),
    ),
    (
        &[(24576, 18027267)],
        Err(Defect::BadSlab {
            start: 12,
            value: 18027267,
        }),
    ),
    (
        &[(24648, 65011713)],
        Err(Defect::BadSlab {
            start: 12,
            value: 65011713,
        }),
    ),
    (
        &[(2049, 0), (64, 853221023219971)],
        Err(Defect::BadWal {
            line: 0,
            value: 853221023219971,
        }),
    ),
    (
        &[(24576, 16978690), (2050, 0), (64, 857619069861889)],
        Err(Defect::BadWal {
            line: 0,
            value: 857619069861889,
        }),
    ),
    (
        &[(2051, 198656), (64, 12884967429)],
        Ok(Summary {
            large: 1,
            slabs: 1,
            blocks: 3,
            loose: 1,
        }),
    ),
];

#[test]
fn slabs_in_transition(rt: HostRuntime) -> Result<(), Fail> {
    for &(changes, wanted) in &ANSWERS {
        same(&rt, &answer(rt.alloc(), &IN_TRANSITION, changes)?, &wanted);
    }
    Ok(())
}
