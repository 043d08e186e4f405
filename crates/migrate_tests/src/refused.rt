// What is not migrated, and why.
use crate::images::{Became, image_outcome, outcome_with};
use crate::values::same;
use check_tests::{ONE_BLOCK, Put, SECOND_VERSION};
use pool_layout::Defect;
use std::test::Fail;

// The second word of the header line of the only arena of a pool of version 2, of 25 granules, and one of 24.
const SECOND: u64 = 0x0001_0019_0000_0002;

const TOO_SMALL: u64 = 0x0001_0018_0000_0002;

// Bytes of no arena.
#[test]
fn lengths(rt: HostRuntime) -> Result<(), Fail> {
    let rows: [(usize, u64, u64); 4] = [
        (0, 0, 64),
        (3, 24, 64),
        (32767, 262_136, 262_144),
        (32769, 262_152, 262_144),
    ];
    for (size, have, need) in rows {
        same(
            &rt,
            &outcome_with(rt.alloc(), size, ONE_BLOCK.words)?,
            &Became::Refused(Defect::BadLength { have, need }),
        );
    }
    Ok(())
}
// The second word of a header line of version 3.
const THIRD: u64 = 0x0001_0010_0000_0003;

const CHANGES: [(&[Put], Defect); 6] = [
    (&[(0, 7)], Defect::BadHeader { word: 0, value: 7 }),
    (
        &[(0, 7), (1, SECOND)],
        Defect::BadHeader { word: 0, value: 7 },
    ),
    (
        &[(1, THIRD)],
        Defect::BadHeader {
            word: 1,
            value: THIRD,
        },
    ),
    (
        &[(1, TOO_SMALL)],
        Defect::BadHeader {
            word: 1,
            value: TOO_SMALL,
        },
    ),
    (&[(2054, 67600)], Defect::StrayRoot { root: 6, at: 67600 }),
    (&[(2054, 67600), (2, 0)], Defect::BadDirectory { value: 0 }),
];

// Another text, a version that no pool has, and too few granules for the version: the header line is bad. A root that names
// no block, and a log without a chunk that comes before.
#[test]
fn defects(rt: HostRuntime) -> Result<(), Fail> {
    for &(changes, defect) in &CHANGES {
        same(
            &rt,
            &image_outcome(rt.alloc(), &ONE_BLOCK, changes)?,
            &Became::Refused(defect),
        );
    }
    Ok(())
}

// Words of version 2: a good image, one in which a root names no block, one without a chunk of the log, and as many words as
// there are in a header line. It says that much by itself.
#[test]
fn newer(rt: HostRuntime) -> Result<(), Fail> {
    let wanted = Became::Newer { version: 2 };
    let rows: [&[Put]; 3] = [&[], &[(18431, 215_041)], &[(2, 0)]];
    for changes in rows {
        same(
            &rt,
            &image_outcome(rt.alloc(), &SECOND_VERSION, changes)?,
            &wanted,
        );
    }
    for size in [8, 51199, 51201] {
        same(
            &rt,
            &outcome_with(rt.alloc(), size, SECOND_VERSION.words)?,
            &wanted,
        );
    }
    Ok(())
}
