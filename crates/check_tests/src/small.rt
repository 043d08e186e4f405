// Defects of an arena with one block, one by one. `moving` has its open entries of both kinds.
mod moving;

use crate::answers::{answer, answer_is, counts};
use crate::images::{ONE_BLOCK, Put, blank, image, put};
use crate::values::same;
use pool_layout::Defect;
use std::alloc::Global;
use std::process::Abort;
use std::test::Fail;

#[test]
fn sound(rt: HostRuntime) -> Result<(), Fail> {
    same(
        &rt,
        &answer(rt.alloc(), &ONE_BLOCK, &[])?,
        &counts(0, 1, 1, 0),
    );
    Ok(())
}

#[test]
fn lengths(rt: HostRuntime) -> Result<(), Fail> {
    let none = Defect::BadLength { have: 0, need: 64 };
    are_too_few(&rt, rt.alloc(), 0, none)?;
    let short = Defect::BadLength {
        have: 262136,
        need: 262144,
    };
    are_too_few(&rt, rt.alloc(), 32767, short)
}

// The first so many words are too few.
fn are_too_few<R: Abort>(rt: &R, alloc: Global, size: usize, defect: Defect) -> Result<(), Fail> {
    let mut words = blank(alloc, size)?;
    put(&mut words, ONE_BLOCK.words);
    answer_is(rt, alloc, &words, Err(defect))
}

const CHANGES: [(&[Put], Defect); 13] = [
    (&[(0, 0)], Defect::BadHeader { word: 0, value: 0 }),
    (
        &[(1, 281543696187395)],
        Defect::BadHeader {
            word: 1,
            value: 281543696187395,
        },
    ),
    (&[(2, 17)], Defect::BadDirectory { value: 17 }),
    (
        &[(6152, 1024)],
        Defect::BadEntry {
            chunk: 0,
            entry: 0,
            value: 1024,
        },
    ),
    (
        &[(6160, 33555969)],
        Defect::Overlap {
            first: 4,
            second: 6,
        },
    ),
    (
        &[(8192, 1545)],
        Defect::BadSlab {
            start: 4,
            value: 1545,
        },
    ),
    (&[(64, 2)], Defect::BadWal { line: 0, value: 2 }),
    (&[(2054, 67600)], Defect::StrayRoot { root: 6, at: 67600 }),
    (
        &[(2054, 67584)],
        Defect::SharedBlock {
            first: 5,
            second: 6,
        },
    ),
    (&[(8208, 1)], Defect::StrayBit { at: 67696 }),
    (
        &[(6160, 33556481), (6168, 33556993)],
        Defect::TooManyLoose {
            large: 2,
            empty: 0,
            morphing: 0,
            done: 0,
        },
    ),
    // A chunk is named twice, and its entry stands behind a 0: the directory is looked at first.
    (
        &[(2, 257), (6152, 0), (6160, 1026)],
        Defect::BadDirectory { value: 257 },
    ),
    // An entry stands behind a 0.
    (
        &[(6152, 0), (6160, 1026)],
        Defect::BadEntry {
            chunk: 0,
            entry: 1,
            value: 1026,
        },
    ),
];

#[test]
fn defects(rt: HostRuntime) -> Result<(), Fail> {
    for &(changes, defect) in &CHANGES {
        same(&rt, &answer(rt.alloc(), &ONE_BLOCK, changes)?, &Err(defect));
    }
    Ok(())
}

// A second slab, at granule 8, and no root that holds a block: both slabs are empty. Then both take another class, and then
// both took it and have no live block of the class before.
#[test]
fn kinds_of_loose_things(rt: HostRuntime) -> Result<(), Fail> {
    let rows: [(&[Put], [u32; 3]); 3] = [
        (&[(16384, 1537)], [2, 0, 0]),
        (&[(8192, 16975362), (16384, 16975362)], [2, 2, 0]),
        (&[(8192, 16975363), (16384, 16975363)], [2, 0, 2]),
    ];
    for (changes, [empty, morphing, done]) in rows {
        let defect = Defect::TooManyLoose {
            large: 0,
            empty,
            morphing,
            done,
        };
        are_too_many_loose(&rt, rt.alloc(), changes, defect)?;
    }
    Ok(())
}

fn are_too_many_loose<R: Abort>(
    rt: &R,
    alloc: Global,
    changes: &[Put],
    defect: Defect,
) -> Result<(), Fail> {
    let mut words = image(alloc, &ONE_BLOCK, &[(2053, 0), (6160, 2050), (8200, 0)])?;
    put(&mut words, changes);
    answer_is(rt, alloc, &words, Err(defect))
}
