// Defects of an arena of version 2 with one block, one by one: at the places of that version, and at the ends of its ranges.
use crate::answers::{answer, answer_is, counts};
use crate::images::{Put, SECOND_VERSION, blank, put};
use crate::values::same;
use pool_layout::Defect;
use std::test::Fail;

// The place entry of root 16383 and the block that it holds, and the move entry from root 16383 to root 9.
const PLACE: u64 = 0x0003_4800_3fff_0001;

const MOVE: u64 = 0x0009_3fff_0005;

// Without a change; with open entries; and where the header line says version 1, by which no entry of the log and no root is
// read that is one of version 2.
#[test]
fn sound(rt: HostRuntime) -> Result<(), Fail> {
    let rows: [(&[Put], _); 4] = [
        (&[], counts(0, 1, 1, 0)),
        (&[(64, PLACE)], counts(0, 1, 1, 1)),
        (&[(64, MOVE), (2057, 215_040)], counts(0, 1, 1, 1)),
        (&[(1, 0x0001_0019_0000_0001)], counts(0, 0, 0, 0)),
    ];
    for (changes, wanted) in rows {
        same(&rt, &answer(rt.alloc(), &SECOND_VERSION, changes)?, &wanted);
    }
    Ok(())
}

#[test]
fn lengths(rt: HostRuntime) -> Result<(), Fail> {
    let mut short = blank(rt.alloc(), 51199)?;
    put(&mut short, SECOND_VERSION.words);
    let defect = Defect::BadLength {
        have: 409_592,
        need: 409_600,
    };
    answer_is(&rt, rt.alloc(), &short, Err(defect))
}

// A header line with this second word is bad.
fn bad_header(value: u64) -> Defect {
    Defect::BadHeader { word: 1, value }
}

// Too few granules, too many in all arenas, and a version that no pool has.
#[test]
fn headers(rt: HostRuntime) -> Result<(), Fail> {
    for value in [
        0x0001_0018_0000_0002,
        0x0010_040a_0000_0002,
        0x0001_0019_0000_0003,
    ] {
        same(
            &rt,
            &answer(rt.alloc(), &SECOND_VERSION, &[(1, value)])?,
            &Err(bad_header(value)),
        );
    }
    Ok(())
}

const ENTRIES: [(&[Put], Defect); 3] = [
    (
        &[(18440, 3074)],
        Defect::BadEntry {
            chunk: 0,
            entry: 0,
            value: 3074,
        },
    ),
    (
        &[(18440, 5634)],
        Defect::BadEntry {
            chunk: 0,
            entry: 0,
            value: 5634,
        },
    ),
    (
        &[(18943, 3330)],
        Defect::BadEntry {
            chunk: 0,
            entry: 503,
            value: 3330,
        },
    ),
];

// A slab that begins before the heap, one that ends behind it, and the chunk's last entry behind one that is 0.
#[test]
fn entries(rt: HostRuntime) -> Result<(), Fail> {
    for &(changes, defect) in &ENTRIES {
        same(
            &rt,
            &answer(rt.alloc(), &SECOND_VERSION, changes)?,
            &Err(defect),
        );
    }
    Ok(())
}

const CHANGES: [(&[Put], Defect); 9] = [
    (&[(2, 17)], Defect::BadDirectory { value: 17 }),
    (
        &[(18448, 33558273)],
        Defect::Overlap {
            first: 13,
            second: 15,
        },
    ),
    (
        &[(26624, 1545)],
        Defect::BadSlab {
            start: 13,
            value: 1545,
        },
    ),
    (&[(64, 2)], Defect::BadWal { line: 0, value: 2 }),
    (
        &[(64, 0x0003_4800_4000_0001)],
        Defect::BadWal {
            line: 0,
            value: 0x0003_4800_4000_0001,
        },
    ),
    (
        &[(2054, 215_056)],
        Defect::StrayRoot {
            root: 6,
            at: 215_056,
        },
    ),
    (
        &[(18430, 215_040)],
        Defect::SharedBlock {
            first: 16382,
            second: 16383,
        },
    ),
    (&[(26640, 1)], Defect::StrayBit { at: 215_152 }),
    (
        &[(18448, 33558785), (18456, 33559297)],
        Defect::TooManyLoose {
            large: 2,
            empty: 0,
            morphing: 0,
            done: 0,
        },
    ),
];

#[test]
fn defects(rt: HostRuntime) -> Result<(), Fail> {
    for &(changes, defect) in &CHANGES {
        same(
            &rt,
            &answer(rt.alloc(), &SECOND_VERSION, changes)?,
            &Err(defect),
        );
    }
    Ok(())
}
