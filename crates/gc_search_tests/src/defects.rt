// Each defect once, in an arena with one block.
use crate::answers::{answer, answer_of, bad_slab, shared, stray_root, too_many_loose};
use crate::images::{ONE_BLOCK, small_word};
use crate::values::same;
use check_tests::{Put, blank, put};
use pool_layout::Defect;
use std::test::Fail;

#[test]
fn lengths(rt: HostRuntime) -> Result<(), Fail> {
    let none = blank(rt.alloc(), 0)?;
    same(
        &rt,
        &answer_of(rt.alloc(), &none)?,
        &Some(Defect::BadLength { have: 0, need: 64 }),
    );
    let mut short = blank(rt.alloc(), 32767)?;
    put(&mut short, ONE_BLOCK.words);
    same(
        &rt,
        &answer_of(rt.alloc(), &short)?,
        &Some(Defect::BadLength {
            have: 262136,
            need: 262144,
        }),
    );
    Ok(())
}

// The text of the other variant, then another version, too few granules and too many, no arena and too many, and an arena's number
// that is none.
#[test]
fn headers(rt: HostRuntime) -> Result<(), Fail> {
    let rows: [(usize, u64); 7] = [
        (0, 3550894020320384590),
        (1, 0x0001_0010_0000_0002),
        (1, 0x0001_000f_0000_0001),
        (1, 0x0001_0401_0000_0001),
        (1, 0x0000_0010_0000_0001),
        (1, 0x0011_0010_0000_0001),
        (1, 0x0001_0010_0001_0001),
    ];
    for (word, value) in rows {
        same(
            &rt,
            &answer(rt.alloc(), &[(word, value)])?,
            &Some(Defect::BadHeader {
                word: word as u8,
                value,
            }),
        );
    }
    Ok(())
}

const LOGS: [(&[Put], Defect); 4] = [
    (&[(2, 17)], Defect::BadDirectory { value: 17 }),
    (
        &[(6152, 1024)],
        Defect::BadEntry {
            chunk: 0,
            entry: 0,
            value: 1024,
        },
    ),
    // An entry stands behind a 0.
    (
        &[(6152, 0), (6160, 1026)],
        Defect::BadEntry {
            chunk: 0,
            entry: 1,
            value: 1026,
        },
    ),
    (
        &[(6160, 33555969)],
        Defect::Overlap {
            first: 4,
            second: 6,
        },
    ),
];

#[test]
fn logs(rt: HostRuntime) -> Result<(), Fail> {
    for &(changes, defect) in &LOGS {
        same(&rt, &answer(rt.alloc(), changes)?, &Some(defect));
    }
    Ok(())
}

// The greatest class and one more, the two other kinds of state, no kind, and a bit above the class.
#[test]
fn state_words(rt: HostRuntime) -> Result<(), Fail> {
    same(&rt, &answer(rt.alloc(), &[(8192, 8961)])?, &None);
    for value in [9217, 16975362, 16975363, 1536, 67073] {
        same(
            &rt,
            &answer(rt.alloc(), &[(8192, value)])?,
            &bad_slab(4, value),
        );
    }
    Ok(())
}

// Beside the block a large extent of two granules stands at granule 8.
#[test]
fn root_words(rt: HostRuntime) -> Result<(), Fail> {
    let strays = [
        // A class field of 37, and one of 36 with a bit above it.
        small_word(67584, 36),
        0x107_0001_0870,
        // A class and the address of a large extent.
        small_word(131072, 6),
        // An address between two blocks, before the first and behind the last, of 566.
        small_word(67712, 6),
        small_word(67472, 6),
        small_word(130976, 6),
        // A slab's first byte, and an address in the large extent, of no class.
        65536,
        147456,
        // A large extent's address with a bit below.
        131073,
    ];
    for word in strays {
        same(
            &rt,
            &answer(rt.alloc(), &[(6160, 33556481), (2054, word)])?,
            &stray_root(6, word),
        );
    }
    // The large extent, the block behind the first, and the last one.
    for word in [131072, small_word(67696, 6), small_word(130864, 6)] {
        same(
            &rt,
            &answer(rt.alloc(), &[(6160, 33556481), (2054, word)])?,
            &None,
        );
    }
    Ok(())
}

// The lowest first root comes first, and then the lowest second: blocks of 256 bytes lie over the first two of 112.
#[test]
fn shared_blocks(rt: HostRuntime) -> Result<(), Fail> {
    let here = 30064838656;
    let next = small_word(67696, 6);
    let wide = small_word(67584, 11);
    let rows: [(&[Put], u32, u32); 6] = [
        (&[(2054, here)], 5, 6),
        (&[(2052, here), (2057, here)], 4, 5),
        (&[(2055, next), (2058, wide)], 5, 10),
        (&[(2051, wide), (2055, next)], 3, 5),
        (&[(2050, next), (2060, wide)], 2, 12),
        (&[(6160, 33556481), (2049, 131072), (2143, 131072)], 1, 95),
    ];
    for (changes, first, second) in rows {
        same(&rt, &answer(rt.alloc(), changes)?, &shared(first, second));
    }
    Ok(())
}

// Two large extents that no root names, at 8 and 10. Then a second slab, at granule 8, and a root whose block lies in neither.
#[test]
fn loose_things(rt: HostRuntime) -> Result<(), Fail> {
    same(&rt, &answer(rt.alloc(), &[(6160, 33556481)])?, &None);
    same(
        &rt,
        &answer(rt.alloc(), &[(6160, 33556481), (6168, 33556993)])?,
        &too_many_loose(2, 0),
    );
    same(
        &rt,
        &answer(rt.alloc(), &[(6160, 2050), (16384, 1)])?,
        &None,
    );
    same(
        &rt,
        &answer(rt.alloc(), &[(6160, 2050), (16384, 1), (2053, 0)])?,
        &too_many_loose(0, 2),
    );
    Ok(())
}
