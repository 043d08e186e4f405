// Images in which something is loose or under way.
use crate::images::{Held, Row, all_become};
use check_tests::{IN_TRANSITION, ONE_BLOCK, Put};
use std::test::Fail;

// The blocks of the two images.
const SMALL: Held = (5, 67584, 112);

const LARGE: Held = (0, 65536, 131_072);

const OLD: Held = (1, 198_656, 64);

const NEW: Held = (2, 199_680, 1024);

const SLABS: [Row; 5] = [
    (&[], [1, 1], &[LARGE, OLD, NEW]),
    (&[(24576, 16_978_690), (2050, 0)], [1, 1], &[LARGE, OLD]),
    (
        &[(24576, 16_978_690), (2050, 0), (24592, 0)],
        [1, 1],
        &[LARGE, OLD],
    ),
    (&[(24648, 0), (2049, 0)], [1, 1], &[LARGE, NEW]),
    (
        &[(24576, 33_755_907), (24656, 65537), (2051, 198_720)],
        [1, 1],
        &[LARGE, OLD, NEW, (3, 198_720, 64)],
    ),
];

// The slab is in Morphing, and the bit of the new class is set already, which is not read, or is not; it was in Morphed, with
// an old block or with none; the second old block is a root's too.
#[test]
fn slabs_in_transition(rt: HostRuntime) -> Result<(), Fail> {
    all_become(&rt, rt.alloc(), &IN_TRANSITION, &SLABS)
}

const PLACE: Put = (64, 290_271_070_060_545);

const ENTRIES: [Row; 5] = [
    (&[], [0, 1], &[SMALL]),
    (&[PLACE], [0, 1], &[SMALL]),
    (&[PLACE, (8200, 0)], [0, 1], &[SMALL]),
    (&[PLACE, (2053, 0)], [0, 0], &[]),
    (&[PLACE, (2053, 0), (8200, 0)], [0, 0], &[]),
];

// The entry of a block that comes or goes, of the class of its slab: with its root stored or not, and the bit set or not. The
// slab goes with its last block.
#[test]
fn open_entries(rt: HostRuntime) -> Result<(), Fail> {
    all_become(&rt, rt.alloc(), &ONE_BLOCK, &ENTRIES)
}

const LEAVES: Put = (64, 853_221_023_219_715);

const MOVES: Put = (64, 12_884_967_429);

const OLD_ENTRIES: [Row; 6] = [
    (&[LEAVES], [1, 1], &[LARGE, OLD, NEW]),
    (&[LEAVES, (24648, 0)], [1, 1], &[LARGE, OLD, NEW]),
    (&[LEAVES, (2049, 0)], [1, 1], &[LARGE, NEW]),
    (&[LEAVES, (2049, 0), (24648, 0)], [1, 1], &[LARGE, NEW]),
    (&[MOVES], [1, 1], &[LARGE, OLD, NEW]),
    (
        &[MOVES, (2051, 198_656)],
        [1, 1],
        &[LARGE, NEW, (3, 198_656, 64)],
    ),
];

// The entry of an old block that goes, and that of a block that moves: with its new root stored or not.
#[test]
fn open_entries_in_transition(rt: HostRuntime) -> Result<(), Fail> {
    all_become(&rt, rt.alloc(), &IN_TRANSITION, &OLD_ENTRIES)
}

// A large extent that no root holds, a slab without a block, and both.
#[test]
fn loose_extents(rt: HostRuntime) -> Result<(), Fail> {
    const EMPTY: [Put; 4] = [(2049, 0), (2050, 0), (24592, 0), (24648, 0)];
    let [one, two, three, four] = EMPTY;
    let rows: [Row; 3] = [
        (&[(2048, 0)], [0, 1], &[OLD, NEW]),
        (&[one, two, three, four], [1, 0], &[LARGE]),
        (&[(2048, 0), one, two, three, four], [0, 0], &[]),
    ];
    all_become(&rt, rt.alloc(), &IN_TRANSITION, &rows)
}

const LAST: [Put; 3] = [(2, 16), (6152, 0), (8072, 1026)];

const LOGS: [Row; 4] = [
    (&[(6152, 1027), (6160, 1283), (2053, 0)], [0, 0], &[]),
    (&LAST, [0, 1], &[SMALL]),
    (
        &[
            (6280, u64::MAX),
            (6281, 1026),
            (7000, 1 << 40),
            (8191, u64::MAX),
        ],
        [0, 1],
        &[SMALL],
    ),
    (
        &[
            (7, u64::MAX),
            (65, u64::MAX),
            (127, u64::MAX),
            (1000, u64::MAX),
            (6144, u64::MAX),
        ],
        [0, 1],
        &[SMALL],
    ),
];

// A log that has Tombs alone; one whose chunk is the last of the sixteen; and words that nothing reads: of chunks that are not
// active, of the line of a chunk without entries, of the header line and of write-ahead lines.
#[test]
fn logs(rt: HostRuntime) -> Result<(), Fail> {
    all_become(&rt, rt.alloc(), &ONE_BLOCK, &LOGS)
}
