// Images of the LOG variant made by hand, and what each word says of them.
use crate::images::{
    CUT_OFF, EMPTY, EMPTY_2, FULL, FULL_2, IN_TRANSITION_2, ONE_BLOCK, ONE_BLOCK_2, SMALL, SMALL_2,
    TWO,
};
use crate::runs::tells;
use crate::table::{ALL, LOG, LOG_2, NOTHING, ONE_SMALL, Row, Shown, all_hold};
use std::test::Fail;
use worked_runs::IN_TRANSITION;

/// A large block, and a slab with a block of its class and one of the class before.
const TURNED: Shown = Shown {
    first: "h",
    heap: ("#==", "=====T000"),
    numbers: [0, 0, 0, 1, 1, 1, 3, 0],
    classes: &[
        "64 slabs 0 live 0 of 0 old 1",
        "1024 slabs 1 live 1 of 62 old 0",
    ],
};

/// A block of 112 bytes that was going: its entry, the block and its slab are loose.
const GOING: Shown = Shown {
    first: "!",
    heap: ("!00", "0........"),
    numbers: [8, 8, 131072, 0, 1, 0, 0, 3],
    classes: &["112 slabs 1 live 1 of 566 old 0"],
};

/// One large block of two granules, behind two free ones.
const LATER: Shown = Shown {
    first: "h",
    heap: ("..#", "=........"),
    numbers: [10, 8, 131072, 1, 0, 0, 1, 0],
    classes: &[],
};

const FIRST: [Row; 4] = [
    Row {
        size: SMALL,
        image: &EMPTY,
        form: LOG,
        arenas: &[NOTHING],
        page: (5087, 4_166_479_120),
        dumps: &[],
        none: &[0, 4095],
        mended: &[],
    },
    Row {
        size: SMALL,
        image: &FULL,
        form: LOG,
        arenas: &[ALL],
        page: (5077, 569_730_361),
        dumps: &[("dump 0 0", (528384, 4_030_064_959))],
        none: &[1],
        mended: &[],
    },
    Row {
        size: SMALL,
        image: &ONE_BLOCK,
        form: LOG,
        arenas: &[ONE_SMALL],
        page: (5311, 99_733_661),
        dumps: &[("dump 0 5", (301, 4_253_816_464))],
        none: &[6],
        mended: &[],
    },
    Row {
        size: SMALL,
        image: &IN_TRANSITION,
        form: LOG,
        arenas: &[TURNED],
        page: (5888, 2_359_593_658),
        dumps: &[
            ("dump 0 0", (352256, 2_390_502_453)),
            ("dump 0 2", (2752, 2_124_126_549)),
        ],
        none: &[3],
        mended: &[],
    },
];

const SECOND: [Row; 4] = [
    Row {
        size: SMALL_2,
        image: &EMPTY_2,
        form: LOG_2,
        arenas: &[NOTHING],
        page: (5958, 1_467_861_694),
        dumps: &[],
        none: &[0, 16383],
        mended: &[],
    },
    Row {
        size: SMALL_2,
        image: &FULL_2,
        form: LOG_2,
        arenas: &[ALL],
        page: (5950, 1_607_408_684),
        dumps: &[("dump 0 0", (528384, 129_343_979))],
        none: &[1],
        mended: &[],
    },
    Row {
        size: SMALL_2,
        image: &ONE_BLOCK_2,
        form: LOG_2,
        arenas: &[ONE_SMALL],
        page: (6184, 2_854_840_784),
        dumps: &[("dump 0 5", (301, 3_526_890_002))],
        none: &[6],
        mended: &[],
    },
    Row {
        size: SMALL_2,
        image: &IN_TRANSITION_2,
        form: LOG_2,
        arenas: &[TURNED],
        page: (6761, 2_641_125_834),
        dumps: &[
            ("dump 0 0", (352256, 2_204_664_325)),
            ("dump 0 2", (2752, 3_548_450_677)),
        ],
        none: &[3],
        mended: &[],
    },
];

const OTHERS: [Row; 2] = [
    Row {
        size: SMALL,
        image: &CUT_OFF,
        form: LOG,
        arenas: &[GOING],
        page: (5596, 1_937_117_681),
        dumps: &[],
        none: &[5],
        mended: &[NOTHING],
    },
    Row {
        size: 2 * SMALL,
        image: &TWO,
        form: LOG,
        arenas: &[NOTHING, LATER],
        page: (6679, 472_490_684),
        dumps: &[("dump 1 5", (88064, 2_154_725_453))],
        none: &[5],
        mended: &[],
    },
];

const WORDS_OF_ROOT_5: &str = "00010800 0123456789abcdef 0000000000000000
00010810 0000000000000000 0000000000000000
00010820 0000000000000000 0000000000000000
00010830 0000000000000000 0000000000000000
00010840 0000000000000000 0000000000000000
00010850 0000000000000000 0000000000000000
00010860 0000000000000000 0000000000000001
";

#[test]
fn each_word_says_what_an_arena_has(rt: HostRuntime) -> Result<(), Fail> {
    all_hold(&rt, rt.alloc(), &FIRST)?;
    all_hold(&rt, rt.alloc(), &SECOND)?;
    all_hold(&rt, rt.alloc(), &OTHERS)
}

#[test]
fn dump_has_the_words_of_a_block(rt: HostRuntime) -> Result<(), Fail> {
    let alloc = rt.alloc();
    tells(
        &rt,
        alloc,
        "dump 0 5",
        SMALL,
        &ONE_BLOCK,
        0,
        WORDS_OF_ROOT_5,
    )?;
    tells(
        &rt,
        alloc,
        "dump 1 5",
        SMALL,
        &ONE_BLOCK,
        2,
        "no arena 1 of 1\n",
    )
}
