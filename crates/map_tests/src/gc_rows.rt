// Images of the GC variant made by hand, and what each word says of them.
use crate::gc_images::{
    ALIVE, GC_EMPTY, GC_FULL, IN_CLASS, IN_FIRST_MALLOC, IN_LARGE_FREE, IN_LARGE_MALLOC,
    IN_SMALL_FREE, IN_SMALL_MALLOC, MIXED,
};
use crate::images::SMALL;
use crate::runs::tells;
use crate::table::{ALL, GC, NOTHING, ONE_SMALL, Row, Shown, all_hold};
use std::test::Fail;

/// A slab with a block of its class and two of others.
const BLOCKS_OF_OTHERS: Shown = Shown {
    first: "h",
    heap: ("T00", "0........"),
    numbers: [8, 8, 131072, 0, 1, 1, 3, 0],
    classes: &[
        "48 slabs 0 live 0 of 0 old 1",
        "64 slabs 0 live 0 of 0 old 1",
        "112 slabs 1 live 1 of 566 old 0",
    ],
};

/// A slab of which most lives.
const LARGEST: Shown = Shown {
    first: "h",
    heap: ("T66", "6........"),
    numbers: [8, 8, 131072, 0, 1, 1, 3, 0],
    classes: &[
        "16 slabs 0 live 0 of 0 old 1",
        "16384 slabs 1 live 2 of 3 old 0",
    ],
};

/// A slab without a block of its class, with two of others.
const CLASS_TAKEN: Shown = Shown {
    first: "h",
    heap: ("T00", "0........"),
    numbers: [8, 8, 131072, 0, 1, 1, 2, 0],
    classes: &[
        "48 slabs 0 live 0 of 0 old 1",
        "64 slabs 0 live 0 of 0 old 1",
        "1024 slabs 1 live 0 of 62 old 0",
    ],
};

/// A slab in which no block lies.
const FIRST_MALLOC: Shown = Shown {
    first: "h",
    heap: ("!00", "0........"),
    numbers: [8, 8, 131072, 0, 1, 0, 0, 1],
    classes: &["112 slabs 1 live 0 of 566 old 0"],
};

/// A slab in which no block lies, and a large block.
const SMALL_MALLOC: Shown = Shown {
    first: "h",
    heap: ("!00", "0..#=...."),
    numbers: [6, 4, 65536, 1, 1, 0, 1, 1],
    classes: &["112 slabs 1 live 0 of 566 old 0"],
};

/// Two slabs, and in the second no block lies.
const SMALL_FREE: Shown = Shown {
    first: "h",
    heap: ("S00", "0!000...."),
    numbers: [4, 4, 65536, 0, 2, 0, 1, 1],
    classes: &["112 slabs 2 live 1 of 1132 old 0"],
};

/// A slab, and an extent of no root.
const LARGE_MALLOC: Shown = Shown {
    first: "h",
    heap: ("S00", "0!==....."),
    numbers: [5, 5, 81920, 1, 1, 0, 1, 1],
    classes: &["112 slabs 1 live 1 of 566 old 0"],
};

/// Two extents, and the second is of no root.
const LARGE_FREE: Shown = Shown {
    first: "h",
    heap: ("...", ".#=!=...."),
    numbers: [8, 4, 65536, 2, 0, 0, 1, 1],
    classes: &[],
};

/// The large block behind that slab.
const LARGE_LEFT: Shown = Shown {
    first: "h",
    heap: ("...", "...#=...."),
    numbers: [10, 6, 98304, 1, 0, 0, 1, 0],
    classes: &[],
};

/// The first of those extents.
const FIRST_LEFT: Shown = Shown {
    first: "h",
    heap: ("...", ".#=......"),
    numbers: [10, 6, 98304, 1, 0, 0, 1, 0],
    classes: &[],
};

const WHOLE: [Row; 5] = [
    Row {
        size: SMALL,
        image: &GC_EMPTY,
        form: GC,
        arenas: &[NOTHING],
        page: (5099, 3_020_278_407),
        dumps: &[],
        none: &[0, 4095],
        mended: &[],
    },
    Row {
        size: SMALL,
        image: &GC_FULL,
        form: GC,
        arenas: &[ALL],
        page: (5089, 3_662_897_122),
        dumps: &[("dump 0 0", (528384, 1_981_503_181))],
        none: &[1],
        mended: &[],
    },
    Row {
        size: SMALL,
        image: &MIXED,
        form: GC,
        arenas: &[BLOCKS_OF_OTHERS],
        page: (6018, 3_638_971_958),
        dumps: &[
            ("dump 0 5", (301, 2_198_610_909)),
            ("dump 0 7", (172, 1_366_618_705)),
        ],
        none: &[8],
        mended: &[],
    },
    Row {
        size: SMALL,
        image: &ALIVE,
        form: GC,
        arenas: &[LARGEST],
        page: (6128, 2_773_980_924),
        dumps: &[
            ("dump 0 1", (44032, 3_308_969_829)),
            ("dump 0 3", (43, 2_324_684_568)),
        ],
        none: &[0],
        mended: &[],
    },
    Row {
        size: SMALL,
        image: &IN_CLASS,
        form: GC,
        arenas: &[CLASS_TAKEN],
        page: (6022, 3_249_490_386),
        dumps: &[
            ("dump 0 6", (129, 1_897_775_770)),
            ("dump 0 7", (172, 1_366_618_705)),
        ],
        none: &[5],
        mended: &[],
    },
];

const CUT: [Row; 5] = [
    Row {
        size: SMALL,
        image: &IN_FIRST_MALLOC,
        form: GC,
        arenas: &[FIRST_MALLOC],
        page: (5552, 954_203_728),
        dumps: &[],
        none: &[5],
        mended: &[NOTHING],
    },
    Row {
        size: SMALL,
        image: &IN_SMALL_MALLOC,
        form: GC,
        arenas: &[SMALL_MALLOC],
        page: (5688, 2_472_721_316),
        dumps: &[("dump 0 6", (88064, 2_149_245_837))],
        none: &[5],
        mended: &[LARGE_LEFT],
    },
    Row {
        size: SMALL,
        image: &IN_SMALL_FREE,
        form: GC,
        arenas: &[SMALL_FREE],
        page: (5658, 3_215_867_101),
        dumps: &[("dump 0 6", (301, 2_198_610_909))],
        none: &[5],
        mended: &[ONE_SMALL],
    },
    Row {
        size: SMALL,
        image: &IN_LARGE_MALLOC,
        form: GC,
        arenas: &[LARGE_MALLOC],
        page: (5593, 88_835_203),
        dumps: &[("dump 0 6", (301, 2_198_610_909))],
        none: &[5],
        mended: &[ONE_SMALL],
    },
    Row {
        size: SMALL,
        image: &IN_LARGE_FREE,
        form: GC,
        arenas: &[LARGE_FREE],
        page: (5502, 3_876_016_599),
        dumps: &[("dump 0 6", (88064, 1_223_893_109))],
        none: &[5],
        mended: &[FIRST_LEFT],
    },
];

const WORDS_OF_ROOT_6: &str = "00010890 0000000000000000 0000000000000000
000108a0 0000000000000000 0000000000000000
000108b0 0000000000000000 0000000000000000
";

#[test]
fn each_word_says_what_an_arena_of_the_gc_variant_has(rt: HostRuntime) -> Result<(), Fail> {
    all_hold(&rt, rt.alloc(), &WHOLE)?;
    all_hold(&rt, rt.alloc(), &CUT)
}

// The size of a block is that of its own class, and not that of its slab's.
#[test]
fn dump_of_the_gc_variant(rt: HostRuntime) -> Result<(), Fail> {
    let alloc = rt.alloc();
    tells(&rt, alloc, "dump 0 6", SMALL, &MIXED, 0, WORDS_OF_ROOT_6)?;
    tells(
        &rt,
        alloc,
        "dump 1 6",
        SMALL,
        &MIXED,
        2,
        "no arena 1 of 1\n",
    )
}
