// Cuts within calls of each kind, in pools of either version, and what each word says of what they leave.
use crate::table::{NOTHING, ONE_LARGE, ONE_SMALL, Shown, Weight};

/// Calls of an arena, in short, of which the power cuts off the last one: the event after which it goes, what is told then and once
/// the image is repaired, and the roots that have a block, and that have none, both times. A fence stands right before the cut, so that by every seed the
/// same is left.
pub(crate) struct Cut {
    pub(crate) calls: &'static str,
    pub(crate) event: u64,
    pub(crate) shown: &'static [Shown],
    pub(crate) mended: &'static [Shown],
    pub(crate) blocks: &'static [u32],
    pub(crate) none: &'static [u32],
}

/// A cut in a pool of a version, with the page of what it leaves, and what dumps of its blocks have.
pub(crate) struct Case {
    pub(crate) cut: Cut,
    pub(crate) page: Weight,
    pub(crate) words: &'static [Weight],
}

/// An open entry, a block that no root holds, and its slab.
const FIRST_COMING: Shown = Shown {
    first: "!",
    heap: ("!00", "0........"),
    numbers: [8, 8, 131072, 0, 1, 0, 0, 3],
    classes: &["112 slabs 1 live 1 of 566 old 0"],
};

/// An open entry, beside a block that stays.
const SECOND_UNDER_WAY: Shown = Shown {
    first: "!",
    heap: ("S00", "0........"),
    numbers: [8, 8, 131072, 0, 1, 0, 1, 1],
    classes: &["112 slabs 1 live 1 of 566 old 0"],
};

/// A large block that no root holds, beside a small one.
const LARGE_COMING: Shown = Shown {
    first: "h",
    heap: ("S00", "0!=......"),
    numbers: [6, 6, 98304, 1, 1, 0, 1, 1],
    classes: &["112 slabs 1 live 1 of 566 old 0"],
};

/// A slab in Morphing, with a block of the class before.
const TURNING: Shown = Shown {
    first: "h",
    heap: ("#==", "=====!000"),
    numbers: [0, 0, 0, 1, 1, 1, 2, 1],
    classes: &[
        "112 slabs 0 live 0 of 0 old 1",
        "1024 slabs 1 live 0 of 62 old 0",
    ],
};

/// The slab has the class.
const HAS_TURNED: Shown = Shown {
    first: "h",
    heap: ("#==", "=====T000"),
    numbers: [0, 0, 0, 1, 1, 1, 2, 0],
    classes: &[
        "112 slabs 0 live 0 of 0 old 1",
        "1024 slabs 1 live 0 of 62 old 0",
    ],
};

/// A slab in Morphed, without a block of the class before.
const TURNED: Shown = Shown {
    first: "h",
    heap: ("#==", "=====!000"),
    numbers: [0, 0, 0, 1, 1, 1, 2, 1],
    classes: &["1024 slabs 1 live 1 of 62 old 0"],
};

/// The slab has blocks of its class alone.
const IS_NORMAL: Shown = Shown {
    first: "h",
    heap: ("#==", "=====S000"),
    numbers: [0, 0, 0, 1, 1, 0, 2, 0],
    classes: &["1024 slabs 1 live 1 of 62 old 0"],
};

/// An open entry, and a slab without a block.
const SLAB_COMING: Shown = Shown {
    first: "!",
    heap: ("#=!", "000......"),
    numbers: [6, 6, 98304, 1, 1, 0, 1, 2],
    classes: &["112 slabs 1 live 0 of 566 old 0"],
};

/// A slab without a block.
const SLAB_GOING: Shown = Shown {
    first: "h",
    heap: ("#=!", "000......"),
    numbers: [6, 6, 98304, 1, 1, 0, 1, 1],
    classes: &["112 slabs 1 live 0 of 566 old 0"],
};

/// A large block that no root holds, behind one that stays.
const LARGE_GOING: Shown = Shown {
    first: "h",
    heap: ("#=!", "=........"),
    numbers: [8, 8, 131072, 2, 0, 0, 1, 1],
    classes: &[],
};

/// The first block of an arena comes: its slab is there and its bit, the entry is open, and the root holds nothing.
const FIRST_MALLOC: Cut = Cut {
    calls: "0 0 m 5 100\n",
    event: 82,
    shown: &[FIRST_COMING],
    mended: &[NOTHING],
    blocks: &[],
    none: &[5],
};

/// A block of a slab that is there comes: its entry is open.
const SMALL_MALLOC: Cut = Cut {
    calls: "0 0 m 5 100\n0 0 w 5 0 77\n0 0 m 6 100\n",
    event: 95,
    shown: &[SECOND_UNDER_WAY],
    mended: &[ONE_SMALL],
    blocks: &[5],
    none: &[6],
};

/// A large block comes: its extent is live, and its root holds nothing.
const LARGE_MALLOC: Cut = Cut {
    calls: "0 0 m 5 100\n0 0 w 5 0 77\n0 0 m 6 20000\n",
    event: 95,
    shown: &[LARGE_COMING],
    mended: &[ONE_SMALL],
    blocks: &[5],
    none: &[6],
};

/// A block that is not the last of its slab goes: its entry is open.
const FREE: Cut = Cut {
    calls: "0 0 m 5 100\n0 0 w 5 0 77\n0 0 m 6 100\n0 0 f 6\n",
    event: 111,
    shown: &[SECOND_UNDER_WAY],
    mended: &[ONE_SMALL],
    blocks: &[5],
    none: &[6],
};

/// A block moves: its entry is open, and both roots have its address.
const MOVE: Cut = Cut {
    calls: "0 0 m 5 100\n0 0 w 5 0 77\n0 0 v 5 7\n",
    event: 98,
    shown: &[SECOND_UNDER_WAY],
    mended: &[ONE_SMALL],
    blocks: &[7],
    none: &[5],
};

/// A slab takes another class: it is in Morphing.
const CLASS: Cut = Cut {
    calls: "0 0 m 1 131072\n0 0 m 2 100\n0 0 w 2 0 77\n0 0 m 3 1000\n",
    event: 104,
    shown: &[TURNING],
    mended: &[HAS_TURNED],
    blocks: &[2],
    none: &[3],
};

/// The last old block of such a slab goes: it is still in Morphed.
const LAST_OLD_BLOCK: Cut = Cut {
    calls: "0 0 m 1 131072\n0 0 m 2 100\n0 0 w 2 0 77\n0 0 m 3 1000\n0 0 f 2\n",
    event: 202,
    shown: &[TURNED],
    mended: &[IS_NORMAL],
    blocks: &[3],
    none: &[2],
};

/// A slab is opened for its first block: the slab is there, and the block's entry is open.
const SLAB_OPENED: Cut = Cut {
    calls: "0 0 m 4 20000\n0 0 w 4 0 77\n0 0 m 5 100\n",
    event: 90,
    shown: &[SLAB_COMING],
    mended: &[ONE_LARGE],
    blocks: &[4],
    none: &[5],
};

/// A slab is dropped behind its last block: it is empty, and still there.
const SLAB_DROPPED: Cut = Cut {
    calls: "0 0 m 4 20000\n0 0 w 4 0 77\n0 0 m 5 100\n0 0 f 5\n",
    event: 109,
    shown: &[SLAB_GOING],
    mended: &[ONE_LARGE],
    blocks: &[4],
    none: &[5],
};

/// The log rolls in the free of a large block, whose Tomb finds the last chunk full.
const LOG_ROLL: Cut = Cut {
    calls: "0 0 m 1 20000\n0 0 w 1 0 77\n59 times 0 0 m 0 20000, 0 0 f 0\n0 0 m 0 20000\n0 0 f 0\n",
    event: 800,
    shown: &[LARGE_GOING],
    mended: &[ONE_LARGE],
    blocks: &[1],
    none: &[0],
};

/// The same in an arena of version 2, whose chunks have 504 entries.
const LOG_ROLL_2: Cut = Cut {
    calls: "0 0 m 1 20000\n0 0 w 1 0 77\n251 times 0 0 m 0 20000, 0 0 f 0\n0 0 m 0 20000\n0 0 f 0\n",
    event: 3300,
    shown: &[LARGE_GOING],
    mended: &[ONE_LARGE],
    blocks: &[1],
    none: &[0],
};

pub(crate) const COMING: [Case; 3] = [
    Case {
        cut: FIRST_MALLOC,
        page: (5596, 1_937_117_681),
        words: &[],
    },
    Case {
        cut: SMALL_MALLOC,
        page: (5367, 1_840_330_391),
        words: &[(301, 1_159_958_781)],
    },
    Case {
        cut: LARGE_MALLOC,
        page: (5523, 2_712_574_046),
        words: &[(301, 1_159_958_781)],
    },
];

pub(crate) const COMING_2: [Case; 3] = [
    Case {
        cut: FIRST_MALLOC,
        page: (6472, 209_051_934),
        words: &[],
    },
    Case {
        cut: SMALL_MALLOC,
        page: (6240, 777_522_518),
        words: &[(301, 3_090_121_515)],
    },
    Case {
        cut: LARGE_MALLOC,
        page: (6396, 3_592_987_595),
        words: &[(301, 3_090_121_515)],
    },
];

pub(crate) const LEAVING: [Case; 2] = [
    Case {
        cut: FREE,
        page: (5367, 1_840_330_391),
        words: &[(301, 1_159_958_781)],
    },
    Case {
        cut: MOVE,
        page: (5367, 1_840_330_391),
        words: &[(301, 1_159_958_781)],
    },
];

pub(crate) const LEAVING_2: [Case; 2] = [
    Case {
        cut: FREE,
        page: (6240, 777_522_518),
        words: &[(301, 3_090_121_515)],
    },
    Case {
        cut: MOVE,
        page: (6240, 777_522_518),
        words: &[(301, 3_090_121_515)],
    },
];

pub(crate) const CLASSES: [Case; 2] = [
    Case {
        cut: CLASS,
        page: (6122, 2_574_338_755),
        words: &[(301, 1_534_567_367)],
    },
    Case {
        cut: LAST_OLD_BLOCK,
        page: (5774, 701_191_963),
        words: &[(2752, 2_124_126_549)],
    },
];

pub(crate) const CLASSES_2: [Case; 2] = [
    Case {
        cut: CLASS,
        page: (6995, 1_244_640_235),
        words: &[(301, 2_316_934_013)],
    },
    Case {
        cut: LAST_OLD_BLOCK,
        page: (6647, 818_885_999),
        words: &[(2752, 3_548_450_677)],
    },
];

pub(crate) const SLABS: [Case; 2] = [
    Case {
        cut: SLAB_OPENED,
        page: (5693, 3_127_438_853),
        words: &[(88064, 3_808_063_157)],
    },
    Case {
        cut: SLAB_DROPPED,
        page: (5637, 2_898_005_337),
        words: &[(88064, 3_808_063_157)],
    },
];

pub(crate) const SLABS_2: [Case; 2] = [
    Case {
        cut: SLAB_OPENED,
        page: (6568, 3_354_768_991),
        words: &[(88064, 2_661_959_565)],
    },
    Case {
        cut: SLAB_DROPPED,
        page: (6512, 696_318_507),
        words: &[(88064, 2_661_959_565)],
    },
];

pub(crate) const ROLLS: [Case; 1] = [Case {
    cut: LOG_ROLL,
    page: (5390, 3_591_105_058),
    words: &[(88064, 3_808_063_157)],
}];

pub(crate) const ROLLS_2: [Case; 1] = [Case {
    cut: LOG_ROLL_2,
    page: (6265, 3_144_026_515),
    words: &[(88064, 2_661_959_565)],
}];
