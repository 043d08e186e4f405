// Images with a defect, which every word refuses by the same line.
use crate::gc_images::{GC_EMPTY, MIXED};
use crate::images::{CUT_OFF, EMPTY, EMPTY_2, ONE_BLOCK, ONE_BLOCK_2, SMALL, SMALL_2, TWO};
use crate::runs::tells_of;
use std::alloc::Global;
use std::process::Abort;
use std::test::Fail;
use worked_runs::{IN_TRANSITION, Run, image_of, lay};

/// An image, what is put into it, and the line of its defect.
#[derive(Drop)]
struct Refused {
    size: usize,
    image: &'static [Run],
    more: &'static [Run],
    line: &'static str,
}

/// What is wrong with the file, or with a header line.
const OF_FILES: [Refused; 9] = [
    // no header line, too few bytes, too many, and zeros
    Refused {
        size: 0,
        image: &EMPTY,
        more: &[],
        line: "bad length 0 64\n",
    },
    Refused {
        size: SMALL - 8,
        image: &EMPTY,
        more: &[],
        line: "bad length 262136 262144\n",
    },
    Refused {
        size: 2 * SMALL,
        image: &ONE_BLOCK,
        more: &[],
        line: "bad length 524288 262144\n",
    },
    Refused {
        size: SMALL_2 - 8,
        image: &EMPTY_2,
        more: &[],
        line: "bad length 409592 409600\n",
    },
    Refused {
        size: SMALL - 8,
        image: &GC_EMPTY,
        more: &[],
        line: "bad length 262136 262144\n",
    },
    Refused {
        size: SMALL,
        image: &[],
        more: &[],
        line: "arena 0 bad header 0 0\n",
    },
    // version 2 with the granules of version 1, in either variant, and the text of none
    Refused {
        size: SMALL,
        image: &EMPTY,
        more: &[(8, &[2])],
        line: "arena 0 bad header 1 281543696187394\n",
    },
    Refused {
        size: SMALL,
        image: &GC_EMPTY,
        more: &[(8, &[2])],
        line: "arena 0 bad header 1 281543696187394\n",
    },
    Refused {
        size: SMALL,
        image: &EMPTY,
        more: &[(0, b"NVALXX01")],
        line: "arena 0 bad header 0 3544430043000297038\n",
    },
];

/// What is wrong with an arena of version 1.
const OF_ARENAS: [Refused; 9] = [
    Refused {
        size: SMALL,
        image: &EMPTY,
        more: &[(16, &[17])],
        line: "arena 0 bad directory 17\n",
    },
    Refused {
        size: SMALL,
        image: &EMPTY,
        more: &[(49408, &[5])],
        line: "arena 0 bad entry 0 3 5\n",
    },
    // a large block of three granules before a slab
    Refused {
        size: SMALL,
        image: &EMPTY,
        more: &[(49216, &[1, 4, 0, 3]), (49280, &[2, 6])],
        line: "arena 0 overlap 4 6\n",
    },
    Refused {
        size: SMALL,
        image: &ONE_BLOCK,
        more: &[(65536, &[0, 0])],
        line: "arena 0 bad slab 4 0\n",
    },
    Refused {
        size: SMALL,
        image: &ONE_BLOCK,
        more: &[(512, &[2])],
        line: "arena 0 bad wal 0 2\n",
    },
    // inside of a block, at a block that root 5 has, and a root that was lost
    Refused {
        size: SMALL,
        image: &ONE_BLOCK,
        more: &[(16456, &[16, 8, 1])],
        line: "arena 0 stray root 9 67600\n",
    },
    Refused {
        size: SMALL,
        image: &ONE_BLOCK,
        more: &[(16456, &[0, 8, 1])],
        line: "arena 0 shared block 5 9\n",
    },
    Refused {
        size: SMALL,
        image: &ONE_BLOCK,
        more: &[(16424, &[0, 0, 0])],
        line: "arena 0 stray bit 67584\n",
    },
    Refused {
        size: SMALL,
        image: &IN_TRANSITION,
        more: &[(16401, &[0, 0])],
        line: "arena 0 stray bit 199680\n",
    },
];

/// What more of it was under way than one call leaves.
const TOO_LOOSE: [Refused; 2] = [
    Refused {
        size: SMALL,
        image: &EMPTY,
        more: &[(49216, &[1, 4, 0, 2]), (49280, &[1, 6, 0, 2])],
        line: "arena 0 too many loose 2 0 0 0\n",
    },
    Refused {
        size: SMALL,
        image: &CUT_OFF,
        more: &[(49280, &[2, 8]), (131072, &[1, 6])],
        line: "arena 0 too many loose 0 2 0 0\n",
    },
];

/// What is wrong with one of version 2.
const OF_VERSION_2: [Refused; 5] = [
    Refused {
        size: SMALL_2,
        image: &EMPTY_2,
        more: &[(16, &[17])],
        line: "arena 0 bad directory 17\n",
    },
    Refused {
        size: SMALL_2,
        image: &EMPTY_2,
        more: &[(147712, &[5])],
        line: "arena 0 bad entry 0 3 5\n",
    },
    Refused {
        size: SMALL_2,
        image: &ONE_BLOCK_2,
        more: &[(212992, &[0, 0])],
        line: "arena 0 bad slab 13 0\n",
    },
    Refused {
        size: SMALL_2,
        image: &ONE_BLOCK_2,
        more: &[(16456, &[16, 72, 3])],
        line: "arena 0 stray root 9 215056\n",
    },
    Refused {
        size: SMALL_2,
        image: &ONE_BLOCK_2,
        more: &[(16424, &[0, 0, 0])],
        line: "arena 0 stray bit 215040\n",
    },
];

/// What is wrong with one of the GC variant.
const OF_GC: [Refused; 7] = [
    Refused {
        size: SMALL,
        image: &GC_EMPTY,
        more: &[(16, &[17])],
        line: "arena 0 bad directory 17\n",
    },
    Refused {
        size: SMALL,
        image: &GC_EMPTY,
        more: &[(49408, &[5])],
        line: "arena 0 bad entry 0 3 5\n",
    },
    Refused {
        size: SMALL,
        image: &MIXED,
        more: &[(49280, &[1, 7, 0, 2])],
        line: "arena 0 overlap 4 7\n",
    },
    Refused {
        size: SMALL,
        image: &MIXED,
        more: &[(65536, &[0, 0])],
        line: "arena 0 bad slab 4 0\n",
    },
    // a block of a class that there is not, one of 16 bytes in that of root 5, and two extents of no root
    Refused {
        size: SMALL,
        image: &MIXED,
        more: &[(16456, &[0, 16, 1, 0, 37])],
        line: "arena 0 stray root 9 158913859584\n",
    },
    Refused {
        size: SMALL,
        image: &MIXED,
        more: &[(16456, &[16, 8, 1, 0, 1])],
        line: "arena 0 shared block 5 9\n",
    },
    Refused {
        size: SMALL,
        image: &GC_EMPTY,
        more: &[(49216, &[1, 4, 0, 2]), (49280, &[1, 6, 0, 2])],
        line: "arena 0 too many loose 2 0 0 0\n",
    },
];

/// A pool whose second arena is not sound.
const SECOND_UNSOUND: Refused = Refused {
    size: 2 * SMALL,
    image: &TWO,
    more: &[(262160, &[17])],
    line: "arena 1 bad directory 17\n",
};

/// One of the GC variant whose second arena has the text of the other.
const OF_BOTH: Refused = Refused {
    size: 2 * SMALL,
    image: &TWO,
    more: &[(0, b"NVALGC01")],
    line: "arena 1 bad header 0 3550894020320384590\n",
};

/// Under each of these words an image is refused by a line.
fn refuses<R: Abort>(rt: &R, alloc: Global, row: &Refused, all: &[&str]) -> Result<(), Fail> {
    let mut image = image_of(alloc, row.size, row.image)?;
    lay(&mut image, row.more);
    for words in all {
        tells_of(rt, alloc, words, &image, 2, row.line)?;
    }
    Ok(())
}

/// So is each of these under all words.
fn all_refuse<R: Abort>(rt: &R, alloc: Global, rows: &[Refused]) -> Result<(), Fail> {
    for row in rows {
        refuses(
            rt,
            alloc,
            row,
            &["map", "text", "info", "dump 0 5", "repair"],
        )?;
    }
    Ok(())
}

/// A file that is no pool, an arena that is not sound, one with too much under way, one of version 2, and one of the GC variant.
const UNFIT: [&[Refused]; 5] = [&OF_FILES, &OF_ARENAS, &TOO_LOOSE, &OF_VERSION_2, &OF_GC];

#[test]
fn an_image_that_is_not_sound_is_refused(rt: HostRuntime) -> Result<(), Fail> {
    for rows in UNFIT {
        all_refuse(&rt, rt.alloc(), rows)?;
    }
    Ok(())
}

// `dump` asks for the header lines and the one arena alone.
#[test]
fn a_pool_with_an_unsound_arena_is_refused(rt: HostRuntime) -> Result<(), Fail> {
    let alloc = rt.alloc();
    refuses(
        &rt,
        alloc,
        &SECOND_UNSOUND,
        &["map", "text", "info", "dump 1 5", "repair"],
    )?;
    let mut image = image_of(alloc, SECOND_UNSOUND.size, SECOND_UNSOUND.image)?;
    lay(&mut image, SECOND_UNSOUND.more);
    tells_of(&rt, alloc, "dump 0 5", &image, 2, "arena 0 no block 5\n")?;
    refuses(
        &rt,
        alloc,
        &OF_BOTH,
        &["map", "text", "info", "dump 0 5", "dump 1 5", "repair"],
    )
}
