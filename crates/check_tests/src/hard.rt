// Images of an arena of 1024 granules that are dear to check: all roots, all slabs, all live extents and all bits that
// there may be, and what is wrong, if anything, at the end of a search; and of version 2 one of 4096 with all live extents.
ghost use Rattle.std.specs.Prelude.{◌<◌};

use crate::answers::{answer_is, bad_slab, counts, shared};
use crate::images::{Put, blank, put, put_entry, set};
use pmem_lines::OutOfMemory;
use pool_layout::Defect;
use std::alloc::Global;
use std::process::Abort;
use std::test::Fail;

// The header line of the only arena, of 1024 granules, and a directory of eight chunks.
const LARGEST: [Put; 3] = [
    (0, 3550894020320384590),
    (1, 0x0001_0400_0000_0001),
    (2, 0x0807_0605_0403_0201),
];

// How many slabs the heap may have. Slab k begins at granule 4 + 4k.
const SLABS: u64 = 255;

// Has root number `root` hold a block of a slab, by its place behind the slab's header in bytes.
fn hold(words: &mut [u64], root: u64, slab: u64, place: u64)
    requires root { root < 4096 }
    requires slab { slab < 255 }
    requires place { place < 65536 }
{
    set(words, 2048 + root, 65536 * (1 + slab) + 2048 + place);
}

// Sets the bit of a block of a slab.
fn set_bit(words: &mut [u64], slab: u64, number: u64)
    requires slab { slab < 255 }
    requires number { number < 4096 }
{
    let at = 8192 * (1 + slab) + 8 * (1 + number % 8) + number / 512;
    let bit = 1 << (number / 8 % 64);
    if at < words.len() as u64 {
        words[at as usize] |= bit;
    }
}

// An arena with so many slabs, each with this state word, and else nothing.
fn arena_of(alloc: Global, slabs: u64, state: u64) -> Result<Vec<u64>, OutOfMemory> {
    let mut words = blank(alloc, 2_097_152)?;
    put_slabs(&mut words, slabs, state);
    Ok(words)
}

fn put_slabs(words: &mut [u64], slabs: u64, state: u64) {
    put(words, &LARGEST);
    for slab in 0..slabs.min(SLABS) {
        put_entry(words, slab, 2 + 256 * (4 + 4 * slab));
        set(words, 8192 * (1 + slab), state);
    }
}

// Roots 0 to 4094 hold a block of 16 bytes each, by falling address, and root 4095 the block of root 4094. That is the
// last of all pairs of roots.
#[test]
fn the_last_pair_of_roots(rt: HostRuntime) -> Result<(), Fail> {
    let mut words = arena_of(rt.alloc(), 2, 1)?;
    share_at_the_last_pair(&rt, rt.alloc(), &mut words)
}

fn share_at_the_last_pair<R: Abort>(rt: &R, alloc: Global, words: &mut [u64]) -> Result<(), Fail> {
    for root in 0..4095 {
        let block = 4094 - root;
        set_bit(words, block / 3968, block % 3968);
        hold(words, root, block / 3968, 16 * (block % 3968));
    }
    hold(words, 4095, 0, 0);
    answer_is(rt, alloc, words, Err(shared(4094, 4095)))
}

// Each slab took class 19 and was of class 3, and has 64 index entries. The last 16 are live in each, and the 16 before
// them in the first slab too, so that each root holds an old block. Then the last entry of the last slab has the number
// of the first.
#[test]
fn all_slabs_in_transition(rt: HostRuntime) -> Result<(), Fail> {
    let mut words = arena_of(rt.alloc(), SLABS, 0x4003_1303)?;
    are_all_in_transition(&rt, rt.alloc(), &mut words)
}

fn are_all_in_transition<R: Abort>(rt: &R, alloc: Global, words: &mut [u64]) -> Result<(), Fail> {
    for slab in 0..SLABS {
        for place in 0..64 {
            let at = 8192 * (1 + slab) + 8 * (9 + place % 8) + place / 8;
            let is_live = place >= 48 || (slab == 0 && place >= 32);
            set(words, at, 65536 * place + u64::from(is_live));
        }
        for place in 48..64 {
            hold(words, 16 * slab + place - 48, slab, 64 * place);
        }
    }
    for place in 32..48 {
        hold(words, 4048 + place, 0, 64 * place);
    }
    answer_is(rt, alloc, words, counts(0, 255, 4096, 0))?;
    set(words, 8192 * SLABS + 8 * 16 + 7, 1);
    answer_is(rt, alloc, words, Err(bad_slab(1020, 1)))
}

// The heap has 510 large extents of two granules, which is the most that there may be, and a root for each. The log's
// eight chunks are full: 450 entries say that nothing is at a granule, and then the extents follow. Then the last two
// have no root, and then the one before the last has a granule of the last.
#[test]
fn all_extents(rt: HostRuntime) -> Result<(), Fail> {
    let mut words = arena_of(rt.alloc(), 0, 0)?;
    have_all_extents(&rt, rt.alloc(), &mut words)
}

fn have_all_extents<R: Abort>(rt: &R, alloc: Global, words: &mut [u64]) -> Result<(), Fail> {
    for number in 0..450 {
        put_entry(words, number, 3 + 256 * (4 + number));
    }
    for extent in 0..510 {
        let start = 4 + 2 * extent;
        put_entry(words, 450 + extent, 1 + 256 * start + 0x0200_0000);
        set(words, 2048 + extent, 16384 * start);
    }
    answer_is(rt, alloc, words, counts(510, 0, 510, 0))?;
    put(words, &[(2048 + 508, 0), (2048 + 509, 0)]);
    let loose = Defect::TooManyLoose {
        large: 2,
        empty: 0,
        morphing: 0,
        done: 0,
    };
    answer_is(rt, alloc, words, Err(loose))?;
    put_entry(words, 958, 1 + 256 * 1020 + 0x0300_0000);
    let overlap = Defect::Overlap {
        first: 1020,
        second: 1022,
    };
    answer_is(rt, alloc, words, Err(overlap))
}

// Sets all bits of all slabs, also those behind the last block.
fn set_all_bits(words: &mut [u64]) {
    for slab in 0..SLABS {
        for word in 8..72 {
            set(words, 8192 * (1 + slab) + word, u64::MAX);
        }
    }
}

// Slabs of class 27 have 15 blocks, and a root holds each: bits behind them do not count. Slabs of class 0 have 3968,
// and roots hold the first 16 of each; the lowest that none has is block 16 of the first slab.
#[test]
fn all_bits(rt: HostRuntime) -> Result<(), Fail> {
    bits_of_class_27(&rt, rt.alloc())?;
    bits_of_class_0(&rt, rt.alloc())
}

fn bits_of_class_27<R: Abort>(rt: &R, alloc: Global) -> Result<(), Fail> {
    let mut words = arena_of(alloc, SLABS, 0x1b01)?;
    hold_all_blocks(&mut words);
    answer_is(rt, alloc, &words, counts(0, 255, 3825, 0))
}

fn hold_all_blocks(words: &mut [u64]) {
    set_all_bits(words);
    for slab in 0..SLABS {
        for number in 0..15 {
            hold(words, 15 * slab + number, slab, 4096 * number);
        }
    }
}

fn bits_of_class_0<R: Abort>(rt: &R, alloc: Global) -> Result<(), Fail> {
    let mut words = arena_of(alloc, SLABS, 1)?;
    hold_first_blocks(&mut words);
    answer_is(rt, alloc, &words, Err(Defect::StrayBit { at: 67840 }))
}

fn hold_first_blocks(words: &mut [u64]) {
    set_all_bits(words);
    for slab in 0..SLABS {
        for number in 0..16 {
            hold(words, 16 * slab + number, slab, 16 * number);
        }
    }
}

// The header line of the only arena of version 2, of 4096 granules, and a directory of five chunks.
const LARGEST_SECOND: [Put; 3] = [
    (0, 3550894020320384590),
    (1, 0x0001_1000_0000_0002),
    (2, 0x0005_0403_0201),
];

// The heap of 4083 granules has 2041 large extents of two, which is the most that there may be, and a root for each: their
// entries fill four chunks of 504, and there are 25 in the fifth. Then the first extent has three granules.
#[test]
fn all_extents_of_version_2(rt: HostRuntime) -> Result<(), Fail> {
    let mut words = blank(rt.alloc(), 8_388_608)?;
    have_all_extents_of_version_2(&rt, rt.alloc(), &mut words)
}

fn have_all_extents_of_version_2<R: Abort>(
    rt: &R,
    alloc: Global,
    words: &mut [u64],
) -> Result<(), Fail> {
    put(words, &LARGEST_SECOND);
    for extent in 0..2041u64 {
        let own = extent % 504;
        let at = 18440 + 512 * (extent / 504) + 8 * (own % 63) + own / 63;
        let start = 13 + 2 * extent;
        set(words, at, 1 + 256 * start + 0x0200_0000);
        set(words, 2048 + extent, 16384 * start);
    }
    answer_is(rt, alloc, words, counts(2041, 0, 2041, 0))?;
    set(words, 18440, 1 + 256 * 13 + 0x0300_0000);
    let overlap = Defect::Overlap {
        first: 13,
        second: 15,
    };
    answer_is(rt, alloc, words, Err(overlap))
}
