// Images that `image` makes of a trace, and what `check` and `recover` write of them.
use crate::images::{ONE_BLOCK, both_tell};
use crate::runs::{ends_and_writes, tells};
use crate::traces::{
    CLASSES_TAKEN, MIXED, REPEATS, ROLLS, SIXTEEN_ARENAS, TWO_ARENAS, writes_anew,
};
use crate::values::same;
use nvheap::Status;
use std::alloc::Global;
use std::process::Abort;
use std::sync::Wait;
use std::test::Fail;
use std::thread::Threads;
use worked_runs::{IN_TRANSITION, Run, expanded, image_of};

// The heaps of a report, as `recover` writes them: the line `heap M` of an arena names the arena, and its blocks are
// those of the report.
fn heaps_of(alloc: Global, report: &str) -> Result<String, Fail> {
    let mut heaps = String::new(alloc);
    for part in report.split("arena ") {
        if let Some((arena, rest)) = part.split_once(" calls ") {
            if let Some((_, heap)) = rest.split_once("heap ") {
                let lines = format!(in alloc; "arena {arena} heap {heap}")?;
                heaps.push_str(&lines)?;
            }
        }
    }
    Ok(heaps)
}

#[test]
fn reads_heaps_off_a_report(rt: HostRuntime) -> Result<(), Fail> {
    let report =
        "arena 0 calls 1\n0 m 5 1 placed 8 16\nheap 1\n5 8 16\narena 1 calls 1\n0 f 0 empty\nheap 0\n";
    let heaps = heaps_of(rt.alloc(), report)?;
    same(
        &rt,
        &heaps.as_str(),
        &("arena 0 heap 1\n5 8 16\narena 1 heap 0\n"),
    );
    Ok(())
}

// What `check` writes of `SIXTEEN_ARENAS`.
const SIXTEEN: &str = "arena 0 large 1 slabs 0 blocks 1 loose 0
arena 1 large 0 slabs 0 blocks 0 loose 0
arena 2 large 0 slabs 0 blocks 0 loose 0
arena 3 large 0 slabs 0 blocks 0 loose 0
arena 4 large 0 slabs 0 blocks 0 loose 0
arena 5 large 0 slabs 0 blocks 0 loose 0
arena 6 large 0 slabs 0 blocks 0 loose 0
arena 7 large 0 slabs 0 blocks 0 loose 0
arena 8 large 0 slabs 0 blocks 0 loose 0
arena 9 large 0 slabs 0 blocks 0 loose 0
arena 10 large 0 slabs 0 blocks 0 loose 0
arena 11 large 0 slabs 0 blocks 0 loose 0
arena 12 large 0 slabs 0 blocks 0 loose 0
arena 13 large 0 slabs 0 blocks 0 loose 0
arena 14 large 0 slabs 0 blocks 0 loose 0
arena 15 large 0 slabs 1 blocks 1 loose 0
";

// Traces, in short, and the counts of each: large blocks, slabs, and all blocks. What calls leave has nothing loose.
const COUNTED: [(&str, &str); 9] = [
    ("pool 1 16\n", "arena 0 large 0 slabs 0 blocks 0 loose 0\n"),
    (
        "pool 1 1024\n0 0 m 5 16711680\n0 0 m 6 1\n",
        "arena 0 large 1 slabs 0 blocks 1 loose 0\n",
    ),
    (MIXED, "arena 0 large 1 slabs 4 blocks 6 loose 0\n"),
    (ROLLS, "arena 0 large 0 slabs 0 blocks 0 loose 0\n"),
    (REPEATS, "arena 0 large 1 slabs 0 blocks 1 loose 0\n"),
    (
        TWO_ARENAS,
        "arena 0 large 0 slabs 1 blocks 2 loose 0\narena 1 large 1 slabs 1 blocks 2 loose 0\n",
    ),
    (SIXTEEN_ARENAS, SIXTEEN),
    (
        CLASSES_TAKEN,
        "arena 0 large 1 slabs 1 blocks 4 loose 0\narena 1 large 1 slabs 1 blocks 2 loose 0\narena 2 large 0 slabs 3 blocks 7 loose 0\n",
    ),
    (
        "pool 1 16\n0 0 m 5 20000\n0 0 m 6 100\n0 0 m 7 100\n0 0 w 6 13 9\n0 0 v 6 4095\n0 0 v 5 6\n0 0 f 7\n",
        "arena 0 large 1 slabs 1 blocks 2 loose 0\n",
    ),
];

// The counts of one arena, and of two, whose logs are written anew.
const ANEW_IN_ONE: &str = "arena 0 large 17 slabs 0 blocks 17 loose 0\n";

const ANEW_IN_BOTH: &str =
    "arena 0 large 17 slabs 0 blocks 17 loose 0\narena 1 large 17 slabs 0 blocks 17 loose 0\n";

// Each trace has its image checked, and recovered to the heaps of its report.
#[test]
fn heaps_come_back(rt: HostRuntime) -> Result<(), Fail> {
    for (text, counts) in COUNTED {
        comes_back(&rt, rt.alloc(), text, counts)?;
    }
    for (arenas, counts) in [(1, ANEW_IN_ONE), (2, ANEW_IN_BOTH)] {
        let text = writes_anew(rt.alloc(), arenas)?;
        comes_back(&rt, rt.alloc(), &text, counts)?;
    }
    Ok(())
}

// The image of a trace has these counts, and is recovered to the heaps of its report.
fn comes_back<R: Abort + Threads + Wait + Sync>(
    rt: &R,
    alloc: Global,
    text: &str,
    counts: &str,
) -> Result<(), Fail> {
    let trace = expanded(alloc, text)?;
    let heaps = heaps_after(rt, alloc, &trace)?;
    let (ended, image) = ends_and_writes(rt, alloc, "image", trace.as_bytes())?;
    assert_eq!(rt; ended, Status::Done, "{text}");
    both_tell(rt, alloc, text, &image, 0, counts, &heaps)
}

// The heaps of the report that `replay` writes of a trace.
fn heaps_after<R: Abort + Threads + Wait + Sync>(
    rt: &R,
    alloc: Global,
    trace: &str,
) -> Result<String, Fail> {
    let (code, report) = tells(rt, alloc, "replay", trace.as_bytes())?;
    assert_eq!(rt; code, 0, "{trace}");
    heaps_of(alloc, &report)
}

// The image of a trace is this one, byte by byte.
fn leaves<R: Threads + Wait + Sync>(
    rt: &R,
    alloc: Global,
    trace: &str,
    size: usize,
    runs: &[Run],
) -> Result<bool, Fail> {
    let wanted = image_of(alloc, size, runs)?;
    let (ended, image) = ends_and_writes(rt, alloc, "image", trace.as_bytes())?;
    Ok(ended == Status::Done && image == wanted)
}

#[test]
fn images_byte_by_byte(rt: HostRuntime) -> Result<(), Fail> {
    assert!(rt;
        leaves(
            &rt,
            rt.alloc(),
            "pool 1 16\n0 0 m 5 100\n",
            262144,
            &ONE_BLOCK
        )?
    );
    let largest: [Run; 3] = [(0, b"NVALLOG1"), (8, &[1, 0, 0, 0, 0, 4, 1, 0]), (16, &[1])];
    assert!(rt;
        leaves(
            &rt,
            rt.alloc(),
            "pool 1 1024\n0 0 f 5\n",
            16777216,
            &largest
        )?
    );
    Ok(())
}

// The same when root 1's block is gone: class 19, and no old block.
const NORMAL_AGAIN: [Run; 9] = [
    (0, b"NVALLOG1"),
    (8, &[1, 0, 0, 0, 16, 0, 1, 0]),
    (16, &[1]),
    (16386, &[1]),
    (16401, &[12, 3]),
    (49216, &[1, 4, 0, 8]),
    (49280, &[2, 12]),
    (196608, &[1, 19]),
    (196736, &[1]),
];

// The same with two old blocks, numbers 1 and 2 of class 3, of which the first is gone: its index entry keeps its number.
// Root 3 has the second, and root 4 block 1 of class 19.
const ONE_OF_TWO: [Run; 12] = [
    (0, b"NVALLOG1"),
    (8, &[1, 0, 0, 0, 16, 0, 1, 0]),
    (16, &[1]),
    (16386, &[1]),
    (16408, &[128, 8, 3]),
    (16417, &[12, 3]),
    (49216, &[1, 4, 0, 8]),
    (49280, &[2, 12]),
    (196608, &[3, 19, 3, 2]),
    (196736, &[1]),
    (197184, &[0, 0, 1]),
    (197248, &[1, 0, 2]),
];

// A slab takes class 19 with one old block; that block goes; and a slab takes it with two, and the first goes.
#[test]
fn images_of_old_blocks(rt: HostRuntime) -> Result<(), Fail> {
    let taken = "pool 1 16\n0 0 m 0 131072\n0 0 m 1 64\n0 0 m 2 1000\n";
    assert!(rt; leaves(&rt, rt.alloc(), taken, 262144, &IN_TRANSITION)?);
    let gone = format!(in rt.alloc(); "{taken}0 0 f 1\n")?;
    assert!(rt; leaves(&rt, rt.alloc(), &gone, 262144, &NORMAL_AGAIN)?);
    let two =
        "pool 1 16\n0 0 m 0 131072\n0 0 m 1 64\n0 0 m 2 64\n0 0 m 3 64\n0 0 f 1\n0 0 m 4 1000\n0 0 f 2\n";
    assert!(rt; leaves(&rt, rt.alloc(), two, 262144, &ONE_OF_TWO)?);
    Ok(())
}

// Chunk 8 of a log that was written anew: the entries of 16 extents of two granules by rising granule, from 4 on, and
// behind them that of the block for which room was made. Entry 0 is in the chunk's line 1, and entry 15 is the second
// of it.
const ANEW: [Run; 17] = [
    (64, &[1, 4, 0, 2]),
    (128, &[1, 6, 0, 2]),
    (192, &[1, 8, 0, 2]),
    (256, &[1, 10, 0, 2]),
    (320, &[1, 12, 0, 2]),
    (384, &[1, 14, 0, 2]),
    (448, &[1, 16, 0, 2]),
    (512, &[1, 18, 0, 2]),
    (576, &[1, 20, 0, 2]),
    (640, &[1, 22, 0, 2]),
    (704, &[1, 24, 0, 2]),
    (768, &[1, 26, 0, 2]),
    (832, &[1, 28, 0, 2]),
    (896, &[1, 30, 0, 2]),
    (960, &[1, 32, 0, 2]),
    (72, &[1, 34, 0, 2]),
    (136, &[1, 36, 0, 2]),
];

#[test]
fn log_written_anew(rt: HostRuntime) -> Result<(), Fail> {
    let trace = writes_anew(rt.alloc(), 1)?;
    let (ended, image) = ends_and_writes(&rt, rt.alloc(), "image", trace.as_bytes())?;
    same(&rt, &ended, &Status::Done);
    same(
        &rt,
        &image.get(16..24),
        &Some(&[9, 0, 0, 0, 0, 0, 0, 0][..]),
    );
    let chunk = image_of(rt.alloc(), 1024, &ANEW)?;
    same(&rt, &image.get(57344..58368), &Some(chunk.as_slice()));
    Ok(())
}
