// Images of version 1 that are migrated, and images that are not. The log and the heap of version 2 begin 147456 bytes behind
// those of version 1, so that each block does.
use crate::images::second_version::LAST_ROOT;
use crate::images::{ONE_BLOCK, TOO_SHORT, both_tell};
use crate::runs::{all_tell, ends_and_writes, tells};
use crate::traces::{ROLLS, writes_anew};
use crate::values::same;
use nvheap::Status;
use std::alloc::{AllocError, Global};
use std::process::Abort;
use std::sync::Wait;
use std::test::Fail;
use std::thread::Threads;
use worked_runs::{Run, expanded, image_of, put};

// The bytes that `migrate` writes of an image.
fn migrated<R: Abort + Threads + Wait + Sync>(
    rt: &R,
    alloc: Global,
    image: &[u8],
) -> Result<Vec<u8>, Fail> {
    let (ended, bytes) = ends_and_writes(rt, alloc, "migrate", image)?;
    same(rt, &ended, &Status::Done);
    Ok(bytes)
}

// The image of a trace is migrated to so many bytes, of which `check` and `recover` write these texts. A second time it is
// refused.
fn migrates<R: Abort + Threads + Wait + Sync>(
    rt: &R,
    alloc: Global,
    trace: &str,
    size: usize,
    check: &str,
    recover: &str,
) -> Result<(), Fail> {
    let (ended, image) = ends_and_writes(rt, alloc, "image", trace.as_bytes())?;
    assert_eq!(rt; ended, Status::Done, "{trace}");
    let bytes = migrated(rt, alloc, &image)?;
    assert_eq!(rt; bytes.len(), size, "{trace}");
    both_tell(rt, alloc, trace, &bytes, 0, check, recover)?;
    all_tell(rt, alloc, &bytes, &[("migrate", 2, "version 2\n")])
}

#[test]
fn images_of_traces(rt: HostRuntime) -> Result<(), Fail> {
    let rolls = expanded(rt.alloc(), ROLLS)?;
    for (trace, size, check, recover) in [
        (
            "pool 1 16\n",
            409_600,
            "arena 0 large 0 slabs 0 blocks 0 loose 0\n",
            "arena 0 heap 0\n",
        ),
        (
            "pool 1 16\n0 0 m 5 100\n",
            409_600,
            "arena 0 large 0 slabs 1 blocks 1 loose 0\n",
            "arena 0 heap 1\n5 215040 112\n",
        ),
        (
            "pool 1 16\n0 0 m 0 131072\n0 0 m 1 64\n0 0 m 2 1000\n",
            409_600,
            "arena 0 large 1 slabs 1 blocks 3 loose 0\n",
            "arena 0 heap 3\n0 212992 131072\n1 346112 64\n2 347136 1024\n",
        ),
        (
            "pool 2 20\n0 0 m 5 100\n0 1 m 4095 20000\n",
            950_272,
            "arena 0 large 0 slabs 1 blocks 1 loose 0\narena 1 large 1 slabs 0 blocks 1 loose 0\n",
            "arena 0 heap 1\n5 215040 112\narena 1 heap 1\n4095 212992 32768\n",
        ),
        (
            rolls.as_str(),
            409_600,
            "arena 0 large 0 slabs 0 blocks 0 loose 0\n",
            "arena 0 heap 0\n",
        ),
    ] {
        migrates(&rt, rt.alloc(), trace, size, check, recover)?;
    }
    Ok(())
}

// What `recover` writes of a log that was written anew: the blocks of the roots below 16, and that of root 101.
fn seventeen(alloc: Global) -> Result<String, AllocError> {
    let mut lines = String::from_str(alloc, "arena 0 heap 17\n")?;
    for root in 0..16u32 {
        let at = 212_992 + 32_768 * root;
        let line = format!(in alloc; "{root} {at} 32768\n")?;
        lines.push_str(&line)?;
    }
    lines.push_str("101 737280 32768\n")?;
    Ok(lines)
}

#[test]
fn a_log_written_anew(rt: HostRuntime) -> Result<(), Fail> {
    let trace = writes_anew(rt.alloc(), 1)?;
    let check = "arena 0 large 17 slabs 0 blocks 17 loose 0\n";
    let recover = seventeen(rt.alloc())?;
    migrates(&rt, rt.alloc(), &trace, 1_196_032, check, &recover)
}

// What is loose in an image is not in its migration: an open entry of root 5's block with its bit clear, a large extent that no
// root names, and a move that came to root 9.
#[test]
fn loose_things_are_settled(rt: HostRuntime) -> Result<(), Fail> {
    let rows: [(&[Run], &str); 3] = [
        (
            &[(512, &[1, 0, 5, 0, 0, 8, 1, 0]), (65600, &[0])],
            "arena 0 heap 1\n5 215040 112\n",
        ),
        (&[(49280, &[1, 8, 0, 2])], "arena 0 heap 1\n5 215040 112\n"),
        (
            &[(512, &[5, 0, 5, 0, 9]), (16456, &[0, 8, 1])],
            "arena 0 heap 1\n9 215040 112\n",
        ),
    ];
    for (runs, recover) in rows {
        let mut image = image_of(rt.alloc(), 262_144, &ONE_BLOCK)?;
        for (at, run) in runs {
            put(&mut image, *at, run);
        }
        let bytes = migrated(&rt, rt.alloc(), &image)?;
        let check = "arena 0 large 0 slabs 1 blocks 1 loose 0\n";
        both_tell(&rt, rt.alloc(), recover, &bytes, 0, check, recover)?;
    }
    Ok(())
}

// An image that `recover` refuses is refused by the same line.
#[test]
fn images_with_a_defect(rt: HostRuntime) -> Result<(), Fail> {
    for (size, line) in TOO_SHORT {
        let bytes = image_of(rt.alloc(), size, &ONE_BLOCK)?;
        same(
            &rt,
            &tells(&rt, rt.alloc(), "migrate", &bytes)?.1.as_str(),
            &line,
        );
    }
    let mut stray = image_of(rt.alloc(), 262_144, &ONE_BLOCK)?;
    put(&mut stray, 16432, &[16, 8, 1]);
    let line = "arena 0 stray root 6 67600\n";
    both_tell(&rt, rt.alloc(), "a stray root", &stray, 2, line, line)?;
    all_tell(&rt, rt.alloc(), &stray, &[("migrate", 2, line)])
}

// Two arenas of version 2 of 25 granules: the header lines, and the first word of each log's directory.
const TWO: [Run; 6] = [
    (0, b"NVALLOG1"),
    (8, &[2, 0, 0, 0, 25, 0, 2, 0]),
    (16, &[1]),
    (409_600, b"NVALLOG1"),
    (409_608, &[2, 0, 1, 0, 25, 0, 2, 0]),
    (409_616, &[1]),
];

const NEWER: [(&str, u8, &str); 1] = [("migrate", 2, "version 2\n")];

// Of version 2 the length and the header lines are looked at before the version is said, and the arenas are not.
#[test]
fn an_image_of_version_2(rt: HostRuntime) -> Result<(), Fail> {
    let mut image = image_of(rt.alloc(), 409_600, &LAST_ROOT)?;
    all_tell(&rt, rt.alloc(), &image, &NEWER)?;
    put(&mut image, 16432, &[16, 72, 3]);
    all_tell(&rt, rt.alloc(), &image, &NEWER)?;
    let front = image.get(..409_599).unwrap_or(&[]);
    let short = [("migrate", 2, "bad length 409599 409600\n")];
    all_tell(&rt, rt.alloc(), front, &short)
}

#[test]
fn two_arenas_of_version_2(rt: HostRuntime) -> Result<(), Fail> {
    let mut two = image_of(rt.alloc(), 819_200, &TWO)?;
    all_tell(&rt, rt.alloc(), &two, &NEWER)?;
    put(&mut two, 409_610, &[0]);
    let line = "arena 1 bad header 1 563057327603714\n";
    all_tell(&rt, rt.alloc(), &two, &[("migrate", 2, line)])
}
