// Images of several arenas, and images of the wrong length.
use crate::images::{ONE_BLOCK, TOO_SHORT, all_tell_of, both_tell};
use std::alloc::Global;
use std::process::Abort;
use std::sync::Wait;
use std::test::Fail;
use std::thread::Threads;
use worked_runs::{Run, expanded, image_of, put};

// Two arenas of 16 granules: the header lines, and the first word of each log's directory.
const TWO: [Run; 6] = [
    (0, b"NVALLOG1"),
    (8, &[1, 0, 0, 0, 16, 0, 2, 0]),
    (16, &[1]),
    (262144, b"NVALLOG1"),
    (262152, &[1, 0, 1, 0, 16, 0, 2, 0]),
    (262160, &[1]),
];

// The headers of all arenas are looked at before anything else, and then the arenas in order.
const DEFECTS: &str =
    "arena 1 says that it is arena 0 | 262152: 1 0 0 0 | arena 1 bad header 1 563018672898049
no chunk in arena 1's directory | 262160: 0 | arena 1 bad directory 0
chunk 16 in arena 1's directory | 262160: 17 | arena 1 bad directory 17
bad directories of both arenas | 16: 17, 262160: 18 | arena 0 bad directory 17
a bad directory of arena 0, and another text of arena 1 | 16: 17, 262144: 0 | arena 1 bad header 0 3550894020320384512
a stray root of arena 0, and a bad number of arena 1 | 16424: 0 8 1, 262152: 1 0 0 0 | arena 1 bad header 1 563018672898049
";

#[test]
fn two_arenas(rt: HostRuntime) -> Result<(), Fail> {
    let sound = image_of(rt.alloc(), 524288, &TWO)?;
    let check =
        "arena 0 large 0 slabs 0 blocks 0 loose 0\narena 1 large 0 slabs 0 blocks 0 loose 0\n";
    let recover = "arena 0 heap 0\narena 1 heap 0\n";
    both_tell(&rt, rt.alloc(), "no block", &sound, 0, check, recover)?;
    all_tell_of(&rt, rt.alloc(), 524288, &TWO, DEFECTS)
}

// What both commands write of sixteen arenas without a block, in short.
const CHECKED: &str = "arena {0..15} large 0 slabs 0 blocks 0 loose 0\n";

const RECOVERED: &str = "arena {0..15} heap 0\n";

// Sixteen arenas of 16 granules, which are the most, without a block. Then the last has a bad directory.
#[test]
fn sixteen_arenas(rt: HostRuntime) -> Result<(), Fail> {
    let mut bytes = image_of(rt.alloc(), 4_194_304, &[])?;
    put_sixteen(&mut bytes);
    let check = expanded(rt.alloc(), CHECKED)?;
    let recover = expanded(rt.alloc(), RECOVERED)?;
    both_tell(&rt, rt.alloc(), "no block", &bytes, 0, &check, &recover)?;
    put(&mut bytes, 3_932_176, &[17]);
    refuse(&rt, rt.alloc(), &bytes, "arena 15 bad directory 17\n")
}

// The header lines of sixteen arenas, and the first chunk of each log.
fn put_sixteen(bytes: &mut [u8]) {
    for arena in 0..16u8 {
        let at = 262_144 * usize::from(arena);
        put(bytes, at, b"NVALLOG1");
        put(bytes, at + 8, &[1, 0, arena, 0, 16, 0, 16, 0]);
        put(bytes, at + 16, &[1]);
    }
}

// The first so many bytes of an image, zeros behind it: of one arena, a byte more than it has, and one of two arenas.
#[test]
fn lengths(rt: HostRuntime) -> Result<(), Fail> {
    for (size, line) in TOO_SHORT {
        is_no_length(&rt, rt.alloc(), size, &ONE_BLOCK, line)?;
    }
    let line = "bad length 262145 262144\n";
    is_no_length(&rt, rt.alloc(), 262145, &ONE_BLOCK, line)?;
    let line = "bad length 262144 524288\n";
    is_no_length(&rt, rt.alloc(), 262144, &TWO, line)
}

fn is_no_length<R: Abort + Threads + Wait + Sync>(
    rt: &R,
    alloc: Global,
    size: usize,
    base: &[Run],
    line: &str,
) -> Result<(), Fail> {
    let bytes = image_of(alloc, size, base)?;
    refuse(rt, alloc, &bytes, line)
}

// Both commands refuse an image with this line.
fn refuse<R: Abort + Threads + Wait + Sync>(
    rt: &R,
    alloc: Global,
    bytes: &[u8],
    line: &str,
) -> Result<(), Fail> {
    both_tell(rt, alloc, line, bytes, 2, line, line)
}
