// Images made by hand, and what `check` and `recover` write of them.
//
// Here is how both commands run over images. `entries` has images with open entries, `transition` of a
// slab that takes another class, `defects` with a defect, `pools` of several arenas and of wrong lengths, `second_version` of
// version 2, and `cycles` images that `image` makes of traces. `migration` has images that `migrate` makes of images.
mod cycles;
mod defects;
mod entries;
mod migration;
mod pools;
mod second_version;
mod transition;

use crate::runs::{heap_of, tells};
use std::alloc::{AllocError, Global};
use std::process::Abort;
use std::sync::Wait;
use std::test::Fail;
use std::thread::Threads;
use worked_runs::{Run, image_of, put};

/// An arena of 16 granules with one slab of class 6, whose block 0 root 5 holds; all else is 0.
pub(crate) const ONE_BLOCK: [Run; 7] = [
    (0, b"NVALLOG1"),
    (8, &[1, 0, 0, 0, 16, 0, 1, 0]),
    (16, &[1]),
    (16424, &[0, 8, 1]),
    (49216, &[2, 4]),
    (65536, &[1, 6]),
    (65600, &[1]),
];

/// How many bytes of an image of one arena of 16 granules there are, and the line that both commands write of them. Below 64
/// bytes there is no header to say how many there must be.
pub(crate) const TOO_SHORT: [(usize, &str); 7] = [
    (0, "bad length 0 64\n"),
    (1, "bad length 1 64\n"),
    (63, "bad length 63 64\n"),
    (64, "bad length 64 262144\n"),
    (65, "bad length 65 262144\n"),
    (65536, "bad length 65536 262144\n"),
    (262143, "bad length 262143 262144\n"),
];

/// `check` and `recover` end with this code over these bytes, and write these texts.
pub(crate) fn both_tell<R: Abort + Threads + Wait + Sync>(
    rt: &R,
    alloc: Global,
    name: &str,
    bytes: &[u8],
    code: u8,
    check: &str,
    recover: &str,
) -> Result<(), Fail> {
    for (line, wanted) in [("check", check), ("recover", recover)] {
        let (ended, text) = tells(rt, alloc, line, bytes)?;
        assert_eq!(rt; text.as_str(), wanted, "{line}: {name}");
        assert_eq!(rt; ended, code, "{line}: {name}");
    }
    Ok(())
}

/// Both commands end over images of so many bytes as a table says. Each of its lines has, between bars, what is changed in an
/// image in words; the runs of bytes that are changed; and the line that both commands write, which refuse the image. Of an
/// image that is sound it has what `check` writes, and then the blocks of the heap that `recover` writes.
pub(crate) fn all_tell_of<R: Abort + Threads + Wait + Sync>(
    rt: &R,
    alloc: Global,
    size: usize,
    base: &[Run],
    table: &str,
) -> Result<(), Fail> {
    for row in table.lines() {
        let (name, changed) = row.split_once(" | ").ok_or("no changes")?;
        let (runs, told) = changed.split_once(" | ").ok_or("no line")?;
        let mut bytes = image_of(alloc, size, base)?;
        put_all(alloc, &mut bytes, runs)?;
        tell_of(rt, alloc, name, &bytes, told)?;
    }
    Ok(())
}

// Both commands end over these bytes as the last part of a line says.
fn tell_of<R: Abort + Threads + Wait + Sync>(
    rt: &R,
    alloc: Global,
    name: &str,
    bytes: &[u8],
    told: &str,
) -> Result<(), Fail> {
    match told.split_once(" | ") {
        Some((counts, blocks)) => {
            let checked = format!(in alloc; "{counts}\n")?;
            let recovered = heap_of_arena_0(alloc, blocks)?;
            both_tell(rt, alloc, name, bytes, 0, &checked, &recovered)
        }
        None => {
            let line = format!(in alloc; "{told}\n")?;
            both_tell(rt, alloc, name, bytes, 2, &line, &line)
        }
    }
}

// The heap that has these blocks, as `recover` writes it of the first arena.
fn heap_of_arena_0(alloc: Global, blocks: &str) -> Result<String, AllocError> {
    let heap = heap_of(alloc, blocks)?;
    format!(in alloc; "arena 0 {heap}")
}

// Puts runs into an image, of which each is said by the number of its first byte and its bytes: `512: 1 0 5, 65600: 0`.
fn put_all(alloc: Global, bytes: &mut [u8], runs: &str) -> Result<(), Fail> {
    for run in runs.split(", ") {
        if let Some((at, numbers)) = run.split_once(": ") {
            let mut row = Vec::new(alloc);
            for number in numbers.split(' ') {
                row.push(number.parse::<u8>()?)?;
            }
            put(bytes, at.parse::<usize>()?, &row);
        }
    }
    Ok(())
}
