// The words of the device that `replay` and `serve` leave on a shelf, and a shelf that keeps none.
use crate::outside::{REPORT, TRACE};
use crate::runs::{ends_and_writes, ends_with, word_after};
use nvheap::{DropShelf, OpenGate, Status};
use std::alloc::Global;
use std::process::Abort;
use std::sync::Wait;
use std::test::Fail;
use std::thread::Threads;

// The text `NVALLOG1` of an arena's header, as a word.
const TEXT: u64 = 0x3147_4f4c_4c41_564e;

// These words are at these addresses of the device that either leaves of a trace.
fn all_left<R: Abort + Threads + Wait + Sync>(
    rt: &R,
    alloc: Global,
    trace: &str,
    rows: &[(u32, u64)],
) -> Result<(), Fail> {
    for (at, word) in rows {
        for command in ["replay", "serve"] {
            let left = word_after(rt, alloc, command, trace, *at)?;
            assert_eq!(rt; left, Some(*word), "{command} at {at}");
        }
    }
    Ok(())
}

// A block of 100 bytes at root 5: the header line, the root, the log's first entry, the state word, block 0's bit. All
// else is 0, the first write-ahead line too.
const ONE_BLOCK: [(u32, u64); 17] = [
    (0, TEXT),
    (8, 0x0001_0010_0000_0001),
    (16, 1),
    (24, 0),
    (512, 0),
    (576, 0),
    (16416, 0),
    (16424, 67584),
    (16432, 0),
    (49152, 0),
    (49216, 0x0402),
    (49280, 0),
    (65536, 0x0601),
    (65600, 1),
    (65608, 0),
    (65664, 0),
    (67584, 0),
];

// The bits of neighbours lie in different lines.
const TWO_BLOCKS: [(u32, u64); 3] = [(65600, 1), (65664, 1), (65728, 0)];

// A slab whose last block goes leaves the log: its entry, and behind it a Tomb.
const GONE: [(u32, u64); 4] = [(16392, 0), (49216, 0x0402), (49280, 0x0403), (65600, 0)];

#[test]
fn small_blocks(rt: HostRuntime) -> Result<(), Fail> {
    all_left(&rt, rt.alloc(), TRACE, &ONE_BLOCK)?;
    let two = "pool 1 16\n0 0 m 1 16\n0 0 m 2 16\n";
    all_left(&rt, rt.alloc(), two, &TWO_BLOCKS)?;
    all_left(&rt, rt.alloc(), "pool 1 16\n0 0 m 1 64\n0 0 f 1\n", &GONE)
}

// A shelf that drops what is put serves as well, for the device behind a trace's calls and for one that is recovered.
#[test]
fn a_shelf_that_drops(rt: HostRuntime) -> Result<(), Fail> {
    let (_, image) = ends_and_writes(&rt, rt.alloc(), "image", TRACE.as_bytes())?;
    let heap = "arena 0 heap 1\n5 67584 112\n";
    drops(&rt, rt.alloc(), "recover", &image, heap)?;
    for line in ["replay", "serve", "gc"] {
        drops(&rt, rt.alloc(), line, TRACE.as_bytes(), REPORT)?;
    }
    Ok(())
}

// A run writes this text where its shelf drops what is put.
fn drops<R: Abort + Threads + Wait + Sync>(
    rt: &R,
    alloc: Global,
    line: &str,
    input: &[u8],
    text: &str,
) -> Result<(), Fail> {
    let mut shelf = DropShelf::new();
    let (status, written) = ends_with(rt, alloc, line, input, &OpenGate, &mut shelf)?;
    assert_eq!(rt; status, Status::Done, "{line}");
    assert_eq!(rt; written.as_slice(), text.as_bytes(), "{line}");
    Ok(())
}
