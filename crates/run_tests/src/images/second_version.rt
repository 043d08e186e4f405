// Images of an arena of version 2: sound ones and those with a defect, at the places of that version and at the ends of its
// ranges.
use crate::images::all_tell_of;
use crate::runs::{ends_and_writes, halves};
use crate::values::same;
use nvheap::Status;
use std::alloc::{AllocError, Global};
use std::test::Fail;
use worked_runs::{Run, SECOND_VERSION, expanded, image_of};

/// An arena of version 2 of 25 granules with one slab of class 6, at granule 13, whose block 0 root 16383 holds; all else is 0.
pub(crate) const LAST_ROOT: [Run; 7] = [
    (0, b"NVALLOG1"),
    (8, &[2, 0, 0, 0, 25, 0, 1, 0]),
    (16, &[1]),
    (147_448, &[0, 72, 3]),
    (147_520, &[2, 13]),
    (212_992, &[1, 6]),
    (213_056, &[1]),
];

// An entry stands on line 1 + e % 63 of its chunk, which has 504.
const ROWS: &str = "none | none | arena 0 large 0 slabs 1 blocks 1 loose 0 | 16383 215040 112
an open entry of root 16383's block | 512: 1 0 255 63 0 72 3 0 | arena 0 large 0 slabs 1 blocks 1 loose 1 | 16383 215040 112
an open move from root 16383 to root 4096, which has the address | 512: 5 0 255 63 0 16 0 0, 49152: 0 72 3 | arena 0 large 0 slabs 1 blocks 1 loose 1 | 4096 215040 112
a large extent that no root names | 147584: 1 17 0 2 | arena 0 large 1 slabs 1 blocks 1 loose 1 | 16383 215040 112
the header line says version 1 | 8: 1 | arena 0 large 0 slabs 0 blocks 0 loose 0 | none
24 granules | 12: 24 | arena 0 bad header 1 281578055925762
16 arenas of 1034 granules | 12: 10 4 16 | arena 0 bad header 1 4508040623554562
version 3 | 8: 3 | arena 0 bad header 1 281582350893059
chunk 16 in the directory | 16: 17 | arena 0 bad directory 17
a slab that begins at granule 12 | 147521: 12 | arena 0 bad entry 0 0 3074
the last entry of the chunk behind entries that are 0 | 151544: 2 13 | arena 0 bad entry 0 503 3330
a large extent that begins in the slab | 147584: 1 15 0 2 | arena 0 overlap 13 15
a slab of no state | 212992: 9 | arena 0 bad slab 13 1545
an open entry of root 16384 | 512: 1 0 0 64 0 72 3 0 | arena 0 bad wal 0 923590841073665
a root that names an address within a block | 16432: 16 72 3 | arena 0 stray root 6 215056
two roots with one block | 147440: 0 72 3 | arena 0 shared block 16382 16383
a bit of a block that no root has | 213120: 1 | arena 0 stray bit 215152
two large extents that no root names | 147584: 1 17 0 2, 147648: 1 19 0 2 | arena 0 too many loose 2 0 0 0
";

#[test]
fn of_the_last_root(rt: HostRuntime) -> Result<(), Fail> {
    all_tell_of(&rt, rt.alloc(), 409_600, &LAST_ROOT, ROWS)
}

// The image of a trace, byte by byte.
#[test]
fn image_of_a_trace(rt: HostRuntime) -> Result<(), Fail> {
    let wanted = image_of(rt.alloc(), 409_600, &LAST_ROOT)?;
    let trace = b"pool2 1 25\n0 0 m 16383 100\n";
    let (ended, image) = ends_and_writes(&rt, rt.alloc(), "image", trace)?;
    same(&rt, &ended, &Status::Done);
    assert!(rt; image == wanted);
    Ok(())
}

// Chunk 8 of a log that was written anew: the entries of 16 extents of two granules by rising granule, from 13 on, and behind
// them that of the block for which room was made. Each is the first word of its line.
fn chunk_anew(alloc: Global) -> Result<Vec<u8>, AllocError> {
    let mut chunk = vec![in alloc; 0u8; 4096]?;
    for (line, bytes) in chunk.chunks_mut(64).enumerate() {
        if 0 < line && line < 18 && bytes.len() >= 4 {
            let start = 11 + 2 * line;
            bytes[0] = 1;
            bytes[1] = start as u8;
            bytes[3] = 2;
        }
    }
    Ok(chunk)
}

#[test]
fn log_written_anew(rt: HostRuntime) -> Result<(), Fail> {
    let traces = expanded(rt.alloc(), SECOND_VERSION)?;
    let (_, last) = traces.rsplit_once("----\n").ok_or("no trace")?;
    let (trace, _) = halves(last, '$');
    let (ended, image) = ends_and_writes(&rt, rt.alloc(), "image", trace.as_bytes())?;
    same(&rt, &ended, &Status::Done);
    same(
        &rt,
        &image.get(16..24),
        &Some(&[9, 0, 0, 0, 0, 0, 0, 0][..]),
    );
    let chunk = chunk_anew(rt.alloc())?;
    same(&rt, &image.get(180_224..184_320), &Some(chunk.as_slice()));
    Ok(())
}
