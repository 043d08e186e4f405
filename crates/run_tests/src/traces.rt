// Runs over traces, and over work that the program generates.
//
// Here are long traces that several tests take, in short, as `expanded` of `worked_runs` reads them. `worked` has the tables of
// `worked_runs`, `thresholds` how full a slab may be that takes another class, `payload` words that are written, `arenas`
// traces of several arenas and threads, `logs` traces that fill an arena's log, `crashes` a crash at every event of some
// calls, `gc_variant` arenas of the GC variant, and `generated` generated work.
mod arenas;
mod crashes;
mod gc_variant;
mod generated;
mod logs;
mod payload;
mod thresholds;
mod worked;

use std::alloc::{AllocError, Global};

/// One block 61 times: the first chunk of the log is full then, and no extent of it lives.
pub(crate) const ROLLS: &str = "pool 1 16
61 times 0 0 m 0 20000, 0 0 f 0
";

/// Two chunks, and the last entry of the second that tells of a live extent says what the first chunk says of it.
pub(crate) const REPEATS: &str = "pool 1 64
0 0 m 1 20000
59 times 0 0 m 0 20000, 0 0 f 0
0 0 m 0 20000
60 times 0 0 f 0, 0 0 m 0 20000
0 0 f 0
";

/// Three slabs of classes of which no slab ever takes another class, since so few of its blocks fit; a large block; and
/// a log whose second chunk is needless once the third is full. Then one of the blocks goes, and a block of a new class
/// comes.
pub(crate) const MIXED: &str = "pool 1 64
0 0 m 8 16384
0 0 m 9 16384
0 0 m 10 16384
0 0 m 11 16384
0 0 m 12 14000
0 0 m 13 100000
200 times 0 0 m 0 20000, 0 0 f 0
0 0 f 9
0 0 m 4095 100
";

/// Two arenas, each with a thread of its own. Both logs roll: in one arena a large block comes and goes, in the other a
/// slab. Then a large block finds no space there, and a small one does.
pub(crate) const TWO_ARENAS: &str = "pool 2 32
0 0 m 0 16384
1 1 m 5 300000
70 times 0 0 m 1 20000, 1 1 m 6 100, 0 0 f 1, 1 1 f 6
1 1 m 7 200000
1 1 m 7 1
0 0 m 2 16384
";

/// Three arenas, each with a thread of its own. In the first a slab takes a class over two old blocks, of which one moves
/// and one goes; in the second a slab takes a class, is normal again, takes its first class once more, and is normal again;
/// in the third each of three slabs takes a class. Blocks old and new are written and moved.
pub(crate) const CLASSES_TAKEN: &str = "pool 3 16
0 0 m 0 131072
0 0 m 1 64
0 0 m 2 64
0 0 w 1 7 11
0 0 m 3 1000
0 0 v 1 4095
0 0 w 4095 0 12
0 0 f 2
0 0 m 4 1000
0 0 v 4 1
1 1 m 0 131072
1 1 m 1 1000
1 1 w 1 127 13
1 1 m 2 64
1 1 w 1 0 14
1 1 f 1
1 1 v 2 1
1 1 m 2 1000
1 1 w 2 127 15
1 1 f 1
2 2 m 1 6144
2 2 m 2 6144
2 2 m 3 6144
2 2 m 4 12288
2 2 m 5 12288
2 2 m 6 10240
2 2 m 7 10240
2 2 f 3
2 2 f 5
2 2 f 7
2 2 m 8 64
2 2 m 9 128
2 2 w 4 1535 16
2 2 m 10 16
2 2 v 1 5
2 2 w 5 767 17
2 2 v 8 7
";

/// Sixteen arenas, of which the first and the last have a block.
pub(crate) const SIXTEEN_ARENAS: &str = "pool 16 16
0 15 m 4095 16
0 0 m 1 196608
";

/// Eight chunks of the log of each arena, each with the extents of two live blocks, and one block more: the log is written
/// anew. A thread of its own makes the calls of each arena.
pub(crate) fn writes_anew(alloc: Global, arenas: u32) -> Result<String, AllocError> {
    let mut trace = format!(in alloc; "pool {arenas} 64\n")?;
    add_calls(&mut trace, alloc, arenas, "m 0 20000")?;
    for chunk in 0..7u32 {
        add_chunk(&mut trace, alloc, arenas, 2 * chunk + 1, 2 * chunk + 2)?;
    }
    add_chunk(&mut trace, alloc, arenas, 15, 101)?;
    Ok(trace)
}

// Fills a chunk of the log of each arena with entries of a block that comes and goes, and of one that lives on. A second one
// that lives on is the first of the next chunk.
fn add_chunk(
    trace: &mut String,
    alloc: Global,
    arenas: u32,
    first: u32,
    second: u32,
) -> Result<(), AllocError> {
    for _ in 0..59u32 {
        add_calls(trace, alloc, arenas, "m 100 20000, f 100")?;
    }
    let calls = format!(in alloc; "m {first} 20000, m {second} 20000")?;
    add_calls(trace, alloc, arenas, &calls)
}

// Adds these calls at each arena, by the thread of its number.
fn add_calls(
    trace: &mut String,
    alloc: Global,
    arenas: u32,
    calls: &str,
) -> Result<(), AllocError> {
    for arena in 0..arenas {
        for call in calls.split(", ") {
            let line = format!(in alloc; "{arena} {arena} {call}\n")?;
            trace.push_str(&line)?;
        }
    }
    Ok(())
}

/// A text around the lines of the blocks that the roots below 16 have in `writes_anew`: two granules each, one block
/// behind the other.
pub(crate) fn around_sixteen(
    alloc: Global,
    before: &str,
    behind: &str,
) -> Result<String, AllocError> {
    let mut text = String::from_str(alloc, before)?;
    for root in 0..16u32 {
        let at = 65536 + 32768 * root;
        let line = format!(in alloc; "{root} {at} 32768\n")?;
        text.push_str(&line)?;
    }
    text.push_str(behind)?;
    Ok(text)
}
