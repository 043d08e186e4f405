// The files that examples/pictures.sh makes, by their lengths and sums, as it prints them.
use crate::runs::written;
use std::alloc::Global;
use std::process::Abort;
use std::test::Fail;

/// examples/cut.trace.
const CUT_TRACE: &[u8] =
    b"# A pool whose power goes within the last call, which makes a slab. examples/pictures.sh draws it.
pool 1 64
0 0 m 1 100
0 0 m 2 100
0 0 m 3 1000
0 0 m 4 100000
0 0 m 5 60000
0 0 m 6 40000
# a hole between two large blocks
0 0 f 5
0 0 m 7 5000
";

/// How many bytes its last line has.
const LAST_LINE: usize = 13;

/// examples/small.trace.
const SMALL_TRACE: &[u8] = b"pool 1 16
0 0 m 5 100
0 0 m 6 100
0 0 m 7 20000
0 0 f 5
";

// A sum of bytes: FNV-1a, of 32 bits.
fn sum_of(bytes: &[u8]) -> u32 {
    let mut sum = 2_166_136_261u32;
    for byte in bytes {
        sum = (sum ^ u32::from(*byte)).wrapping_mul(16_777_619);
    }
    sum
}

/// A file has this length and sum.
fn weighs<R: Abort>(rt: &R, file: &[u8], length: usize, sum: u32) {
    assert_eq!(rt; file.len(), length);
    assert_eq!(rt; sum_of(file), sum);
}

/// So does what a run over bytes writes, which is given.
pub(crate) fn makes<R: Abort>(
    rt: &R,
    alloc: Global,
    line: &str,
    input: &[u8],
    length: usize,
    sum: u32,
) -> Result<Vec<u8>, Fail> {
    let output = written(alloc, line, input)?;
    weighs(rt, &output, length, sum);
    Ok(output)
}

#[test]
fn the_traces_are_those_of_the_examples(rt: HostRuntime) {
    weighs(&rt, CUT_TRACE, 244, 3_984_671_376);
    weighs(&rt, SMALL_TRACE, 56, 3_976_332_379);
}

#[test]
fn the_arena_before_the_cut_is_drawn(rt: HostRuntime) -> Result<(), Fail> {
    let alloc = rt.alloc();
    let calls = &CUT_TRACE[..CUT_TRACE.len() - LAST_LINE];
    let before = makes(&rt, alloc, "cut 0 219 1", calls, 1_048_576, 1_524_496_368)?;
    makes(&rt, alloc, "map", &before, 8866, 950_885_593)?;
    Ok(())
}

#[test]
fn the_arena_that_was_cut_and_recovered_is_drawn(rt: HostRuntime) -> Result<(), Fail> {
    let alloc = rt.alloc();
    let cut = makes(
        &rt,
        alloc,
        "cut 0 301 1",
        CUT_TRACE,
        1_048_576,
        1_933_913_770,
    )?;
    makes(&rt, alloc, "map", &cut, 9347, 1_808_441_894)?;
    let recovered = makes(&rt, alloc, "repair", &cut, 1_048_576, 2_062_166_356)?;
    makes(&rt, alloc, "map", &recovered, 8866, 950_885_593)?;
    Ok(())
}

#[test]
fn the_small_arena_is_drawn(rt: HostRuntime) -> Result<(), Fail> {
    let alloc = rt.alloc();
    let small = makes(&rt, alloc, "cut 0 117 1", SMALL_TRACE, 262_144, 119_368_188)?;
    makes(&rt, alloc, "map", &small, 5407, 2_268_875_386)?;
    Ok(())
}
