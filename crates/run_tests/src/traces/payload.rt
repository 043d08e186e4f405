// Runs that write a word of a block: the heap of a crash meanwhile, and the word on the device.
use crate::crashes::crash_leaves;
use crate::runs::word_after;
use std::test::Fail;

// Whatever the seed, the heap of a crash within a write is the one before it and after it.
#[test]
fn in_a_write(rt: HostRuntime) -> Result<(), Fail> {
    let trace = "pool 1 16\n0 0 m 1 16\n0 0 w 1 1 5\n";
    let text = "call 2 same\nheap 1\n1 67584 16\n";
    crash_leaves(
        &rt,
        rt.alloc(),
        "crash 0",
        trace,
        3,
        &[(90, 92, text, text)],
    )
}

// The word stands in the block, and those beside it are as they were.
#[test]
fn a_word_on_the_device(rt: HostRuntime) -> Result<(), Fail> {
    let trace = "pool 1 16\n0 0 m 1 16\n0 0 w 1 1 18446744073709551615\n";
    for (at, word) in [(67576, 0), (67584, 0), (67592, u64::MAX), (67600, 0)] {
        let left = word_after(&rt, rt.alloc(), "replay", trace, at)?;
        assert_eq!(rt; left, Some(word), "at {at}");
    }
    Ok(())
}
