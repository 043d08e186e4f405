// Runs in which the log of an arena is full: it drops a chunk, or is written anew.
use crate::runs::{tells, word_after};
use crate::traces::{REPEATS, ROLLS, around_sixteen, writes_anew};
use crate::values::same;
use std::test::Fail;
use worked_runs::expanded;

// The byte of an arena's word that names the chunks of its log, in order.
const DIRECTORY_AT: u32 = 16;

#[test]
fn leaves_the_directory(rt: HostRuntime) -> Result<(), Fail> {
    let anew = writes_anew(rt.alloc(), 1)?;
    for (text, directory) in [(ROLLS, 2), (anew.as_str(), 9), (REPEATS, 0x0301)] {
        let trace = expanded(rt.alloc(), text)?;
        let word = word_after(&rt, rt.alloc(), "replay", &trace, DIRECTORY_AT)?;
        same(&rt, &word, &Some(directory));
    }
    Ok(())
}

// A call whose entry finds the log full has 139 events more.
#[test]
fn counts_the_events_of_the_log(rt: HostRuntime) -> Result<(), Fail> {
    let anew = writes_anew(rt.alloc(), 1)?;
    let rows = [
        (ROLLS, "crash 0 872 0", "no event 872 of 871\n"),
        (ROLLS, "crash 0 871 0", "call 122 after\nheap 0\n"),
        (anew.as_str(), "crash 0 6879 0", "no event 6879 of 6878\n"),
        (REPEATS, "crash 0 1725 0", "no event 1725 of 1724\n"),
        (
            REPEATS,
            "crash 0 1579 0",
            "call 240 after\nheap 2\n0 98304 32768\n1 65536 32768\n",
        ),
        (
            REPEATS,
            "crash 0 1580 0",
            "call 241 after\nheap 1\n1 65536 32768\n",
        ),
    ];
    for (text, words, wanted) in rows {
        let trace = expanded(rt.alloc(), text)?;
        let (_, told) = tells(&rt, rt.alloc(), words, trace.as_bytes())?;
        assert_eq!(rt; told.as_str(), wanted, "{words}");
    }
    Ok(())
}

#[test]
fn places_blocks_behind_the_log(rt: HostRuntime) -> Result<(), Fail> {
    let trace = writes_anew(rt.alloc(), 1)?;
    let (code, report) = tells(&rt, rt.alloc(), "replay", trace.as_bytes())?;
    same(&rt, &code, &0);
    let heap = around_sixteen(rt.alloc(), "heap 17\n", "101 589824 32768\n")?;
    assert!(rt; report.as_str().ends_with(heap.as_str()));
    Ok(())
}
