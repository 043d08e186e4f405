// Reports that were worked by hand, which the judge finds right. `worked_runs` has them, and `run_tests` tests that `replay`
// writes them; those of several threads are each one of those that it may write.
use crate::judge::finds_right;
use crate::machine::Seats;
use std::alloc::{AllocError, Global};
use std::process::Abort;
use std::test::Fail;
use worked_runs::{
    CLASSES_OF_ONE_SEAT, FILLINGS, MOVES, OLD_BLOCK_GOES, OLD_BLOCKS, PAYLOAD, SEATS,
    SECOND_VERSION, SHORT, STACKS, expanded, filled,
};

// The report that a run of a table writes or may write, where it is one of the command with this word.
fn report_of<'a>(run: &'a str, word: &str) -> Option<&'a str> {
    let (line, report) = run.split_once('\n')?;
    let (code, words) = line.split_once(' ')?;
    if code != "0" && code != "may" {
        return None;
    }
    if is_among(words, word) {
        Some(report)
    } else {
        None
    }
}

// A word is one of those between commas.
fn is_among(words: &str, word: &str) -> bool {
    for said in words.split(", ") {
        if said == word {
            return true;
        }
    }
    false
}

// The judge finds each report of a table right that is one of the command with this word. How many it has.
fn all_right<R: Abort>(
    rt: &R,
    alloc: Global,
    seats: Seats,
    word: &str,
    table: &str,
) -> Result<u32, Fail> {
    let table = expanded(alloc, table)?;
    let mut count = 0u32;
    for case in table.split("----\n") {
        let (trace, runs) = case.split_once('$').unwrap_or((case, ""));
        for run in runs.split('$') {
            if let Some(report) = report_of(run, word) {
                let _ = finds_right(rt, alloc, seats, trace, report)?;
                count = count.saturating_add(1);
            }
        }
    }
    Ok(count)
}

#[test]
fn known_reports_are_right(rt: HostRuntime) -> Result<(), Fail> {
    for (table, reports) in [
        (SHORT, 13),
        (STACKS, 5),
        (SEATS, 4),
        (CLASSES_OF_ONE_SEAT, 5),
        (OLD_BLOCKS, 4),
        (PAYLOAD, 5),
        (MOVES, 2),
        (SECOND_VERSION, 4),
    ] {
        let count = all_right(&rt, rt.alloc(), Seats::OfThreads, "replay", table)?;
        assert_eq!(rt; count, reports);
        let count = all_right(&rt, rt.alloc(), Seats::OfOwners, "serve", table)?;
        assert_eq!(rt; count, reports);
    }
    Ok(())
}

#[test]
fn slabs_as_full_as_they_may_be(rt: HostRuntime) -> Result<(), Fail> {
    for row in &FILLINGS {
        let (trace, report) = filled(rt.alloc(), row)?;
        let _ = finds_right(&rt, rt.alloc(), Seats::OfThreads, &trace, &report)?;
    }
    Ok(())
}

// Word 0 of the block was never written, and may be any.
#[test]
fn a_word_that_was_never_written(rt: HostRuntime) -> Result<(), Fail> {
    let trace = "pool 1 16
0 0 m 1 16
0 0 w 1 1 18446744073709551615
0 0 r 1 1
0 0 r 1 0
0 0 w 1 2 5
0 0 r 9 0
";
    let report = "arena 0 calls 6
0 m 1 16 placed 67584 16
0 w 1 1 18446744073709551615 wrote
0 r 1 1 value 18446744073709551615
0 r 1 0 value 123
0 w 1 2 5 out of range
0 r 9 0 empty
heap 1
1 67584 16
";
    let _ = finds_right(&rt, rt.alloc(), Seats::OfThreads, trace, report)?;
    Ok(())
}

/// The trace in which an old block goes, and its report.
pub(crate) fn old_block_goes(alloc: Global) -> Result<(String, String), AllocError> {
    let table = expanded(alloc, OLD_BLOCK_GOES)?;
    let (trace, runs) = table.split_once('$').unwrap_or((&table, ""));
    let (run, _) = runs.split_once('$').unwrap_or((runs, ""));
    let report = String::from_str(alloc, report_of(run, "replay").unwrap_or(""))?;
    Ok((String::from_str(alloc, trace)?, report))
}

// Of the twelve calls one makes a slab, one takes a class, seven come from the stack and one behind it from a refill.
#[test]
fn ways_are_counted(rt: HostRuntime) -> Result<(), Fail> {
    let (trace, report) = old_block_goes(rt.alloc())?;
    let counts = finds_right(&rt, rt.alloc(), Seats::OfThreads, &trace, &report)?;
    assert_eq!(rt; (counts.own, counts.refilled, counts.stolen), (7, 1, 0));
    assert_eq!(rt; (counts.taken, counts.opened, counts.large), (1, 1, 1));
    assert_eq!(rt;
        (counts.none, counts.left, counts.old, counts.moved),
        (0, 0, 1, 0)
    );
    Ok(())
}
