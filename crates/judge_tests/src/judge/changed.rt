// Reports that were changed by hand: the judge refuses each at the line at which it is no report of its trace any more.
use crate::judge::known::old_block_goes;
use crate::judge::{finds_right, finds_wrong};
use crate::machine::Seats;
use std::alloc::{AllocError, Global};
use std::process::Abort;
use std::test::Fail;

// Two threads on one arena, and one of them on another. The slab that the first call makes takes the class of 6144 bytes in the
// second, whose block 0 the old block overlaps.
const TRACE: &str = "pool 2 16
0 0 m 1 100
1 0 m 3 6000
0 0 m 2 100
1 0 f 3
0 0 w 1 3 7
0 0 r 1 3
0 0 r 1 4
1 1 m 1 20000
0 0 v 2 5
";

const REPORT: &str = "arena 0 calls 8
0 m 1 100 placed 67584 112
1 m 3 6000 placed 73728 6144
0 m 2 100 placed 133120 112
0 w 1 3 7 wrote
1 f 3 freed 73728 6144
0 r 1 3 value 7
0 r 1 4 value 0
0 v 2 5 moved 133120 112
heap 2
1 67584 112
5 133120 112
arena 1 calls 1
1 m 1 20000 placed 65536 32768
heap 1
1 65536 32768
";

// The line at which the report is refused, a part of it, and what stands in its place, if anything; `/` ends a line.
const CHANGES: &str = "4: placed 133120 -> placed 133232
4: placed 133120 -> placed 67584
3: placed 73728 -> placed 67584
14: placed 65536 32768 -> placed 65536 20000
4: 2 100 placed 133120 112 -> 2 100 no space
9: moved 133120 -> placed 133120
7: value 7 -> value 8
8: value 0 -> value 00
8: value 0 -> wrote
6: 1 f 3 -> 0 f 3
6: 1 f 3 -> 2 f 3
5: 0 w 1 3 7 -> 00 w 1 3 7
7: 0 r 1 3 value 7/0 r 1 4 value 0/ -> 0 r 1 4 value 0/0 r 1 3 value 7/
8: 0 r 1 4 value 0/ ->
9: 0 v 2 5 moved 133120 112/ ->
7: 1 f 3 freed 73728 6144/ -> 1 f 3 freed 73728 6144/1 f 3 empty/
1: calls 8 -> calls 7
10: heap 2 -> heap 3
11: 1 67584 112/ ->
10: heap 2/1 67584 112/5 133120 112/ -> heap 1/1 67584 112/
13: 5 133120 112/arena 1 -> 5 133120 112/arena 2
17: 1 65536 32768/ -> 1 65536 32768";

// The report with one part changed, where it has that part.
fn changed(alloc: Global, old: &str, new: &str) -> Result<Option<String>, AllocError> {
    match REPORT.split_once(old) {
        Some((before, behind)) => {
            let text = format!(in alloc; "{before}{new}{behind}")?;
            Ok(Some(text))
        }
        None => Ok(None),
    }
}

#[test]
fn changed_reports_are_refused(rt: HostRuntime) -> Result<(), Fail> {
    let _ = finds_right(&rt, rt.alloc(), Seats::OfThreads, TRACE, REPORT)?;
    for change in CHANGES.lines() {
        let (line, parts) = change.split_once(": ").ok_or("no line")?;
        let report = changed_by(rt.alloc(), parts)?;
        finds_wrong(
            &rt,
            rt.alloc(),
            Seats::OfThreads,
            TRACE,
            &report,
            line.parse()?,
        )?;
    }
    Ok(())
}

// The report with the change that a line of the table says behind its number.
fn changed_by(alloc: Global, parts: &str) -> Result<String, Fail> {
    let parts = parts.replace(alloc, '/', "\n")?;
    let (old, new) = parts.split_once(" ->").ok_or("no change")?;
    Ok(changed(alloc, old, new.trim_start_matches(' '))?.ok_or("no such part")?)
}

// What threads do in another order is right, as is another word that was never written.
#[test]
fn other_reports_are_right(rt: HostRuntime) -> Result<(), Fail> {
    for (old, new) in [
        ("value 0", "value 18446744073709551615"),
        (
            "0 w 1 3 7 wrote\n1 f 3 freed 73728 6144\n",
            "1 f 3 freed 73728 6144\n0 w 1 3 7 wrote\n",
        ),
    ] {
        let report = changed(rt.alloc(), old, new)?.ok_or("no such part")?;
        let _ = finds_right(&rt, rt.alloc(), Seats::OfThreads, TRACE, &report)?;
    }
    Ok(())
}

// Of a report whose reader knows each block: no cut of it is right, and none with another arena behind it.
#[test]
fn reports_that_are_cut_are_refused(rt: HostRuntime) -> Result<(), Fail> {
    let (trace, report) = old_block_goes(rt.alloc())?;
    cuts_are_refused(&rt, rt.alloc(), &trace, &report)?;
    let longer = format!(in rt.alloc(); "{report}arena 1 calls 0\n")?;
    let behind = report.lines().count().saturating_add(1);
    finds_wrong(&rt, rt.alloc(), Seats::OfThreads, &trace, &longer, behind)
}

// The report is right, and each of its fronts that ends with a line is refused behind that line.
fn cuts_are_refused<R: Abort>(
    rt: &R,
    alloc: Global,
    trace: &str,
    report: &str,
) -> Result<(), Fail> {
    let mut end = 0usize;
    for (lines, line) in report.lines().enumerate() {
        let front = report.get(..end).unwrap_or("");
        finds_wrong(
            rt,
            alloc,
            Seats::OfThreads,
            trace,
            front,
            lines.saturating_add(1),
        )?;
        end = end.saturating_add(line.len()).saturating_add(1);
    }
    let _ = finds_right(rt, alloc, Seats::OfThreads, trace, report)?;
    Ok(())
}

// Thread 1 has a block of its own stack, or of the stack that thread 0 filled.
#[test]
fn reports_by_other_seats_are_refused(rt: HostRuntime) -> Result<(), Fail> {
    are_by(&rt, rt.alloc(), 68096, Seats::OfThreads, Seats::OfOwners)?;
    are_by(&rt, rt.alloc(), 67648, Seats::OfOwners, Seats::OfThreads)
}

// Where its block is at this address, a report is right by the first seats and refused by the others.
fn are_by<R: Abort>(
    rt: &R,
    alloc: Global,
    at: u32,
    seats: Seats,
    others: Seats,
) -> Result<(), Fail> {
    let trace = "pool 1 16\n0 0 m 1 64\n1 0 m 2 64\n";
    let report = format!(in alloc;
        "arena 0 calls 2\n0 m 1 64 placed 67584 64\n1 m 2 64 placed {at} 64\nheap 2\n1 67584 64\n2 {at} 64\n"
    )?;
    let _ = finds_right(rt, alloc, seats, trace, &report)?;
    finds_wrong(rt, alloc, others, trace, &report, 3)
}
