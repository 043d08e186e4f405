// What runs write of crashes after chosen numbers of events.
use crate::runs::{counted, halves, tells};
use std::alloc::{AllocError, Global};
use std::process::Abort;
use std::sync::Wait;
use std::test::Fail;
use std::thread::Threads;
use worked_runs::expanded;

/// The first and the last of some numbers of events, and what may be written of a crash after so many: one text or the other, as
/// the seed picks.
pub(crate) type Events<'a> = (u32, u32, &'a str, &'a str);

/// Whatever the seed, of the seeds below a number, a run with these words, the number of events and the seed writes one of both
/// texts after so many events; and each of both with some seed.
pub(crate) fn crash_leaves<R: Abort + Threads + Wait + Sync>(
    rt: &R,
    alloc: Global,
    words: &str,
    input: &str,
    seeds: u32,
    events: &[Events<'_>],
) -> Result<(), Fail> {
    for (first, last, one, other) in events {
        for event in *first..=*last {
            let line = format!(in alloc; "{words} {event}")?;
            leaves_both(rt, alloc, &line, input, seeds, (*one, *other))?;
        }
    }
    Ok(())
}

// With each seed below a number one of both texts is written, and each of them with some seed.
fn leaves_both<R: Abort + Threads + Wait + Sync>(
    rt: &R,
    alloc: Global,
    words: &str,
    input: &str,
    seeds: u32,
    texts: (&str, &str),
) -> Result<(), Fail> {
    let (mut is_one, mut is_other) = (false, false);
    for seed in 0..seeds {
        let (one, other) = leaves_one(rt, alloc, words, input, seed, texts)?;
        is_one = is_one || one;
        is_other = is_other || other;
    }
    assert!(rt; is_one && is_other, "{words}: one text alone");
    Ok(())
}

// Which of both texts is written with a seed.
fn leaves_one<R: Abort + Threads + Wait + Sync>(
    rt: &R,
    alloc: Global,
    words: &str,
    input: &str,
    seed: u32,
    (one, other): (&str, &str),
) -> Result<(bool, bool), Fail> {
    let line = format!(in alloc; "{words} {seed}")?;
    let (code, text) = tells(rt, alloc, &line, input.as_bytes())?;
    let (is_one, is_other) = (text.as_str() == one, text.as_str() == other);
    assert_eq!(rt; code, 0, "{line}");
    assert!(rt; is_one || is_other, "{line}: {text}");
    Ok((is_one, is_other))
}

/// Over each input of a table runs with these words write what stands below it. A line has the first and the last of some numbers
/// of events, and how a call stands after each of them, with the parts of what a crash leaves there, which the report counts by
/// this name; behind a bar stands what else it may be.
pub(crate) fn all_leave<R: Abort + Threads + Wait + Sync>(
    rt: &R,
    alloc: Global,
    words: &str,
    name: &str,
    table: &str,
    seeds: u32,
) -> Result<(), Fail> {
    let table = expanded(alloc, table)?;
    for case in table.split("----\n") {
        let (input, lines) = halves(case, '$');
        for line in lines.split("\n$") {
            leave(rt, alloc, words, name, input, line.trim_end(), seeds)?;
        }
    }
    Ok(())
}

// The same for one line.
fn leave<R: Abort + Threads + Wait + Sync>(
    rt: &R,
    alloc: Global,
    words: &str,
    name: &str,
    input: &str,
    line: &str,
    seeds: u32,
) -> Result<(), Fail> {
    let (numbers, told) = halves(line, ' ');
    let (first, last) = numbers.split_once("..").unwrap_or((numbers, numbers));
    let (one, other) = told.split_once(" | ").unwrap_or((told, told));
    let one = text_of(alloc, name, one)?;
    let other = text_of(alloc, name, other)?;
    let events = [(first.parse()?, last.parse()?, one.as_str(), other.as_str())];
    crash_leaves(rt, alloc, words, input, seeds, &events)
}

// What is written of a call and of these parts: `call 1 after, 5 67584 112`.
fn text_of(alloc: Global, name: &str, told: &str) -> Result<String, AllocError> {
    let (call, parts) = told.split_once(", ").unwrap_or((told, "none"));
    let left = counted(alloc, name, parts)?;
    format!(in alloc; "{call}\n{left}")
}
