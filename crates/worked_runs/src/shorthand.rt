// How long traces and reports are said in short.
use std::alloc::{AllocError, Global};

/// The lines that a text says. A line with `{1..9}` stands for nine lines, each with one of these numbers in that place; where
/// `{67584 by 64}` stands behind, that number rises by 64 from each of them to the next. A line `61 times A, B` stands for 61
/// times the lines A and B, one after the other; all else stands for itself.
pub fn expanded(alloc: Global, text: &str) -> Result<String, AllocError> {
    let mut lines = String::new(alloc);
    for line in text.split_inclusive('\n') {
        if let Some((before, numbered)) = line.split_once('{') {
            add_numbered(&mut lines, alloc, before, numbered)?;
        } else if let Some((count, calls)) = line.split_once(" times ") {
            add_times(&mut lines, count, calls)?;
        } else {
            lines.push_str(line)?;
        }
    }
    Ok(lines)
}

// Adds a line for each number of a range, which stands before a brace that ends it.
fn add_numbered(
    lines: &mut String,
    alloc: Global,
    before: &str,
    numbered: &str,
) -> Result<(), AllocError> {
    let (range, behind) = numbered.split_once('}').unwrap_or((numbered, ""));
    let (first, last) = range.split_once("..").unwrap_or((range, range));
    for number in parsed(first)..=parsed(last) {
        let rest = risen(alloc, behind, number.saturating_sub(parsed(first)))?;
        let line = format!(in alloc; "{before}{number}{rest}")?;
        lines.push_str(&line)?;
    }
    Ok(())
}

// The rest of a line, in which a number that rises has risen so many times.
fn risen(alloc: Global, rest: &str, times: u32) -> Result<String, AllocError> {
    let Some((before, rising)) = rest.split_once('{') else {
        return String::from_str(alloc, rest);
    };
    let (number, behind) = rising.split_once('}').unwrap_or((rising, ""));
    let (first, step) = number.split_once(" by ").unwrap_or((number, ""));
    let number = parsed(first).saturating_add(parsed(step).saturating_mul(times));
    format!(in alloc; "{before}{number}{behind}")
}

// Adds so many times the lines that stand between commas.
fn add_times(lines: &mut String, count: &str, calls: &str) -> Result<(), AllocError> {
    for _ in 0..parsed(count) {
        for line in calls.trim_end().split(", ") {
            lines.push_str(line)?;
            lines.push_str("\n")?;
        }
    }
    Ok(())
}

// The number that a word says; 0 where it says none.
fn parsed(word: &str) -> u32 {
    word.parse().unwrap_or(0)
}
