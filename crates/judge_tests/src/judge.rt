// The judge: replays a report line by line, beside the trace and the machine.
//
// `known` has reports that were worked by hand and are right, and `changed` reports that were changed by hand and are refused.
mod changed;
mod known;

use crate::machine::calls::{Asked, Pool, calls_at, numbered, pool_of};
use crate::machine::{Counts, Machine, Reply, Seats};
use std::alloc::{AllocError, Global};
use std::process::Abort;
use std::test::Fail;

/// What the judge says of a report.
#[derive(Clone, Copy, Debug, PartialEq, Eq)]
pub(crate) enum Verdict {
    /// It is one that the trace may have. How often each way of a malloc came.
    Right(Counts),
    /// The number of the first line that no such report has, counted from 1.
    WrongAt(usize),
}

impl Verdict {
    /// The report is one that the trace may have.
    pub(crate) fn is_right(self) -> bool {
        match self {
            Verdict::Right(_) => true,
            Verdict::WrongAt(_) => false,
        }
    }

    /// How often each way of a malloc came; never, where the report is refused.
    pub(crate) fn counts(self) -> Counts {
        match self {
            Verdict::Right(counts) => counts,
            Verdict::WrongAt(_) => Counts::ZERO,
        }
    }
}

// The lines of a report, and how many were read.
#[derive(Drop)]
struct Lines<'a> {
    lines: Vec<&'a str>,
    read: usize,
}

impl<'a> Lines<'a> {
    fn next(&mut self) -> Option<&'a str> {
        let line = self.lines.as_slice().get(self.read).copied();
        self.read = self.read.saturating_add(1);
        line
    }

    // The next line is this one.
    fn is_next(&mut self, wanted: &str) -> bool {
        self.next() == Some(wanted)
    }
}

// Takes the first call of a thread out of those that are left.
fn take_first<'a>(left: &mut Vec<Asked<'a>>, thread: u64) -> Option<Asked<'a>> {
    let at = left.iter().position(|asked| asked.thread == thread)?;
    if at < left.len() {
        Some(left.remove(at))
    } else {
        None
    }
}

// The last word of a line as a number; 0 where it is none.
fn last_number(line: &str) -> u64 {
    match line.rsplit_once(' ') {
        Some((_, word)) => word.parse().unwrap_or(0),
        None => 0,
    }
}

// A line is the first call that its thread has left, with the machine's reply.
fn is_answered(
    alloc: Global,
    seats: Seats,
    machine: &mut Machine,
    left: &mut Vec<Asked<'_>>,
    line: &str,
) -> Result<bool, AllocError> {
    let Some((thread, _)) = numbered(line) else {
        return Ok(false);
    };
    let Some(asked) = take_first(left, thread) else {
        return Ok(false);
    };
    let seat = seats.at(asked.arena, thread);
    let reply = machine.answer(alloc, seat, asked.call)?;
    is_line(alloc, line, thread, asked.text, reply)
}

// A line says a thread's call and a reply.
fn is_line(
    alloc: Global,
    line: &str,
    thread: u64,
    text: &str,
    reply: Reply,
) -> Result<bool, AllocError> {
    let said = reply.text(alloc, last_number(line))?;
    let wanted = format!(in alloc; "{thread} {text} {said}")?;
    Ok(line == wanted.as_str())
}

// The next lines are the heap of the machine.
fn is_heap(alloc: Global, machine: &Machine, lines: &mut Lines<'_>) -> Result<bool, AllocError> {
    let blocks = machine.heap_lines(alloc)?;
    let count = blocks.len();
    let heading = format!(in alloc; "heap {count}")?;
    if !lines.is_next(&heading) {
        return Ok(false);
    }
    for block in blocks.iter() {
        if !lines.is_next(block) {
            return Ok(false);
        }
    }
    Ok(true)
}

// The next lines are the journal and the heap of an arena. How often each way came, if they are.
fn judge_arena(
    alloc: Global,
    seats: Seats,
    trace: &str,
    arena: u64,
    pool: Pool,
    lines: &mut Lines<'_>,
) -> Result<Option<Counts>, AllocError> {
    let mut left = calls_at(alloc, trace, arena)?;
    judge_calls(alloc, seats, arena, pool, &mut left, lines)
}

// The same, by the calls that are asked of the arena.
fn judge_calls(
    alloc: Global,
    seats: Seats,
    arena: u64,
    pool: Pool,
    left: &mut Vec<Asked<'_>>,
    lines: &mut Lines<'_>,
) -> Result<Option<Counts>, AllocError> {
    let mut machine = Machine::new(alloc, pool);
    if is_journal(alloc, seats, arena, &mut machine, left, lines)?
        && is_heap(alloc, &machine, lines)?
    {
        return Ok(Some(machine.counts));
    }
    Ok(None)
}

// The next lines are a journal of these calls, with the machine's replies.
fn is_journal(
    alloc: Global,
    seats: Seats,
    arena: u64,
    machine: &mut Machine,
    left: &mut Vec<Asked<'_>>,
    lines: &mut Lines<'_>,
) -> Result<bool, AllocError> {
    let count = left.len();
    let heading = format!(in alloc; "arena {arena} calls {count}")?;
    if !lines.is_next(&heading) {
        return Ok(false);
    }
    are_answered(alloc, seats, machine, left, lines)
}

// The next lines are all calls that are left, with the machine's replies.
fn are_answered(
    alloc: Global,
    seats: Seats,
    machine: &mut Machine,
    left: &mut Vec<Asked<'_>>,
    lines: &mut Lines<'_>,
) -> Result<bool, AllocError> {
    for _ in 0..left.len() {
        let Some(line) = lines.next() else {
            return Ok(false);
        };
        if !is_answered(alloc, seats, machine, left, line)? {
            return Ok(false);
        }
    }
    Ok(true)
}

/// Judges a report of a trace: each line's reply is the machine's by these seats, where the word that a read finds unwritten may
/// be any; the calls at each arena are those that its threads ask of it, each thread's in its order and each call once; and
/// the heaps are those behind the last calls.
pub(crate) fn judge(
    alloc: Global,
    seats: Seats,
    trace: &str,
    report: &str,
) -> Result<Verdict, AllocError> {
    let mut lines = Lines {
        lines: report.lines().collect(alloc)?,
        read: 0,
    };
    let pool = pool_of(trace);
    let mut counts = Counts::ZERO;
    for arena in 0..pool.arenas {
        match judge_arena(alloc, seats, trace, arena, pool, &mut lines)? {
            Some(more) => counts = counts.with(more),
            None => return Ok(Verdict::WrongAt(lines.read)),
        }
    }
    if lines.next().is_some() || !report.ends_with('\n') {
        return Ok(Verdict::WrongAt(lines.read));
    }
    Ok(Verdict::Right(counts))
}

/// The judge finds a report of a trace right. How often each way of a malloc came.
pub(crate) fn finds_right<R: Abort>(
    rt: &R,
    alloc: Global,
    seats: Seats,
    trace: &str,
    report: &str,
) -> Result<Counts, Fail> {
    let verdict = judge(alloc, seats, trace, report)?;
    assert!(rt;
        verdict.is_right(),
        "{verdict:?} by {seats:?} of {report} of {trace}"
    );
    Ok(verdict.counts())
}

/// The judge refuses a report of a trace at this line.
pub(crate) fn finds_wrong<R: Abort>(
    rt: &R,
    alloc: Global,
    seats: Seats,
    trace: &str,
    report: &str,
    line: usize,
) -> Result<(), Fail> {
    let verdict = judge(alloc, seats, trace, report)?;
    assert_eq!(rt;
        verdict,
        Verdict::WrongAt(line),
        "by {seats:?} of {report} of {trace}"
    );
    Ok(())
}
