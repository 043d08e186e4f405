// The pool of a trace, and its calls.
use std::alloc::{AllocError, Global};

/// Arenas of one size.
#[derive(Clone, Copy)]
pub(crate) struct Pool {
    /// How many there are.
    pub(crate) arenas: u64,
    /// How many granules each has.
    pub(crate) granules: u64,
    /// The granule at which its heap begins.
    pub(crate) first: u64,
    /// How many roots it has.
    pub(crate) roots: u64,
}

/// A call at an arena.
#[derive(Clone, Copy)]
pub(crate) enum Call {
    Malloc { root: u64, size: u64 },
    Free { root: u64 },
    Write { root: u64, index: u64, value: u64 },
    Read { root: u64, index: u64 },
    Move { from: u64, to: u64 },
}

/// A call that a thread asks of an arena.
#[derive(Clone, Copy)]
pub(crate) struct Asked<'a> {
    pub(crate) thread: u64,
    pub(crate) arena: u64,
    pub(crate) call: Call,
    /// The words of the call, as trace and report have them.
    pub(crate) text: &'a str,
}

// The number that a word says.
fn number(word: Option<&str>) -> Option<u64> {
    word?.parse().ok()
}

/// The number that a text begins with, and the text behind the space that follows.
pub(crate) fn numbered(text: &str) -> Option<(u64, &str)> {
    let (word, rest) = text.split_once(' ')?;
    Some((number(Some(word))?, rest))
}

// The call that some words say.
fn call_of(text: &str) -> Option<Call> {
    let mut words = text.split(' ');
    let kind = words.next()?;
    let root = number(words.next())?;
    if kind == "f" {
        return Some(Call::Free { root });
    }
    let second = number(words.next())?;
    call_with(kind, root, second, words.next())
}

// The call of a kind with two numbers, or three.
fn call_with(kind: &str, root: u64, second: u64, third: Option<&str>) -> Option<Call> {
    match kind {
        "m" => Some(Call::Malloc { root, size: second }),
        "r" => Some(Call::Read {
            root,
            index: second,
        }),
        "v" => Some(Call::Move {
            from: root,
            to: second,
        }),
        "w" => Some(Call::Write {
            root,
            index: second,
            value: number(third)?,
        }),
        _ => None,
    }
}

// The call that a line asks for.
fn read_call(line: &str) -> Option<Asked<'_>> {
    let (thread, rest) = numbered(line)?;
    let (arena, text) = numbered(rest)?;
    let call = call_of(text)?;
    Some(Asked {
        thread,
        arena,
        call,
        text,
    })
}

/// The calls of a trace that are asked of an arena, in order.
pub(crate) fn calls_at(
    alloc: Global,
    trace: &str,
    arena: u64,
) -> Result<Vec<Asked<'_>>, AllocError> {
    let mut calls = Vec::new(alloc);
    for line in trace.lines() {
        if let Some(asked) = read_call(line) {
            if asked.arena == arena {
                calls.push(asked)?;
            }
        }
    }
    Ok(calls)
}

// The pool that a line says.
fn read_pool(line: &str) -> Option<Pool> {
    let (word, numbers) = line.split_once(' ')?;
    let (first, roots) = match word {
        "pool" => (4, 4096),
        "pool2" => (13, 16384),
        _ => return None,
    };
    let (arenas, granules) = numbered(numbers)?;
    Some(Pool {
        arenas,
        granules: number(Some(granules))?,
        first,
        roots,
    })
}

/// The pool of a trace: without an arena, where no line says one.
pub(crate) fn pool_of(trace: &str) -> Pool {
    for line in trace.lines() {
        if let Some(pool) = read_pool(line) {
            return pool;
        }
    }
    Pool {
        arenas: 0,
        granules: 0,
        first: 0,
        roots: 0,
    }
}
