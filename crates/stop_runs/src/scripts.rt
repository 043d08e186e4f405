// The scripts.
use crate::full_arena::full_arena;
use arena_variants::Variant;
use heap_model::Call;
use pmem_lines::OutOfMemory;
use std::alloc::{AllocError, Global};

/// How much of a script is stopped.
#[derive(Clone, Copy, Debug, PartialEq, Eq)]
pub(crate) enum Amount {
    /// The calls for which it is there.
    Brief,
    /// All calls, but for those that another script begins with too.
    Whole,
}

/// Calls of an arena of a version with so many granules, each by a seat, that name roots below a number. None is a Read, which
/// has no events of its own.
#[derive(Drop)]
pub(crate) struct Script {
    pub(crate) version: u32,
    pub(crate) granules: u32,
    pub(crate) roots: u32,
    pub(crate) calls: Vec<(u32, Call)>,
    brief_from: usize,
    whole_from: usize,
}

impl Script {
    /// The first call that is stopped, counted from 0.
    pub(crate) fn first_of(&self, amount: Amount) -> usize {
        match amount {
            Amount::Brief => self.brief_from,
            Amount::Whole => self.whole_from,
        }
    }
}

/// The names of the scripts, in the order in which they run.
pub(crate) const NAMES: [&str; 15] = [
    "ordinary-use",
    "payload",
    "slab-goes-back",
    "morph",
    "transition-ends",
    "moves",
    "log-roll",
    "roll-in-slab",
    "log-rewrite",
    "rewrite-in-slab",
    "widest-rewrite",
    "full-arena",
    "version-2-use",
    "version-2-roll",
    "version-2-rewrite",
];

/// The names of scripts whose calls are made on an arena of the GC variant: behind `gc-` each has the name of the same calls. None
/// has a move, and all are of version 1.
pub(crate) const GC_NAMES: [&str; 8] = [
    "gc-ordinary-use",
    "gc-payload",
    "gc-slab-goes-back",
    "gc-morph",
    "gc-transition-ends",
    "gc-log-roll",
    "gc-log-rewrite",
    "gc-full-arena",
];

/// The script of a name, of an arena of a variant.
pub(crate) fn script_of<V: Variant>(
    alloc: Global,
    name: &str,
) -> Result<Option<Script>, OutOfMemory> {
    match name {
        "full-arena" => Ok(Some(drawn_calls::<V>(alloc)?)),
        _ => Ok(fixed_script(alloc, name)?),
    }
}

// The same of a script whose calls are the same for each variant.
fn fixed_script(alloc: Global, name: &str) -> Result<Option<Script>, AllocError> {
    let script = match name {
        "ordinary-use" => ordinary_use(alloc),
        "payload" => payload(alloc),
        "slab-goes-back" => slab_goes_back(alloc),
        "morph" => morph(alloc),
        "transition-ends" => transition_ends(alloc),
        "moves" => moves(alloc),
        "log-roll" => log_roll(alloc, 16, 60),
        "roll-in-slab" => roll_in_slab(alloc),
        "log-rewrite" => log_rewrite(alloc, 20_000, 0),
        "rewrite-in-slab" => log_rewrite(alloc, 100, 960),
        "widest-rewrite" => widest_rewrite(alloc),
        "version-2-use" => use_of_version_2(alloc),
        "version-2-roll" => roll_of_version_2(alloc),
        "version-2-rewrite" => rewrite_of_version_2(alloc),
        _ => return Ok(None),
    };
    Ok(Some(script?))
}

// Calls that are drawn, on an arena of a variant.
fn drawn_calls<V: Variant>(alloc: Global) -> Result<Script, OutOfMemory> {
    Ok(of_calls(16, 30, full_arena::<V>(alloc)?, first_drawn::<V>(), 0))
}

// From which of the drawn calls on they are stopped where the stops are brief: from the last, or all where recovery is short.
fn first_drawn<V: Variant>() -> usize {
    if V::SHORT_RECOVERY { 0 } else { 199 }
}

// A script over version 1, with the first of its calls that is stopped where the stops are brief, and where they are whole.
fn of_calls(
    granules: u32,
    roots: u32,
    calls: Vec<(u32, Call)>,
    brief_from: usize,
    whole_from: usize,
) -> Script {
    Script {
        version: 1,
        granules,
        roots,
        calls,
        brief_from,
        whole_from,
    }
}

// The same script over version 2.
fn over_version_2(mut script: Script) -> Script {
    script.version = 2;
    script
}

fn malloc(root: u32, size: u64) -> (u32, Call) {
    (0, Call::Malloc { root, size })
}

fn free(root: u32) -> (u32, Call) {
    (0, Call::Free { root })
}

// A small block comes, and its slab with it.
fn ordinary_use(alloc: Global) -> Result<Script, AllocError> {
    Ok(of_calls(16, 6, vec![in alloc; malloc(5, 100)]?, 0, 0))
}

// A small block goes, and its slab with it.
fn slab_goes_back(alloc: Global) -> Result<Script, AllocError> {
    Ok(of_calls(16, 2, vec![in alloc; malloc(1, 64), free(1)]?, 1, 0))
}

// A word of a block is written.
fn payload(alloc: Global) -> Result<Script, AllocError> {
    let write = Call::Write {
        root: 1,
        index: 1,
        value: u64::MAX,
    };
    Ok(of_calls(16, 2, vec![in alloc; malloc(1, 16), (0, write)]?, 1, 0))
}

// Eight granules are taken, a slab is opened, and it takes another class.
fn takes_a_class(alloc: Global) -> Result<Vec<(u32, Call)>, AllocError> {
    Ok(vec![in alloc; malloc(0, 131_072), malloc(1, 64), malloc(2, 1000)]?)
}

fn morph(alloc: Global) -> Result<Script, AllocError> {
    Ok(of_calls(16, 3, takes_a_class(alloc)?, 2, 0))
}

// Then the slab's old block goes, and with it the transition.
fn transition_ends(alloc: Global) -> Result<Script, AllocError> {
    let mut calls = takes_a_class(alloc)?;
    calls.push(free(1))?;
    Ok(of_calls(16, 3, calls, 3, 3))
}

// A large block, an old block of a slab that took another class, and one of the slab's class move.
fn moves(alloc: Global) -> Result<Script, AllocError> {
    let mut calls = takes_a_class(alloc)?;
    calls.push((0, Call::Move { from: 0, to: 7 }))?;
    calls.push((1, Call::Move { from: 1, to: 8 }))?;
    calls.push((2, Call::Move { from: 2, to: 1 }))?;
    Ok(of_calls(16, 9, calls, 3, 3))
}

// A block comes to a root and goes, so many times.
fn comes_and_goes(calls: &mut Vec<(u32, Call)>, root: u32, times: u32) -> Result<(), AllocError> {
    for _ in 0..times {
        calls.push(malloc(root, 20_000))?;
        calls.push(free(root))?;
    }
    Ok(())
}

// One block so many times that the first chunk of the log has room for no more entry, and once more. The chunk is needless and
// is dropped, and the next one taken.
fn log_roll(alloc: Global, granules: u32, times: u32) -> Result<Script, AllocError> {
    let mut calls = Vec::new(alloc);
    comes_and_goes(&mut calls, 0, times)?;
    let first = calls.len();
    comes_and_goes(&mut calls, 0, 1)?;
    Ok(of_calls(granules, 1, calls, first, 0))
}

// The log rolls within a call that opens a slab.
fn roll_in_slab(alloc: Global) -> Result<Script, AllocError> {
    let mut calls = Vec::new(alloc);
    comes_and_goes(&mut calls, 0, 60)?;
    calls.push(malloc(5, 100))?;
    Ok(of_calls(16, 6, calls, 120, 120))
}

// Eight chunks of the log with the entries of two live blocks each, between which one comes and goes so many times, and a call
// for which it is written anew.
fn rewrites(alloc: Global, times: u32, size: u64) -> Result<Vec<(u32, Call)>, AllocError> {
    let mut calls = Vec::new(alloc);
    for chunk in 0..8u32 {
        calls.push(malloc(2 * chunk, 20_000))?;
        comes_and_goes(&mut calls, 100, times)?;
        calls.push(malloc(2 * chunk + 1, 20_000))?;
    }
    calls.push(malloc(101, size))?;
    Ok(calls)
}

// The log is written anew for a block of this size. All is stopped from one call on.
fn log_rewrite(alloc: Global, size: u64, whole_from: usize) -> Result<Script, AllocError> {
    Ok(of_calls(64, 102, rewrites(alloc, 59, size)?, 960, whole_from))
}

// Four chunks of the log with entries of live blocks alone, and four with those of two live blocks each. It is written anew
// into five, within a call that opens a slab. Each image has 16 MiB, so that no call is stopped where the stops are brief, and
// else the last one.
fn widest_rewrite(alloc: Global) -> Result<Script, AllocError> {
    let mut calls = Vec::new(alloc);
    for root in 0..480u32 {
        calls.push(malloc(root, 20_000))?;
    }
    for chunk in 0..4u32 {
        calls.push(malloc(480 + 2 * chunk, 20_000))?;
        comes_and_goes(&mut calls, 500, 59)?;
        calls.push(malloc(481 + 2 * chunk, 20_000))?;
    }
    calls.push(malloc(501, 100))?;
    Ok(of_calls(1024, 502, calls, 961, 960))
}

// A small block comes with its slab and is written to, and a large one comes to a root that version 1 does not have, moves and
// goes; the small one goes with its slab.
fn use_of_version_2(alloc: Global) -> Result<Script, AllocError> {
    let write = Call::Write {
        root: 5,
        index: 1,
        value: u64::MAX,
    };
    let step = Call::Move {
        from: 4100,
        to: 4097,
    };
    let calls = vec![in alloc;
        malloc(5, 100),
        (0, write),
        malloc(4100, 20_000),
        (0, step),
        free(4097),
        free(5),
    ]?;
    Ok(over_version_2(of_calls(25, 4101, calls, 0, 0)))
}

// A chunk of the log has room for more entries.
fn roll_of_version_2(alloc: Global) -> Result<Script, AllocError> {
    Ok(over_version_2(log_roll(alloc, 25, 252)?))
}

fn rewrite_of_version_2(alloc: Global) -> Result<Script, AllocError> {
    let calls = rewrites(alloc, 251, 100)?;
    Ok(over_version_2(of_calls(64, 102, calls, 4032, 4032)))
}
