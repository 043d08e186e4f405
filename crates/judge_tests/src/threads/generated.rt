// Traces that are made of drawn numbers.
use rand_core::SeedableRng;
use rand_core::utils::NextWord;
use rand_xoshiro::SplitMix64;
use std::alloc::{AllocError, Global};

/// How many threads a trace has.
pub(crate) const THREADS: u64 = 4;

/// Arenas of a version whose heap has 12 granules.
#[derive(Clone, Copy)]
pub(crate) struct Arenas {
    // The word of a pool's line, and the granules.
    word: &'static str,
    granules: u64,
    // The first root that they do not have.
    roots: u64,
}

const FIRST_VERSION: Arenas = Arenas {
    word: "pool",
    granules: 16,
    roots: 4096,
};

const SECOND_VERSION: Arenas = Arenas {
    word: "pool2",
    granules: 25,
    roots: 16384,
};

/// What a trace is made of.
#[derive(Clone, Copy)]
pub(crate) struct Made {
    /// The seed of its numbers.
    pub(crate) seed: u64,
    /// What its arenas are.
    pub(crate) each: Arenas,
    /// How many there are.
    pub(crate) arenas: u64,
    /// How many calls each of its threads makes.
    pub(crate) turns: u64,
    /// How many roots its calls take at an arena.
    pub(crate) roots: u64,
    /// Some of its calls move a block.
    pub(crate) moves: bool,
}

/// Traces of one to four arenas of either version, with few roots or many.
pub(crate) fn of_seed(seed: u64) -> Made {
    let arenas = 1 + seed % 4;
    let each = if seed / 4 % 2 == 0 {
        FIRST_VERSION
    } else {
        SECOND_VERSION
    };
    Made {
        seed,
        each,
        arenas,
        turns: 60 + 40 * arenas,
        roots: 8 + 4 * (seed / 4 % 5),
        moves: true,
    }
}

/// The same over arenas of version 1, without moves.
pub(crate) fn still_of_seed(seed: u64) -> Made {
    Made {
        each: FIRST_VERSION,
        moves: false,
        ..of_seed(seed)
    }
}

// The sizes of requests. Of 16384 bytes a slab has three blocks, so that seats take from each other; of 12288 it has five, of
// 6144 ten, and of the others many, so that slabs with few live blocks take another class.
const SIZES: [u64; 16] = [
    16384, 12288, 6000, 1000, 64, 16384, 6000, 3000, 12288, 100, 6000, 1, 16385, 40000, 0, 196609,
];

// One of the sizes. At each time two or three of them come more often than the others.
fn size(time: u64, drawn: u64) -> u64 {
    let at = if drawn % 8 < 6 {
        time.saturating_add(drawn / 8 % 3) % 14
    } else {
        drawn / 8 % 16
    };
    match SIZES.get(at as usize) {
        Some(size) => *size,
        None => 0,
    }
}

// One of the roots, or rarely one that is none.
fn root(made: Made, drawn: u64) -> u64 {
    match drawn % 64 {
        0 => made.each.roots,
        _ => drawn / 64 % made.roots.max(1),
    }
}

// The words of a call, by two drawn numbers. Mallocs and frees come in turns, more of the one and then of the other.
fn call(alloc: Global, made: Made, turn: u64, one: u64, other: u64) -> Result<String, AllocError> {
    let at = root(made, one / 16);
    let second = root(made, other);
    let index = other % 5;
    let value = one ^ other;
    let bytes = size(turn / 24, other);
    match one % 16 {
        0 => format!(in alloc; "w {at} {index} {value}"),
        1 => format!(in alloc; "r {at} {index}"),
        2 if made.moves => format!(in alloc; "v {at} {second}"),
        kind if is_malloc(kind, turn) => format!(in alloc; "m {at} {bytes}"),
        _ => format!(in alloc; "f {at}"),
    }
}

// A call of a kind is a malloc in its turn, and not a free.
fn is_malloc(kind: u64, turn: u64) -> bool {
    match kind {
        3..=5 => false,
        6..=8 => true,
        _ => turn / 12 % 2 == 0,
    }
}

/// The trace: its threads ask in turn, each as many calls.
pub(crate) fn trace(alloc: Global, made: Made) -> Result<String, AllocError> {
    let arenas = made.arenas;
    let word = made.each.word;
    let granules = made.each.granules;
    let mut text = format!(in alloc; "{word} {arenas} {granules}\n")?;
    let mut picks = SplitMix64::seed_from_u64(made.seed);
    for turn in 0..made.turns {
        for thread in 0..THREADS {
            add_call(&mut text, alloc, made, turn, thread, &mut picks)?;
        }
    }
    Ok(text)
}

// Adds the line of a call that a thread makes in a turn.
fn add_call(
    text: &mut String,
    alloc: Global,
    made: Made,
    turn: u64,
    thread: u64,
    picks: &mut SplitMix64,
) -> Result<(), AllocError> {
    let arena = picks.next_word() % made.arenas.max(1);
    let words = call(alloc, made, turn, picks.next_word(), picks.next_word())?;
    let line = format!(in alloc; "{thread} {arena} {words}\n")?;
    text.push_str(&line)
}

/// The same calls in the same order, all of thread 0.
pub(crate) fn on_one_thread(alloc: Global, trace: &str) -> Result<String, AllocError> {
    let mut text = String::new(alloc);
    for line in trace.lines() {
        add_by_0(&mut text, line)?;
    }
    Ok(text)
}

// Adds a line, where it is one of a call as one of thread 0.
fn add_by_0(text: &mut String, line: &str) -> Result<(), AllocError> {
    match line.split_once(' ') {
        Some((thread, rest)) if !thread.starts_with("pool") => {
            text.push_str("0 ")?;
            text.push_str(rest)?;
        }
        _ => text.push_str(line)?,
    }
    text.push_str("\n")
}
