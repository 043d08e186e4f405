// Traces of four threads whose reports are judged. A gate keeps the threads together, so that their calls come in turns.
// `generated` makes the traces.
pub(crate) mod generated;

ghost use Rattle.std.specs.Prelude.{◌<◌, length, IfSome};

use crate::judge::finds_right;
use crate::machine::calls::{Pool, calls_at, pool_of};
use crate::machine::{Counts, Machine, Seats};
use crate::threads::generated::{Made, of_seed, on_one_thread, trace};
use nvheap::{Gate, KeptShelf, MemSink, Status, SureSource, run};
use shared_pool::Pass;
use std::alloc::{AllocError, Global};
use std::process::Abort;
use std::sync::Wait;
use std::sync::atomic::{AtomicU64, Ordering};
use std::test::Fail;
use std::thread::Threads;
use std::{str, thread};

/// How many traces there are.
pub(crate) const TRACES: u64 = 20;

/// Holds a thread ahead of a call while another one is two calls behind, for so many turns at most.
#[derive(Drop)]
struct Together {
    answered: [AtomicU64; 4],
    most: u32,
}

impl Together {
    fn new(most: u32) -> Together {
        Together {
            answered: [
                AtomicU64::new(0),
                AtomicU64::new(0),
                AtomicU64::new(0),
                AtomicU64::new(0),
            ],
            most,
        }
    }
}

impl Gate for Together {
    fn before<R: Wait>(&self, _rt: &R, _thread: u32, call: u32) {
        for other in &self.answered {
            for _ in 0..self.most {
                if other.load(Ordering::SeqCst).saturating_add(2) >= u64::from(call) {
                    break;
                }
                thread::yield_now();
            }
        }
    }

    fn after<R: Wait>(&self, _rt: &R, thread: u32, call: u32, _pass: Option<&Pass>) {
        if let Some(own) = self.answered.get(thread as usize) {
            own.store(u64::from(call), Ordering::SeqCst);
        }
    }
}

// What a run over a trace writes, with one word of the program.
fn tells<R: Threads + Wait + Sync>(
    rt: &R,
    alloc: Global,
    word: &str,
    input: &[u8],
    most: u32,
) -> Result<Vec<u8>, Fail> {
    let words = vec![in alloc; String::from_str(alloc, word)?]?;
    let mut source = SureSource::new(input);
    let mut sink = MemSink::new(alloc, &[], usize::MAX);
    let mut shelf = KeptShelf::new(alloc)?;
    let gate = Together::new(most);
    let status = run(rt, alloc, &words, &mut source, &mut sink, &gate, &mut shelf);
    if status != Status::Done {
        return Err(Fail::from("not done"));
    }
    Ok(sink.bytes().to_vec(alloc)?)
}

// The commands that have a trace's threads make its calls, each with whose stacks these go by.
const REPLAY: (&str, Seats) = ("replay", Seats::OfThreads);

const SERVE: (&str, Seats) = ("serve", Seats::OfOwners);

/// The report of a trace by one of these commands, and what the judge says of it.
pub(crate) fn judged<R: Abort + Threads + Wait + Sync>(
    rt: &R,
    alloc: Global,
    command: (&str, Seats),
    trace: &str,
    most: u32,
) -> Result<Counts, Fail> {
    let (word, seats) = command;
    let written = tells(rt, alloc, word, trace.as_bytes(), most)?;
    let report = str::from_utf8(&written)?;
    finds_right(rt, alloc, seats, trace, report)
}

// The traces of four threads, whose calls come in turns. Which order they come in is not said, and so not how often each way does.
fn all_judged<R: Abort + Threads + Wait + Sync>(
    rt: &R,
    alloc: Global,
    command: (&str, Seats),
) -> Result<(), Fail> {
    for seed in 0..TRACES {
        let text = trace(alloc, of_seed(seed))?;
        let _ = judged(rt, alloc, command, &text, 100_000)?;
    }
    Ok(())
}

#[test]
fn reports_of_four_threads(rt: HostRuntime) -> Result<(), Fail> {
    all_judged(&rt, rt.alloc(), REPLAY)
}

#[test]
fn reports_of_four_senders(rt: HostRuntime) -> Result<(), Fail> {
    all_judged(&rt, rt.alloc(), SERVE)
}

// A trace of 131072 bytes at root 0, so many blocks of 64 bytes, and one of 1000 bytes: four granules are left for them.
fn with_old_blocks(alloc: Global, count: u32) -> Result<String, AllocError> {
    let mut text = String::from_str(alloc, "pool 1 16\n0 0 m 0 131072\n")?;
    for root in 1..=count {
        let line = format!(in alloc; "0 0 m {root} 64\n")?;
        text.push_str(&line)?;
    }
    text.push_str("0 0 m 2000 1000\n")?;
    Ok(text)
}

// A slab with 64 live blocks takes another class, and one with 65 does not: then there is no space.
#[test]
fn as_many_old_blocks_as_may_be(rt: HostRuntime) -> Result<(), Fail> {
    for (count, taken, none) in [(1, 1, 0), (64, 1, 0), (65, 0, 1)] {
        let text = with_old_blocks(rt.alloc(), count)?;
        let counts = judged(&rt, rt.alloc(), REPLAY, &text, 0)?;
        assert_eq!(rt; (counts.taken, counts.none), (taken, none), "of {count}");
    }
    Ok(())
}

/// Each way of a malloc that one seat has came often, and each kind of free that follows it.
pub(crate) fn came_often<R: Abort>(rt: &R, counts: Counts) {
    assert!(rt; counts.own > 100 && counts.large > 10, "{counts:?}");
    assert!(rt; counts.taken > 100 && counts.opened > 100, "{counts:?}");
    assert!(rt; counts.none > 100 && counts.left > 100, "{counts:?}");
    assert!(rt; counts.old > 100, "{counts:?}");
}

// The same calls on one thread, which takes from no other seat.
#[test]
fn reports_of_one_thread(rt: HostRuntime) -> Result<(), Fail> {
    let mut counts = Counts::ZERO;
    for seed in 0..TRACES {
        let text = trace(rt.alloc(), of_seed(seed))?;
        let single = on_one_thread(rt.alloc(), &text)?;
        counts = counts.with(judged(&rt, rt.alloc(), REPLAY, &single, 0)?);
    }
    assert!(rt; counts.refilled > 10 && counts.moved > 100, "{counts:?}");
    came_often(&rt, counts);
    Ok(())
}

// Adds what `recover` writes of an arena behind a trace's calls, in the order of its lines, each of the seat of its thread.
fn add_heap(
    alloc: Global,
    trace: &str,
    arena: u64,
    pool: Pool,
    heaps: &mut String,
) -> Result<Counts, AllocError> {
    let mut machine = Machine::new(alloc, pool);
    for asked in calls_at(alloc, trace, arena)?.iter() {
        let _ = machine.answer(alloc, asked.thread, asked.call)?;
    }
    let blocks = machine.heap_lines(alloc)?;
    let count = blocks.len();
    let heading = format!(in alloc; "arena {arena} heap {count}\n")?;
    heaps.push_str(&heading)?;
    for block in blocks.iter() {
        heaps.push_str(block)?;
        heaps.push_str("\n")?;
    }
    Ok(machine.counts)
}

// What `recover` writes of the image that `image` makes of a trace is the heaps of the machine. How often each way came there.
fn recovered<R: Abort + Threads + Wait + Sync>(
    rt: &R,
    alloc: Global,
    trace: &str,
) -> Result<Counts, Fail> {
    let pool = pool_of(trace);
    let mut counts = Counts::ZERO;
    let mut heaps = String::new(alloc);
    for arena in 0..pool.arenas {
        counts = counts.with(add_heap(alloc, trace, arena, pool, &mut heaps)?);
    }
    let image = tells(rt, alloc, "image", trace.as_bytes(), 0)?;
    let written = tells(rt, alloc, "recover", &image, 0)?;
    assert_eq!(rt; str::from_utf8(&written)?, heaps.as_str(), "of {trace}");
    Ok(counts)
}

// The calls of four seats in the order of the lines, as `image` makes them: the heaps behind all calls, and behind half of them.
#[test]
fn heaps_of_four_seats(rt: HostRuntime) -> Result<(), Fail> {
    let mut counts = Counts::ZERO;
    for seed in 0..TRACES {
        let whole = of_seed(seed);
        let turns = whole.turns / 2;
        let half = trace(rt.alloc(), Made { turns, ..whole })?;
        let _ = recovered(&rt, rt.alloc(), &half)?;
        let text = trace(rt.alloc(), whole)?;
        counts = counts.with(recovered(&rt, rt.alloc(), &text)?);
    }
    assert!(rt; counts.refilled > 100 && counts.stolen > 100, "{counts:?}");
    assert!(rt; counts.moved > 100, "{counts:?}");
    came_often(&rt, counts);
    Ok(())
}
