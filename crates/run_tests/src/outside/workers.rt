// Two threads of a trace that wait for each other, with workers and with a server.
ghost use Rattle.std.specs.Prelude.{◌<◌, length, IfSome};

use crate::runs::ends_with;
use crate::values::same;
use nvheap::{Gate, KeptShelf, Status};
use shared_pool::Pass;
use std::alloc::Global;
use std::process::Abort;
use std::sync::Wait;
use std::sync::atomic::{AtomicU64, Ordering};
use std::test::Fail;
use std::thread::Threads;
use std::{str, thread};

/// Holds each of two threads ahead of its second call until the other one's first was answered, and notes where somebody
/// waited in vain, or a pass is not that of the thread or has not seen its calls. Who sends calls has no pass.
#[derive(Drop)]
struct Held {
    answered: [AtomicU64; 2],
    gave_up: AtomicU64,
    odd: AtomicU64,
    sends: bool,
}

impl Held {
    fn new(sends: bool) -> Held {
        Held {
            answered: [AtomicU64::new(0), AtomicU64::new(0)],
            gave_up: AtomicU64::new(0),
            odd: AtomicU64::new(0),
            sends,
        }
    }
}

impl Gate for Held {
    fn before<R: Wait>(&self, _rt: &R, thread: u32, call: u32) {
        if call != 2 || thread > 1 {
            return;
        }
        for _ in 0..100_000_000u32 {
            if self.answered[1 - thread as usize].load(Ordering::SeqCst) > 0 {
                return;
            }
            thread::yield_now();
        }
        self.gave_up.store(1, Ordering::SeqCst);
    }

    fn after<R: Wait>(&self, _rt: &R, thread: u32, call: u32, pass: Option<&Pass>) {
        match pass {
            Some(pass) if !self.sends && pass.number() == thread && pass.seen(0) >= call as u64 =>
                {}
            None if self.sends => {}
            _ => self.odd.store(1, Ordering::SeqCst),
        }
        if call == 1 && thread < 2 {
            self.answered[thread as usize].store(1, Ordering::SeqCst);
        }
    }
}

// Each thread has two calls on one arena. Root 5 and root 6 keep their blocks, and root 7 has none at the end.
const TWO_THREADS: &str = "pool 1 16
0 0 m 5 100
0 0 m 6 64
1 0 m 7 100
1 0 f 7
";

// How a run over this trace ends, with one word of the program.
fn at_the_same_time<R: Abort + Threads + Wait + Sync>(
    rt: &R,
    alloc: Global,
    word: &str,
    sends: bool,
) -> Result<(), Fail> {
    let gate = Held::new(sends);
    let mut shelf = KeptShelf::new(alloc)?;
    let trace = TWO_THREADS.as_bytes();
    let (status, written) = ends_with(rt, alloc, word, trace, &gate, &mut shelf)?;
    same(rt, &status, &Status::Done);
    same(rt, &gate.gave_up.load(Ordering::SeqCst), &0);
    same(rt, &gate.odd.load(Ordering::SeqCst), &0);
    let report = str::from_utf8(&written)?;
    assert!(rt; report.starts_with("arena 0 calls 4\n"));
    assert!(rt; report.contains("\nheap 2\n5 "));
    Ok(())
}

#[test]
fn two_threads_at_the_same_time(rt: HostRuntime) -> Result<(), Fail> {
    at_the_same_time(&rt, rt.alloc(), "replay", false)?;
    at_the_same_time(&rt, rt.alloc(), "serve", true)
}
