// Memory that stops at a store until another thread lets it go on.
ghost use Rattle.std.specs.Prelude.{◌≡◌};

use pmem_lines::{Pmem, SimPmem};
use std::sync::Arc;
use std::sync::atomic::{AtomicU64, Ordering};
use std::thread;

/// How often is looked at most before somebody gives up.
const LOOKS: u32 = 100_000_000;

/// What a memory and the threads of a test tell each other.
#[derive(Drop)]
pub(crate) struct Flags {
    armed: AtomicU64,
    stops: AtomicU64,
    goes_on: AtomicU64,
    gave_up: AtomicU64,
}

impl Flags {
    pub(crate) fn new() -> Flags {
        Flags {
            armed: AtomicU64::new(0),
            stops: AtomicU64::new(0),
            goes_on: AtomicU64::new(0),
            gave_up: AtomicU64::new(0),
        }
    }

    /// The next store stops.
    pub(crate) fn arm(&self) {
        self.armed.store(1, Ordering::SeqCst);
    }

    /// Waits until the store has stopped.
    pub(crate) fn await_stop(&self) {
        self.await_flag(&self.stops);
    }

    /// Lets the store go on.
    pub(crate) fn let_go(&self) {
        self.goes_on.store(1, Ordering::SeqCst);
    }

    /// Nobody waited in vain.
    pub(crate) fn all_met(&self) -> bool {
        self.gave_up.load(Ordering::SeqCst) == 0
    }

    fn await_flag(&self, flag: &AtomicU64) {
        for _ in 0..LOOKS {
            if flag.load(Ordering::SeqCst) > 0 {
                return;
            }
            thread::yield_now();
        }
        self.gave_up.store(1, Ordering::SeqCst);
    }

    fn at_store(&self) {
        if self.armed.swap(0, Ordering::SeqCst) > 0 {
            self.stops.store(1, Ordering::SeqCst);
            self.await_flag(&self.goes_on);
        }
    }
}

/// Simulated memory with such flags.
#[derive(Drop)]
pub(crate) struct Watched {
    memory: SimPmem,
    flags: Arc<Flags>,
}

impl Watched {
    pub(crate) fn new(memory: SimPmem, flags: Arc<Flags>) -> Watched
        ensures { result.memory ≡ memory }
    {
        Watched { memory, flags }
    }
}

impl Pmem for Watched {
    ghost state = { λ w. w.memory };

    fn size_words(&self) -> u32 {
        self.memory.size_words()
    }

    fn load(&self, at: u32) -> u64 {
        self.memory.load(at)
    }

    fn words(&self, at: u32, n: u32) -> &[u64] {
        self.memory.words(at, n)
    }

    fn room(&self) -> u32 {
        self.memory.room()
    }

    fn left(&self) -> u32 {
        self.memory.left()
    }

    fn begin(&mut self) {
        self.memory.begin()
    }

    fn store(&mut self, at: u32, value: u64) {
        self.flags.at_store();
        self.memory.store(at, value)
    }

    fn flush(&mut self, line: u32) {
        self.memory.flush(line)
    }

    fn fence(&mut self) {
        self.memory.fence()
    }
}
