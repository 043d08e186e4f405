// What lines of text say.

use heap_model::Call;

/// The pool of a trace: its version, 1 to 16 arenas, and the granules of each.
#[derive(Clone, Copy, Debug, PartialEq, Eq)]
pub struct PoolSize {
    pub version: u32,
    pub arenas: u32,
    pub granules: u32,
}

/// One call of a trace: the thread that makes it, from 0 to 63, the arena, and what is asked.
#[derive(Clone, Copy, Debug, PartialEq, Eq)]
pub struct TraceCall {
    pub thread: u32,
    pub arena: u32,
    pub call: Call,
}

/// On which side of the call under way the heap stands that a crash left.
#[derive(Clone, Copy, Debug, PartialEq, Eq)]
pub enum CrashSide {
    /// The call changes no heap.
    Same,
    Before,
    After,
}

/// Why an input is refused.
#[derive(Clone, Copy, Debug, PartialEq, Eq)]
pub enum Refusal {
    /// This line, counted from 1, is the first outside the grammar.
    BadLine { line: u64 },
    /// The trace has fewer arenas.
    NoArena { arena: u64, arenas: u64 },
    /// The calls have fewer events.
    NoEvent { event: u64, events: u64 },
}
