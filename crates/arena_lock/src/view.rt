// What the holder of a seat knows.
use crate::opening::Opening;
use heap_model::Entry;
use std::collections::LinkedList;

/// What the holder of a seat has learnt of the journal.
pub struct Past {
    pub opening: Opening,
    /// What was seen: a beginning of the journal.
    pub seen: LinkedList<Entry>,
    /// The shorter of the two lists that were seen at the last join.
    pub told: LinkedList<Entry>,
    /// The numbers that the seat owns.
    pub numbers: LinkedList<u32>,
    /// For each of these numbers the entries of `seen` that bear it.
    pub mine: LinkedList<LinkedList<Entry>>,
    /// The greatest published length that was loaded, and 0 at first.
    pub known: u64,
}

/// Where a seat stands on its way to a turn. Between two calls it is idle.
pub enum Standing {
    Idle,
    /// It looked, with no ticket, while this one was served.
    Looked {
        served: u64,
    },
    /// It has this ticket.
    Waits {
        ticket: u64,
    },
    /// Its ticket is served, and it has the value. `base` is the journal when the turn began, and from the publishing on the
    /// journal that was published.
    InTurn {
        ticket: u64,
        base: LinkedList<Entry>,
    },
}

/// The view of a seat at the lock's table. No value of it is made: it changes at the steps of its seat, and stands in
/// proofs alone.
pub struct SeatView {
    /// False for what a seat leaves that was joined into another.
    pub live: bool,
    pub past: Past,
    /// How many exchanges of this seat lost: they found another number than the one that it had looked at.
    pub lost: u64,
    /// How many times it loaded the published length.
    pub reads: u64,
    /// How many turns are left to it.
    pub turns: u64,
    pub standing: Standing,
}
