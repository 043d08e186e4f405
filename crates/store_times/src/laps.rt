// Times of calls, and the shortest of them.

use std::time::{Clock, Instant};

/// The shortest times of calls of a dictionary, and of those of an arena, in nanoseconds a call. `None` until there is one.
#[derive(Clone, Copy)]
pub(crate) struct Best {
    pub(crate) dict: Option<u64>,
    pub(crate) arena: Option<u64>,
}

impl Best {
    /// No time yet.
    pub(crate) fn new() -> Best {
        Best {
            dict: None,
            arena: None,
        }
    }

    /// The shorter ones of these and others.
    pub(crate) fn or(self, dict: Option<u64>, arena: Option<u64>) -> Best {
        Best {
            dict: shorter(self.dict, dict),
            arena: shorter(self.arena, arena),
        }
    }
}

// The shorter one of the times that there are.
fn shorter(best: Option<u64>, next: Option<u64>) -> Option<u64> {
    match (best, next) {
        (Some(best), Some(next)) => Some(best.min(next)),
        (Some(time), None) | (None, Some(time)) => Some(time),
        (None, None) => None,
    }
}

/// What the clock says, if it says anything.
pub(crate) fn clock<C: Clock>(rt: &C) -> Option<Instant> {
    Instant::now(rt).ok()
}

/// How long each of `calls` calls took between two readings of the clock, in nanoseconds.
pub(crate) fn each(begun: Option<Instant>, ended: Option<Instant>, calls: usize) -> Option<u64> {
    let (Some(begun), Some(ended)) = (begun, ended) else {
        return None;
    };
    let took = ended.saturating_duration_since(begun).as_nanos();
    u64::try_from(took / (calls as u128).max(1)).ok()
}
