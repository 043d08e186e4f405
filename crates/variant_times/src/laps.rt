// Times, and the shortest of them.

use std::time::{Clock, Instant};

/// The shortest times on arenas of either variant, in nanoseconds. `None` until there is one.
#[derive(Clone, Copy)]
pub(crate) struct Best {
    pub(crate) log: Option<u64>,
    pub(crate) gc: Option<u64>,
}

impl Best {
    /// No time yet.
    pub(crate) fn new() -> Best {
        Best {
            log: None,
            gc: None,
        }
    }

    /// The shorter ones of these and others.
    pub(crate) fn or(self, log: Option<u64>, gc: Option<u64>) -> Best {
        Best {
            log: shorter(self.log, log),
            gc: shorter(self.gc, gc),
        }
    }
}

// The shorter one of the times that there are.
fn shorter(best: Option<u64>, next: Option<u64>) -> Option<u64> {
    match (best, next) {
        (Some(best), Some(next)) => Some(best.min(next)),
        (Some(time), None) | (None, Some(time)) => Some(time),
        (None, None) => None,
    }
}

/// What the clock says, if it says anything.
pub(crate) fn clock<C: Clock>(rt: &C) -> Option<Instant> {
    Instant::now(rt).ok()
}

/// How long it took from one reading of the clock to another, in nanoseconds.
pub(crate) fn took(begun: Option<Instant>, ended: Option<Instant>) -> Option<u64> {
    let (Some(begun), Some(ended)) = (begun, ended) else {
        return None;
    };
    u64::try_from(ended.saturating_duration_since(begun).as_nanos()).ok()
}
