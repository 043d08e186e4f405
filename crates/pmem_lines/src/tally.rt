// The stores of every line, counted in one pass from the last event to the first.
ghost use Rattle.std.specs.Prelude.{◌≡◌, ◌+◌, ◌^◌, ◌<◌, [], length, drop, if◌then◌else◌, IfOk};
ghost use Rattle.pmem_lines.specs.Events.{is_fenced};
ghost use Rattle.pmem_lines.specs.Sim.{events_of};
ghost use Rattle.pmem_lines.specs.Tally.{AreTallies};

use crate::Event;
use crate::sim::Recorded;
use std::alloc::{AllocError, Global};

// One line's stores: how many there are, how many are done, and whether a flush of the line and then a fence follow.
#[derive(Clone, Copy)]
pub(crate) struct Tally {
    pub(crate) all: u32,
    pub(crate) done: u32,
    pub(crate) flushed: bool,
}

// A line's tally with one store before the events that it counts.
fn with_store(later: Tally) -> Tally
    requires all { later.all + 1 < 2 ^ 32 }
    requires done { later.done + 1 < 2 ^ 32 }
    ensures all { result.all ≡ later.all + 1 }
    ensures done { result.done ≡ later.done + (if later.flushed then 1 else 0) }
    ensures flushed { result.flushed ≡ later.flushed }
{
    Tally {
        all: later.all + 1,
        done: later.done + u32::from(later.flushed),
        flushed: later.flushed,
    }
}

// Counts one event, where the later ones are counted. Says whether there is a fence by then.
fn tally_event(tallies: &mut [Tally], recorded: &[Recorded], i: usize, fenced: bool) -> bool
    requires within { i < length recorded.now }
    requires few { length recorded.now < 2 ^ 32 }
    requires fence { fenced ≡ is_fenced (events_of (drop (i + 1) recorded.now)) }
    requires later { AreTallies (events_of (drop (i + 1) recorded.now)) tallies.old }
    ensures fence { result ≡ is_fenced (events_of (drop i recorded.now)) }
    ensures counted { AreTallies (events_of (drop i recorded.now)) tallies.new }
{
    match recorded[i].event {
        Event::Store { at, value: _ } => {
            let line = at as usize / 64;
            if line < tallies.len() {
                tallies[line] = with_store(tallies[line]);
            }
            fenced
        }
        Event::Flush { line } => {
            let line = line as usize;
            if fenced && line < tallies.len() {
                tallies[line] = Tally {
                    flushed: true,
                    ..tallies[line]
                };
            }
            fenced
        }
        Event::Fence => true,
    }
}

// Counts all events.
fn tally_events(tallies: &mut [Tally], recorded: &[Recorded])
    requires few { length recorded.now < 2 ^ 32 }
    requires blank { AreTallies [] tallies.old }
    ensures { AreTallies (events_of recorded.now) tallies.new }
{
    let mut fenced = false;
    let mut i = recorded.len();
    while i > 0 {
        i -= 1;
        fenced = tally_event(tallies, recorded, i, fenced);
    }
}

// The tallies of so many lines.
pub(crate) fn tallies_of(
    alloc: Global,
    recorded: &[Recorded],
    lines: usize,
) -> Result<Vec<Tally>, AllocError>
    requires { length recorded.now < 2 ^ 32 }
    ensures counted { IfOk result (λ tallies. AreTallies (events_of recorded.now) tallies.items) }
    ensures lines { IfOk result (λ tallies. length tallies.items ≡ lines) }
{
    let blank = Tally {
        all: 0,
        done: 0,
        flushed: false,
    };
    let mut tallies = vec![in alloc; blank; lines]?;
    tally_events(&mut tallies, recorded);
    Ok(tallies)
}
