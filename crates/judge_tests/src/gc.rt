// Reports of `gc`, which makes calls without moves on arenas of the GC variant: their machine and its placement are those of the
// other commands.
use crate::machine::{Counts, Seats};
use crate::threads::generated::{on_one_thread, still_of_seed, trace};
use crate::threads::{TRACES, came_often, judged};
use std::test::Fail;

// The command, with whose stacks its calls go by.
const GC: (&str, Seats) = ("gc", Seats::OfThreads);

#[test]
fn reports_of_one_thread(rt: HostRuntime) -> Result<(), Fail> {
    let mut counts = Counts::ZERO;
    for seed in 0..TRACES {
        let text = trace(rt.alloc(), still_of_seed(seed))?;
        let single = on_one_thread(rt.alloc(), &text)?;
        counts = counts.with(judged(&rt, rt.alloc(), GC, &single, 0)?);
    }
    assert!(rt; counts.refilled > 10, "{counts:?}");
    came_often(&rt, counts);
    Ok(())
}

// The calls of four seats in the order of the lines.
#[test]
fn reports_of_four_seats(rt: HostRuntime) -> Result<(), Fail> {
    let mut counts = Counts::ZERO;
    for seed in 0..TRACES {
        let text = trace(rt.alloc(), still_of_seed(seed))?;
        counts = counts.with(judged(&rt, rt.alloc(), GC, &text, 0)?);
    }
    assert!(rt; counts.refilled > 100 && counts.stolen > 100, "{counts:?}");
    came_often(&rt, counts);
    Ok(())
}
