// What a crash at an event of a trace's calls leaves.
ghost use Rattle.std.specs.Prelude.{◌<◌, ◌^◌, length};

use crate::traces::{FIRST_BLOCK, MORPH, trace_of};
use gc_crashes::gc_crash;
use std::alloc::Global;
use std::test::Fail;
use trace_crashes::CrashFault;
use trace_text::CrashSide;

// What a crash left: in a call, on a side of it; or there are so few events.
#[derive(Clone, Copy, Debug, PartialEq, Eq)]
enum Left {
    Within { call: u64, side: CrashSide },
    NoEvent { events: u64 },
}

// What a crash with seed 0 leaves behind so many events of the trace's only arena.
fn left_at(alloc: Global, text: &[u8], event: u64) -> Result<Left, Fail>
    requires { length text.now < 2 ^ 32 }
{
    let trace = trace_of(alloc, text)?;
    if trace.arenas == 0 {
        return Err(Fail::from("no arena"));
    }
    match gc_crash(alloc, &trace, 0, event, 0) {
        Ok(crashed) => Ok(Left::Within {
            call: crashed.call,
            side: crashed.side,
        }),
        Err(CrashFault::NoEvent { events }) => Ok(Left::NoEvent { events }),
        Err(CrashFault::Memory(error)) => Err(Fail::from(error)),
    }
}

const IN_FIRST_BLOCK: [(u64, Left); 4] = [
    (
        6,
        Left::Within {
            call: 1,
            side: CrashSide::Before,
        },
    ),
    (
        7,
        Left::Within {
            call: 1,
            side: CrashSide::After,
        },
    ),
    (
        9,
        Left::Within {
            call: 1,
            side: CrashSide::After,
        },
    ),
    (10, Left::NoEvent { events: 9 }),
];

#[test]
fn within_a_first_block(rt: HostRuntime) -> Result<(), Fail> {
    for &(event, left) in &IN_FIRST_BLOCK {
        assert_eq!(rt; left_at(rt.alloc(), FIRST_BLOCK, event)?, left);
    }
    Ok(())
}

const IN_MORPH: [(u64, Left); 3] = [
    (
        18,
        Left::Within {
            call: 3,
            side: CrashSide::Before,
        },
    ),
    (
        21,
        Left::Within {
            call: 3,
            side: CrashSide::After,
        },
    ),
    (22, Left::NoEvent { events: 21 }),
];

#[test]
fn within_a_slab_that_takes_another_class(rt: HostRuntime) -> Result<(), Fail> {
    for &(event, left) in &IN_MORPH {
        assert_eq!(rt; left_at(rt.alloc(), MORPH, event)?, left);
    }
    Ok(())
}
