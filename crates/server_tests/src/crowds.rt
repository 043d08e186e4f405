// Many senders at one arena, whose queue has room for few requests. Some send more than others, and end later.
ghost use Rattle.std.specs.Prelude.{◌≤◌};

use crate::values::same;
use heap_model::{Call, Entry};
use pmem_lines::SimPmem;
use serve_runs::make_calls;
use shared_pool::{ClosedArena, OpenGate};
use single_server::empty_arena;
use std::alloc::{AllocError, Global};
use std::process::Abort;
use std::sync::Wait;
use std::test::Fail;
use std::thread::Threads;
use trace_text::{TraceCall, read_trace};

const SENDERS: u32 = 8;

// The calls of so many turns. In each turn a sender takes a root of its own or frees it, and those with higher numbers end earlier.
fn crowd(alloc: Global, turns: u32) -> Result<String, AllocError> {
    let mut text = String::from_str(alloc, "pool 1 16\n")?;
    for turn in 0..turns {
        for sender in 0..SENDERS {
            if turn < turns / (1 + sender) {
                add_call(&mut text, alloc, turn, sender)?;
            }
        }
    }
    Ok(text)
}

fn add_call(text: &mut String, alloc: Global, turn: u32, sender: u32) -> Result<(), AllocError> {
    let line = match turn % 2 {
        0 => format!(in alloc; "{sender} 0 m {sender} 100\n")?,
        _ => format!(in alloc; "{sender} 0 f {sender}\n")?,
    };
    text.push_str(&line)
}

// The calls of one sender, as the trace has them.
fn sent(alloc: Global, calls: &[TraceCall], sender: u32) -> Result<Vec<Call>, AllocError> {
    let mut own = Vec::new(alloc);
    for call in calls {
        if call.thread == sender {
            own.push(call.call)?;
        }
    }
    Ok(own)
}

// Those that a journal has of it.
fn served(alloc: Global, journal: &[Entry], sender: u32) -> Result<Vec<Call>, AllocError> {
    let mut own = Vec::new(alloc);
    for entry in journal {
        if entry.seat == sender {
            own.push(entry.call)?;
        }
    }
    Ok(own)
}

// The journal of the arena has the calls of each sender, in its order, and no others.
fn all_are_served<R: Abort + Threads + Wait + Sync>(
    rt: &R,
    alloc: Global,
    text: &str,
    room: u32,
) -> Result<(), Fail>
    requires { (1 ≤ room) × (room ≤ 65536) }
{
    let trace = read_trace(alloc, text.as_bytes())?;
    if trace.arenas != 1 || text.len() > 1_000_000 {
        return Err(Fail::from("another trace"));
    }
    let arenas = vec![in alloc; empty_arena(alloc)?]?;
    let closed = make_calls(rt, alloc, &trace, arenas, room, &OpenGate)?;
    let tested = have_all(rt, alloc, &closed, &trace.calls);
    drop(closed);
    tested
}

// Each journal has as many entries as there are calls, and those of each sender in its order.
fn have_all<R: Abort>(
    rt: &R,
    alloc: Global,
    closed: &[ClosedArena<SimPmem>],
    calls: &[TraceCall],
) -> Result<(), Fail> {
    for arena in closed {
        same(rt, &arena.journal.len(), &calls.len());
        for sender in 0..SENDERS {
            let own = served(alloc, &arena.journal, sender)?;
            assert_eq!(rt; own, sent(alloc, calls, sender)?, "sender {sender}");
        }
    }
    Ok(())
}

#[test]
fn eight_senders_at_a_narrow_queue(rt: HostRuntime) -> Result<(), Fail> {
    let text = crowd(rt.alloc(), 40)?;
    for room in [1, 2, 1024] {
        all_are_served(&rt, rt.alloc(), &text, room)?;
    }
    Ok(())
}
