// The events of calls as text, so that another program can do them on other memory.
//
// Each event is a line: `s AT VALUE` stores a word at a byte, `f LINE` flushes a line of 64 bytes, and `n` is a fence. The
// line `c` stands behind the events of each call; one that is refused has no event.
use crate::Fault;
use arena_core::Arena;
use arena_journal::answer;
use pmem_lines::{Event, OutOfMemory, SimPmem};
use std::alloc::Global;
use std::io::Write;
use trace_text::{TraceCall, write_bytes, write_word};

// How many bytes are written at once, at least.
const PIECE: usize = 65_536;

// Makes the calls on an arena in their order, and writes the events of each.
pub(crate) fn write_calls<W: Write>(
    alloc: Global,
    arena: &mut Arena<SimPmem>,
    calls: &[TraceCall],
    sink: &mut W,
) -> Result<(), Fault> {
    let mut text = Vec::new(alloc);
    for call in calls {
        let _ = answer(arena, call.thread % 64, call.call);
        write_events(&mut text, arena.pmem())?;
        if text.len() >= PIECE {
            sink.write_all(&text)?;
            text.clear();
        }
    }
    sink.write_all(&text)?;
    Ok(sink.flush()?)
}

// Writes the events of the call that was made last.
fn write_events(text: &mut Vec<u8>, device: &SimPmem) -> Result<(), OutOfMemory> {
    for i in 0..device.event_count() {
        write_event(text, device.event(i))?;
    }
    write_bytes(text, b"c\n")
}

fn write_event(text: &mut Vec<u8>, event: Event) -> Result<(), OutOfMemory> {
    match event {
        Event::Store { at, value } => {
            write_word(text, b"s ", u64::from(at))?;
            write_word(text, b" ", value)?;
        }
        Event::Flush { line } => write_word(text, b"f ", u64::from(line))?,
        Event::Fence => write_bytes(text, b"n")?,
    }
    write_bytes(text, b"\n")
}
