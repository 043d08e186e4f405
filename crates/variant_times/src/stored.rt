// What the calls of a trace do to the memory.

use arena_variants::Variant;
use heap_model::Call;
use pmem_lines::{Event, OutOfMemory, SimPmem};
use std::alloc::Global;
use trace_text::{Trace, TraceCall};

/// How many stores, flushes of lines and fences there were.
#[derive(Clone, Copy)]
pub(crate) struct Stored {
    pub(crate) stores: u64,
    pub(crate) flushes: u64,
    pub(crate) fences: u64,
}

impl Stored {
    // One more event.
    fn and(self, event: Event) -> Stored {
        match event {
            Event::Store { .. } => Stored {
                stores: self.stores.saturating_add(1),
                ..self
            },
            Event::Flush { .. } => Stored {
                flushes: self.flushes.saturating_add(1),
                ..self
            },
            Event::Fence => Stored {
                fences: self.fences.saturating_add(1),
                ..self
            },
        }
    }

    // Those of the call that a device carried out last.
    fn and_last(self, device: &SimPmem) -> Stored {
        let mut stored = self;
        for i in 0..device.event_count() {
            stored = stored.and(device.event(i));
        }
        stored
    }
}

/// What the calls of a trace come to on a new arena.
pub(crate) fn stored_by<V: Variant>(alloc: Global, trace: &Trace) -> Result<Stored, OutOfMemory> {
    let mut arena = V::new_arena(alloc, 1, trace.granules)?;
    Ok(stored_on(&mut arena, &trace.calls))
}

// The same on one that is lent. A Read has no events of its own.
fn stored_on<V: Variant>(arena: &mut V, calls: &[TraceCall]) -> Stored {
    let mut stored = Stored {
        stores: 0,
        flushes: 0,
        fences: 0,
    };
    for call in calls {
        arena.make(call.thread, call.call);
        if !matches!(call.call, Call::Read { .. }) {
            stored = stored.and_last(arena.device());
        }
    }
    stored
}
