// Events as rows of tests have them.
use crate::values::same;
use pmem_lines::{Event, Pmem, SimPmem};
use std::alloc::{AllocError, Global};
use std::process::Abort;

pub(crate) fn store(at: u32, value: u64) -> Event {
    Event::Store { at, value }
}

pub(crate) fn flush(line: u32) -> Event {
    Event::Flush { line }
}

/// Words that are stored and flushed in turn, each with its address and its line, and a fence behind them.
pub(crate) type Fenced = &'static [(u32, u64, u32)];

/// The events of these, one behind the other.
pub(crate) fn events_of(alloc: Global, parts: &[Fenced]) -> Result<Vec<Event>, AllocError> {
    let mut events = Vec::new(alloc);
    for part in parts {
        for (at, value, line) in part.iter() {
            events.push(store(*at, *value))?;
            events.push(flush(*line))?;
        }
        events.push(Event::Fence)?;
    }
    Ok(events)
}

/// A device has exactly these events.
pub(crate) fn has_exactly<R: Abort>(rt: &R, device: &SimPmem, events: &[Event]) {
    same(rt, &(device.event_count() as usize), &events.len());
    for i in 0..device.event_count() {
        assert_eq!(rt;
            events.get(i as usize).copied(),
            Some(device.event(i)),
            "event {i}"
        );
    }
}

/// A device has these events at these places, counted from 0.
pub(crate) fn has_events<R: Abort>(rt: &R, device: &SimPmem, events: &[(u32, Event)]) {
    for (i, event) in events {
        assert!(rt; *i < device.event_count(), "event {i}");
        assert_eq!(rt; device.event(*i), *event, "event {i}");
    }
}
