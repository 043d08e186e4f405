// The steps on a simulated memory of two lines: a word, a pair over both lines, and a row from the last word of the
// first line into the second. `events` has how events are written and compared, here and in the other modules.
pub(crate) mod events;

ghost use Rattle.pmem_lines.specs.Pmem.{IsZeroed};

use crate::steps::events::{flush, has_exactly, store};
use crate::values::same;
use durable_steps::{write_pair, write_row, write_word};
use pmem_lines::{Event, Pmem, SimPmem};
use std::process::Abort;
use std::test::Fail;

#[test]
fn exact_events(rt: HostRuntime) -> Result<(), Fail> {
    let mut device = SimPmem::zeroed(rt.alloc(), 2, 14)?;
    writes_with_these_events(&rt, &mut device);
    Ok(())
}

fn writes_with_these_events<R: Abort>(rt: &R, device: &mut SimPmem)
    requires { IsZeroed device.old 2 14 }
{
    write_word(device, 0, 7);
    write_pair(device, 8, 1, 64, 2);
    write_row(device, 56, &[3, 4, 5]);
    let events = [
        store(0, 7),
        flush(0),
        Event::Fence,
        store(8, 1),
        flush(0),
        store(64, 2),
        flush(1),
        Event::Fence,
        store(56, 3),
        store(64, 4),
        store(72, 5),
        flush(0),
        flush(1),
        Event::Fence,
    ];
    has_exactly(rt, device, &events);
    same(
        rt,
        &(device.left(), device.load(0), device.load(8)),
        &(0, 7, 1),
    );
    same(rt, &device.words(56, 3), &[3, 4, 5].as_slice());
}
