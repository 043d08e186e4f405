// The report of the arenas of a trace, and their devices.
ghost use Rattle.std.specs.Prelude.{◌≡◌, ◌<◌, ◌^◌, ◌++◌, length, IfOk, OnOk};
ghost use Rattle.shared_pool.specs.Rows.{each_of};
ghost use Rattle.trace_text.specs.Report.{arena_text};
ghost use Rattle.trace_runs.specs.Told.{closed_text, closed_texts, closed_devices};

use pmem_lines::{OutOfMemory, Pmem};
use shared_pool::ClosedArena;
use std::alloc::Global;
use trace_runs::{Told, blocks_of, put_report};

/// The report of closed arenas, and their devices.
pub(crate) fn tell_all<P: Pmem + Drop>(
    alloc: Global,
    mut closed: Vec<ClosedArena<P>>,
) -> Result<Told<P>, OutOfMemory>
    requires { length closed.items < 2 ^ 32 }
    ensures text { IfOk result (λ done. done.text.items ≡ closed_texts arena_text 0 (each_of closed.items (λ c. (c.journal.items, c.arena)))) }
    ensures devices { IfOk result (λ done. each_of done.devices.items (λ d. P.state d) ≡ closed_devices (each_of closed.items (λ c. (c.journal.items, c.arena)))) }
{
    let mut text = Vec::new(alloc);
    let mut devices = Vec::new(alloc);
    let mut number: u32 = 0;
    while !closed.is_empty() {
        let one = closed.remove(0);
        let device = tell_one(alloc, &mut text, number, one)?;
        devices.push(device)?;
        number += 1;
    }
    Ok(Told { text, devices })
}

// Writes the report of one arena behind what stands in a text, and gives the arena's device.
fn tell_one<P: Pmem + Drop>(
    alloc: Global,
    text: &mut Vec<u8>,
    number: u32,
    closed: ClosedArena<P>,
) -> Result<P, OutOfMemory>
    ensures text { OnOk result (text.new.items ≡ text.old.items ++ closed_text arena_text number (closed.journal.items, closed.arena)) }
    ensures device { IfOk result (λ d. P.state d ≡ closed.arena.device) }
{
    let told = tell(alloc, text, number, &closed);
    let device = closed.arena.into_pmem();
    match told {
        Ok(()) => Ok(device),
        Err(fault) => Err(fault),
    }
}

// Writes the report of one arena behind what stands in a text.
fn tell<P: Pmem>(
    alloc: Global,
    text: &mut Vec<u8>,
    number: u32,
    closed: &ClosedArena<P>,
) -> Result<(), OutOfMemory>
    ensures { OnOk result (text.new.items ≡ text.old.items ++ closed_text arena_text number (closed.now.journal.items, closed.now.arena)) }
{
    let blocks = blocks_of(alloc, &closed.arena)?;
    put_report(text, number, &closed.journal, &blocks)
}
