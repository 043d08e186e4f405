// A small block that comes to a root and goes from it, in an arena of 16 granules: block 9 of a slab of class 6 at
// granule 4, root 5, write-ahead line 3. `entries` tests the write-ahead entries under which it does.
mod entries;

ghost use Rattle.std.specs.Prelude.{◌≡◌};
ghost use Rattle.pmem_lines.specs.Pmem.{IsZeroed};

use crate::steps::events::{Fenced, events_of, has_exactly};
use crate::values::same;
use attach_steps::{SmallBlock, attach, detach};
use book_log::{BookLog, LogEntry};
use durable_steps::write_word;
use pmem_lines::{Pmem, SimPmem};
use pool_layout::{directory_at, fields_at, header_text, text_at};
use slab_header::make_slab;
use std::alloc::Global;
use std::process::Abort;
use std::test::Fail;

// Blocks of class 6 have 112 bytes, and are behind the 2048 bytes of the slab's header. Bit 1 of the first word of line 2
// of that header is that of block 9.
const BLOCK: SmallBlock = SmallBlock {
    start: 4,
    number: 9,
    at: 65536 + 2048 + 9 * 112,
};

const ENTRY: u64 = 0x0001_0bf0_0005_0001;

// The entry is opened, the bit and the root's word are set, and the entry is closed; then it is opened again, the root's word
// is cleared and then the bit, and it is closed.
const PARTS: [Fenced; 6] = [
    &[(704, ENTRY, 11)],
    &[(65664, 2, 1026), (16424, 68592, 256)],
    &[(704, 0, 11)],
    &[(704, ENTRY, 11)],
    &[(16424, 0, 256), (65664, 0, 1026)],
    &[(704, 0, 11)],
];

#[test]
fn comes_and_goes(rt: HostRuntime) -> Result<(), Fail> {
    let mut device = SimPmem::zeroed(rt.alloc(), 4096, 87)?;
    come_and_go_on(&rt, rt.alloc(), &mut device)
}

// On a memory of zeros: what is read, and the events.
fn come_and_go_on<R: Abort>(rt: &R, alloc: Global, device: &mut SimPmem) -> Result<(), Fail>
    requires { IsZeroed device.old 4096 87 }
{
    come_and_go_by_a_log(rt, alloc, device)?;
    has_events_of_parts(rt, alloc, device)
}

fn come_and_go_by_a_log<R: Abort>(rt: &R, alloc: Global, device: &mut SimPmem) -> Result<(), Fail>
    requires { IsZeroed device.old 4096 87 }
{
    let mut log = BookLog::new(alloc, 16)?;
    come_and_go(rt, &mut log, device);
    Ok(())
}

fn come_and_go<R: Abort>(rt: &R, log: &mut BookLog, device: &mut SimPmem)
    requires zeroed { IsZeroed device.old 4096 87 }
    requires granules { log.old.granules ≡ 16 }
{
    write_word(device, fields_at(), 0x0001_0010_0000_0001);
    write_word(device, directory_at(), 1);
    write_word(device, text_at(), header_text());
    log.load(device);
    make_slab(device, 65536, 6);
    assert!(rt; log.has_room());
    log.append(device, LogEntry::Slab { start: 4 });
    device.begin();
    attach(device, 3, 5, BLOCK);
    same(
        rt,
        &(device.load(16424), device.load(65664), device.load(704)),
        &(68592, 2, 0),
    );
    detach(device, 3, 5, BLOCK);
    same(
        rt,
        &(device.load(16424), device.load(65664), device.load(704)),
        &(0, 0, 0),
    );
}

fn has_events_of_parts<R: Abort>(rt: &R, alloc: Global, device: &SimPmem) -> Result<(), Fail> {
    let events = events_of(alloc, &PARTS)?;
    has_exactly(rt, device, &events);
    Ok(())
}
