// A log of one chunk on a simulated memory of four granules: three entries that name one start, and one beside. `room` tests how
// room is made in a log that is full.
mod room;

ghost use Rattle.std.specs.Prelude.{◌≡◌};
ghost use Rattle.pmem_lines.specs.Pmem.{IsZeroed};

use crate::values::same;
use book_log::{BookLog, LogEntry, active_chunks};
use durable_steps::write_word;
use pmem_lines::{Pmem, SimPmem};
use pool_layout::{directory_at, fields_at};
use std::alloc::Global;
use std::process::Abort;
use std::test::Fail;

#[test]
fn directories(rt: HostRuntime) {
    let rows: [(u64, &[u32]); 3] = [(0, &[]), (0x0301, &[0, 2]), (0x0010_1101, &[0])];
    for (directory, chunks) in rows {
        assert_eq!(rt;
            active_chunks(directory).as_slice(),
            chunks,
            "of {directory}"
        );
    }
}

#[test]
fn last_entry_counts(rt: HostRuntime) -> Result<(), Fail> {
    let mut device = SimPmem::zeroed(rt.alloc(), 1024, 15)?;
    append_on(&rt, rt.alloc(), &mut device)
}

// On a memory of zeros.
fn append_on<R: Abort>(rt: &R, alloc: Global, device: &mut SimPmem) -> Result<(), Fail>
    requires { IsZeroed device.old 1024 15 }
{
    let mut log = BookLog::new(alloc, 16)?;
    append_to_one_start(rt, &mut log, device);
    Ok(())
}

fn append_to_one_start<R: Abort>(rt: &R, log: &mut BookLog, device: &mut SimPmem)
    requires zeroed { IsZeroed device.old 1024 15 }
    requires granules { log.old.granules ≡ 16 }
{
    write_word(device, fields_at(), 1);
    write_word(device, directory_at(), 1);
    log.load(device);
    same(rt, &log.next_live(0), &None);
    let large = LogEntry::Large {
        start: 6,
        granules: 3,
    };
    assert!(rt; log.has_room());
    log.append(device, large);
    same(rt, &log.next_live(0), &Some(large));
    let slab = LogEntry::Slab { start: 6 };
    assert!(rt; log.has_room());
    log.append(device, slab);
    same(rt, &log.next_live(6), &Some(slab));
    assert!(rt; log.has_room());
    log.append(device, LogEntry::Tomb { start: 6 });
    same(rt, &log.next_live(0), &None);
    let words = [device.load(49216), device.load(49280), device.load(49344)];
    same(rt, &words, &[0x0300_0601, 0x0602, 0x0603]);
}

#[test]
fn log_of_the_largest_arena(rt: HostRuntime) -> Result<(), Fail> {
    let log = BookLog::new(rt.alloc(), 4096)?;
    same(
        &rt,
        &(log.granules(), log.has_room(), log.next_live(0)),
        &(4096, false, None),
    );
    Ok(())
}
