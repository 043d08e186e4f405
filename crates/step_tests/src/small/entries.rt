// Write-ahead entries, as words and on a device.
ghost use Rattle.pmem_lines.specs.Pmem.{IsZeroed};

use crate::values::same;
use attach_wal::{WalEntry, close_entry, entry_of, entry_word, write_entry};
use pmem_lines::{Pmem, SimPmem};
use std::process::Abort;
use std::test::Fail;

const ATTACHED: WalEntry = WalEntry::Place {
    root: 5,
    at: 67584,
    old: false,
    place: 0,
};

const OLD: WalEntry = WalEntry::Place {
    root: 65535,
    at: 67584,
    old: true,
    place: 63,
};

const MOVED: WalEntry = WalEntry::Move { from: 5, to: 9 };

const WORDS: [(u64, Option<WalEntry>); 10] = [
    (0x0001_0800_0005_0001, Some(ATTACHED)),
    (0x0001_0800_ffff_3f03, Some(OLD)),
    (0x0000_0009_0005_0005, Some(MOVED)),
    (0, None),
    (0x0001_0800_0005_0000, None),
    (0x0001_0800_0005_0005, None),
    (0x0001_0800_0005_0101, None),
    (0x0001_0800_0005_4003, None),
    (0x0000_0009_0005_0007, None),
    (0x0000_0009_0005_0105, None),
];

#[test]
fn words_of_entries(rt: HostRuntime) {
    for &(word, entry) in &WORDS {
        assert_eq!(rt; entry_of(word), entry, "at {word}");
    }
    same(&rt, &entry_word(ATTACHED), &0x0001_0800_0005_0001);
    same(&rt, &entry_word(OLD), &0x0001_0800_ffff_3f03);
    same(&rt, &entry_word(MOVED), &38_655_033_349);
}

#[test]
fn opens_and_closes(rt: HostRuntime) -> Result<(), Fail> {
    let mut device = SimPmem::zeroed(rt.alloc(), 4096, 6)?;
    open_and_close(&rt, &mut device);
    Ok(())
}

fn open_and_close<R: Abort>(rt: &R, device: &mut SimPmem)
    requires { IsZeroed device.old 4096 6 }
{
    write_entry(device, 3, ATTACHED);
    same(rt, &device.load(704), &0x0001_0800_0005_0001);
    close_entry(device, 3);
    same(rt, &device.load(704), &0);
    same(rt, &device.event_count(), &6);
}
