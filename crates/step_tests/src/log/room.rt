// Logs that are filled entry by entry, chunk by chunk, until room is made for the last time, in both versions.
ghost use Rattle.std.specs.Prelude.{◌≡◌, ◌+◌, ◌*◌, ◌%◌, ◌<◌, ◌≤◌};
ghost use Rattle.pmem_lines.specs.Pmem.{IsZeroed};
ghost use Rattle.pool_layout.specs.Layout.{layout_of, IsLayout};

use book_log::{BookLog, LogEntry};
use durable_steps::write_word;
use log_room::{Rolled, make_room};
use pmem_lines::{OutOfMemory, Pmem, SimPmem};
use pool_layout::{Layout, directory_at, fields_at, layout_of};
use std::alloc::Global;
use std::process::Abort;
use std::test::Fail;

// How room was made for the last entry, by how many events, and the directory.
#[derive(Debug, PartialEq, Drop)]
struct Outcome {
    made: Rolled,
    events: u32,
    directory: u64,
}

// Of a chunk the lowest extent that its entries name, and how many they name in turn.
type Named = (u16, u16);

// What the entries of a chunk name.
fn named_by(chunks: &[Named], chunk: u32) -> Named {
    match chunks.get(chunk as usize) {
        Some(named) => *named,
        None => (0, 1),
    }
}

// The start of the extent that entry i names, where chunks have so many entries: extents have two granules each, and lie behind
// the log of either version.
fn start(chunks: &[Named], entries: u32, i: u32) -> u32
    requires { 0 < entries }
    ensures even { result % 2 ≡ 0 }
    ensures low { 14 ≤ result }
    ensures high { result + 2 ≤ 1024 }
{
    let (lowest, extents) = named_by(chunks, i / entries);
    14 + 2 * ((u32::from(lowest) + i % u32::from(extents.max(1))) % 504)
}

// A log of an arena of a version, with as many granules as it may have, that was given so many entries, each after room was
// made for it. The memory has the words before the heap alone.
fn filled(
    alloc: Global,
    version: u16,
    chunks: &[Named],
    count: u32,
) -> Result<Outcome, OutOfMemory> {
    let row = layout_of(u32::from(version));
    let mut device = SimPmem::zeroed(alloc, 256 * row.first_granule, row.entry_events)?;
    filled_on(alloc, &mut device, row, version, chunks, count)
}

// The same on such a memory of zeros.
fn filled_on(
    alloc: Global,
    device: &mut SimPmem,
    row: Layout,
    version: u16,
    chunks: &[Named],
    count: u32,
) -> Result<Outcome, OutOfMemory>
    requires row { row ≡ layout_of version }
    requires rules { IsLayout row }
    requires zeroed { IsZeroed device.old (256 * row.first_granule) row.entry_events }
{
    let mut log = BookLog::new(alloc, row.most_granules)?;
    Ok(fill(&mut log, device, row, version, chunks, count))
}

// The same with a log that has not read it.
fn fill(
    log: &mut BookLog,
    device: &mut SimPmem,
    row: Layout,
    version: u16,
    chunks: &[Named],
    count: u32,
) -> Outcome
    requires row { row ≡ layout_of version }
    requires rules { IsLayout row }
    requires zeroed { IsZeroed device.old (256 * row.first_granule) row.entry_events }
    requires granules { log.old.granules ≡ row.most_granules }
{
    write_word(device, fields_at(), u64::from(version));
    write_word(device, directory_at(), 1);
    log.load(device);
    let mut made = Rolled::Nothing;
    let mut events = 0;
    for i in 0..count {
        device.begin();
        made = make_room(log, device);
        events = device.event_count();
        let entry = LogEntry::Large {
            start: start(chunks, row.chunk_entries, i),
            granules: 2,
        };
        log.append(device, entry);
    }
    let directory = device.load(directory_at());
    Outcome {
        made,
        events,
        directory,
    }
}

// Each chunk names two extents of its own, or 20, or 63: in eight chunks 16 are live, or 160, or 504.
const TWO_EACH: [Named; 8] = [
    (0, 2),
    (2, 2),
    (4, 2),
    (6, 2),
    (8, 2),
    (10, 2),
    (12, 2),
    (14, 2),
];

const TWENTY_EACH: [Named; 8] = [
    (0, 20),
    (20, 20),
    (40, 20),
    (60, 20),
    (80, 20),
    (100, 20),
    (120, 20),
    (140, 20),
];

const MANY_EACH: [Named; 8] = [
    (0, 63),
    (63, 63),
    (126, 63),
    (189, 63),
    (252, 63),
    (315, 63),
    (378, 63),
    (441, 63),
];

// Chunk 2 names what chunks 0 and 1 do.
const AGAIN: [Named; 3] = [(0, 1), (1, 1), (0, 2)];

// What is given to a log, and what becomes of it.
type Row = (&'static [Named], u32, Rolled, u32, u64);

// The rows of a version.
fn all_end_so<R: Abort>(rt: &R, alloc: Global, version: u16, rows: &[Row]) -> Result<(), Fail> {
    for (chunks, count, made, events, directory) in rows {
        let want = Outcome {
            made: *made,
            events: *events,
            directory: *directory,
        };
        assert_eq!(rt;
            filled(alloc, version, chunks, *count)?,
            want,
            "after {count}"
        );
    }
    Ok(())
}

const WAYS: [Row; 7] = [
    (&TWO_EACH, 120, Rolled::Nothing, 0, 1),
    (
        &TWO_EACH,
        121,
        Rolled::Rolled { dropped: None },
        139,
        0x0201,
    ),
    (&TWO_EACH, 960, Rolled::Nothing, 0, 0x0807_0605_0403_0201),
    (&TWO_EACH, 961, Rolled::Rewritten { chunks: 1 }, 139, 9),
    (
        &TWENTY_EACH,
        961,
        Rolled::Rewritten { chunks: 2 },
        274,
        0x0a09,
    ),
    (
        &MANY_EACH,
        961,
        Rolled::Rewritten { chunks: 5 },
        679,
        0x000d_0c0b_0a09,
    ),
    (
        &AGAIN,
        361,
        Rolled::Rolled { dropped: Some(0) },
        139,
        0x0004_0302,
    ),
];

// A chunk has 120 entries. A roll has 139 events, and a rewrite into m chunks 135 m + 4.
#[test]
fn ways_of_version_1(rt: HostRuntime) -> Result<(), Fail> {
    all_end_so(&rt, rt.alloc(), 1, &WAYS)
}

const WAYS_2: [Row; 7] = [
    (&TWO_EACH, 504, Rolled::Nothing, 0, 1),
    (
        &TWO_EACH,
        505,
        Rolled::Rolled { dropped: None },
        571,
        0x0201,
    ),
    (&TWO_EACH, 4032, Rolled::Nothing, 0, 0x0807_0605_0403_0201),
    (&TWO_EACH, 4033, Rolled::Rewritten { chunks: 1 }, 571, 9),
    (&TWENTY_EACH, 4033, Rolled::Rewritten { chunks: 1 }, 571, 9),
    (
        &MANY_EACH,
        4033,
        Rolled::Rewritten { chunks: 2 },
        1138,
        0x0a09,
    ),
    (
        &AGAIN,
        1513,
        Rolled::Rolled { dropped: Some(0) },
        571,
        0x0004_0302,
    ),
];

// A chunk has 504 entries. A roll has 571 events, and a rewrite into m chunks 567 m + 4: 504 live extents need a second chunk.
#[test]
fn ways_of_version_2(rt: HostRuntime) -> Result<(), Fail> {
    all_end_so(&rt, rt.alloc(), 2, &WAYS_2)
}
