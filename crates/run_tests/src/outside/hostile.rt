// Hostile use: an image that was cut or patched, and ends that give and take one byte at a time and then fail. `pools` and
// `defects` of `images` have more images that are refused, `faults` and `adapters` more ends that fail.
use crate::images::{TOO_SHORT, both_tell};
use crate::outside::{REPORT, TRACE};
use crate::runs::{ends, ends_and_writes};
use crate::values::same;
use nvheap::{Adapter, MemSink, Status, SureSource};
use std::alloc::Global;
use std::io;
use std::io::Read;
use std::process::Abort;
use std::sync::Wait;
use std::test::Fail;
use std::thread::Threads;
use worked_runs::put;

// The first so many bytes of the image that a call leaves.
#[test]
fn a_cut_image(rt: HostRuntime) -> Result<(), Fail> {
    let (_, image) = ends_and_writes(&rt, rt.alloc(), "image", TRACE.as_bytes())?;
    same(&rt, &image.len(), &262_144);
    for (size, line) in TOO_SHORT {
        let front = image.get(..size).unwrap_or(&[]);
        both_tell(&rt, rt.alloc(), "a front", front, 2, line, line)?;
    }
    Ok(())
}

// The image of two arenas without a block: its first half alone, arena 0 twice, and no chunk in arena 1's directory.
#[test]
fn a_patched_image(rt: HostRuntime) -> Result<(), Fail> {
    let (_, image) = ends_and_writes(&rt, rt.alloc(), "image", b"pool 2 16\n")?;
    same(&rt, &image.len(), &524_288);
    let first = image.get(..262_144).unwrap_or(&[]);
    let line = "bad length 262144 524288\n";
    both_tell(&rt, rt.alloc(), "one of two", first, 2, line, line)?;
    let line = "arena 1 bad header 1 563018672898049\n";
    is_refused_with(&rt, rt.alloc(), &image, 262_144, first, line)?;
    let line = "arena 1 bad directory 0\n";
    is_refused_with(&rt, rt.alloc(), &image, 262_160, &[0], line)
}

// An image with other bytes in one place is refused with this line.
fn is_refused_with<R: Abort + Threads + Wait + Sync>(
    rt: &R,
    alloc: Global,
    image: &[u8],
    at: usize,
    patch: &[u8],
    line: &str,
) -> Result<(), Fail> {
    let mut bytes = image.to_vec(alloc)?;
    put(&mut bytes, at, patch);
    both_tell(rt, alloc, line, &bytes, 2, line, line)
}

// Gives its bytes one at a time. The read with this number, counted from 1, fails.
#[derive(Drop)]
struct Dripping<'a> {
    bytes: &'a [u8],
    fails: usize,
    reads: usize,
}

impl Read for Dripping<'_> {
    fn read(&mut self, into: &mut [u8]) -> io::Result<usize> {
        self.reads = self.reads.saturating_add(1);
        if self.reads == self.fails {
            return Err(io::Error::from(io::ErrorKind::Other));
        }
        let most = into.len().min(1);
        self.bytes.read(&mut into[..most])
    }
}

// Each read of the trace fails in turn, the one that finds its end too; then none does.
#[test]
fn each_read_fails(rt: HostRuntime) -> Result<(), Fail> {
    let reads = TRACE.len() + 1;
    for fails in 1..reads + 1 {
        let (status, written) = read_failing(&rt, rt.alloc(), fails)?;
        assert_eq!(rt; status, Status::ReadFault, "read {fails}");
        assert_eq!(rt; written.len(), 0, "read {fails}");
    }
    let (status, written) = read_failing(&rt, rt.alloc(), reads + 1)?;
    same(&rt, &status, &Status::Done);
    same(&rt, &written.as_slice(), &REPORT.as_bytes());
    Ok(())
}

// How a run over the trace ends of which one read fails, and what it writes.
fn read_failing<R: Threads + Wait + Sync>(
    rt: &R,
    alloc: Global,
    fails: usize,
) -> Result<(Status, Vec<u8>), Fail> {
    let mut source = Adapter::new(Dripping {
        bytes: TRACE.as_bytes(),
        fails,
        reads: 0,
    });
    let mut sink = MemSink::new(alloc, &[], usize::MAX);
    let status = ends(rt, alloc, "replay", &mut source, &mut sink)?;
    let written = sink.bytes().to_vec(alloc)?;
    Ok((status, written))
}

// The sink takes a byte at each write. Each write of the report fails in turn, and the bytes before it are taken.
#[test]
fn each_write_fails(rt: HostRuntime) -> Result<(), Fail> {
    for taken in 0..REPORT.len() {
        write_fails(&rt, rt.alloc(), taken)?;
    }
    Ok(())
}

// So many bytes are taken, and the next write fails.
fn write_fails<R: Abort + Threads + Wait + Sync>(
    rt: &R,
    alloc: Global,
    taken: usize,
) -> Result<(), Fail> {
    let mut source = SureSource::new(TRACE.as_bytes());
    let failing = [taken as u64];
    let mut sink = MemSink::new(alloc, &failing, 1);
    let status = ends(rt, alloc, "replay", &mut source, &mut sink)?;
    assert_eq!(rt; status, Status::WriteFault, "behind {taken}");
    let front = REPORT.as_bytes().get(..taken).unwrap_or(&[]);
    assert_eq!(rt; sink.bytes(), front, "behind {taken}");
    Ok(())
}
