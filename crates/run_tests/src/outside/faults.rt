// Sources and sinks that fail, and sources that give too much.
ghost use Rattle.std.specs.Prelude.{None};

use crate::outside::TRACE;
use crate::runs::ends;
use crate::values::same;
use nvheap::{Failed, MemSink, MemSource, Source, Status, SureSource};
use std::alloc::Global;
use std::process::Abort;
use std::sync::Wait;
use std::test::Fail;
use std::thread::Threads;

// One byte, so many times that no memory is to hold them. It tells nothing of them, and counts those that it gave.
#[derive(Drop)]
struct Repeated {
    byte: u8,
    left: usize,
    given: usize,
}

impl Repeated {
    fn new(byte: u8, left: usize) -> Repeated {
        let given = 0;
        Repeated { byte, left, given }
    }
}

impl Source for Repeated {
    ghost left = { λ _. None };

    ghost faults = { λ _. 0 };

    fn read(&mut self, into: &mut [u8]) -> Result<usize, Failed> {
        let n = into.len().min(self.left);
        into[..n].fill(self.byte);
        self.left -= n;
        self.given = self.given.saturating_add(n);
        Ok(n)
    }
}

#[test]
fn tells_a_read_fault(rt: HostRuntime) -> Result<(), Fail> {
    let mut source = MemSource::new(TRACE.as_bytes(), &[1]);
    let mut sink = MemSink::new(rt.alloc(), &[], usize::MAX);
    let status = ends(&rt, rt.alloc(), "replay", &mut source, &mut sink)?;
    same(&rt, &status, &Status::ReadFault);
    same(&rt, &sink.bytes().len(), &0);
    Ok(())
}

#[test]
fn tells_a_write_fault(rt: HostRuntime) -> Result<(), Fail> {
    let mut source = SureSource::new(TRACE.as_bytes());
    let mut sink = MemSink::new(rt.alloc(), &[1], 10);
    let status = ends(&rt, rt.alloc(), "replay", &mut source, &mut sink)?;
    same(&rt, &status, &Status::WriteFault);
    same(&rt, &sink.bytes(), &(b"arena 0 ca".as_slice()));
    Ok(())
}

// A source of one byte, so many times, is read this far and no further, and nothing is written.
fn is_too_long<R: Abort + Threads + Wait + Sync>(
    rt: &R,
    alloc: Global,
    line: &str,
    mut source: Repeated,
    read: usize,
) -> Result<(), Fail> {
    let mut sink = MemSink::new(alloc, &[], usize::MAX);
    let status = ends(rt, alloc, line, &mut source, &mut sink)?;
    assert_eq!(rt; status, Status::TooLong, "{line}");
    assert_eq!(rt; source.given, read, "{line}");
    assert_eq!(rt; sink.bytes().len(), 0, "{line}");
    Ok(())
}

// One byte more than a trace may have, and than an image may.
#[test]
fn tells_that_the_input_is_too_long(rt: HostRuntime) -> Result<(), Fail> {
    let trace = Repeated::new(b'\n', 67_108_865);
    is_too_long(&rt, rt.alloc(), "replay", trace, 67_108_865)?;
    let trace = Repeated::new(b'\n', 67_108_865);
    is_too_long(&rt, rt.alloc(), "serve", trace, 67_108_865)?;
    let trace = Repeated::new(b'\n', 67_108_865);
    is_too_long(&rt, rt.alloc(), "gc", trace, 67_108_865)?;
    let image = Repeated::new(0, 270_794_753);
    is_too_long(&rt, rt.alloc(), "check", image, 270_794_753)?;
    let image = Repeated::new(0, 270_794_753);
    is_too_long(&rt, rt.alloc(), "recover", image, 270_794_753)
}

#[test]
fn a_source_without_end(rt: HostRuntime) -> Result<(), Fail> {
    let trace = Repeated::new(b'\n', usize::MAX);
    is_too_long(&rt, rt.alloc(), "replay", trace, 67_108_865)?;
    let image = Repeated::new(0, usize::MAX);
    is_too_long(&rt, rt.alloc(), "check", image, 270_794_753)
}

#[test]
fn reads_nothing_where_the_words_are_none(rt: HostRuntime) -> Result<(), Fail> {
    let mut source = Repeated::new(b'\n', 5);
    let mut sink = MemSink::new(rt.alloc(), &[], usize::MAX);
    let status = ends(&rt, rt.alloc(), "replay image", &mut source, &mut sink)?;
    same(&rt, &status, &Status::Usage);
    same(&rt, &source.given, &0);
    same(&rt, &sink.bytes().len(), &0);
    Ok(())
}

#[test]
fn has_codes(rt: HostRuntime) {
    let rows = [
        (Status::Done, 0),
        (Status::Usage, 1),
        (Status::Refused, 2),
        (Status::ReadFault, 3),
        (Status::WriteFault, 4),
        (Status::Memory, 5),
        (Status::TooLong, 6),
    ];
    for (status, code) in rows {
        same(&rt, &status.code(), &code);
    }
}
