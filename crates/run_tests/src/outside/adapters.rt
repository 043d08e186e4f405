// Runs from readers and to writers of the standard library.
use crate::outside::{REPORT, TRACE};
use crate::runs::ends;
use crate::values::same;
use nvheap::{Adapter, Status};
use std::io;
use std::io::Read;
use std::test::Fail;

// Gives its bytes, and then fails.
#[derive(Drop)]
struct Torn<'a> {
    bytes: &'a [u8],
}

impl Read for Torn<'_> {
    fn read(&mut self, into: &mut [u8]) -> io::Result<usize> {
        match self.bytes.read(into)? {
            0 => Err(io::Error::from(io::ErrorKind::Other)),
            n => Ok(n),
        }
    }
}

#[test]
fn reads_piece_by_piece_and_writes(rt: HostRuntime) -> Result<(), Fail> {
    let (first, second) = TRACE.as_bytes().split_at(12);
    let mut source = Adapter::new(first.chain(second));
    let mut written = Vec::new(rt.alloc());
    let mut sink = Adapter::new(&mut written);
    let status = ends(&rt, rt.alloc(), "replay", &mut source, &mut sink)?;
    same(&rt, &status, &Status::Done);
    same(&rt, &written.as_slice(), &REPORT.as_bytes());
    Ok(())
}

#[test]
fn a_reader_that_fails_is_a_read_fault(rt: HostRuntime) -> Result<(), Fail> {
    let mut source = Adapter::new(Torn {
        bytes: TRACE.as_bytes(),
    });
    let mut written = Vec::new(rt.alloc());
    let mut sink = Adapter::new(&mut written);
    let status = ends(&rt, rt.alloc(), "replay", &mut source, &mut sink)?;
    same(&rt, &status, &Status::ReadFault);
    same(&rt, &written.len(), &0);
    Ok(())
}

// A write that takes nothing is a fault.
#[test]
fn a_writer_without_room_is_a_write_fault(rt: HostRuntime) -> Result<(), Fail> {
    let mut source = Adapter::new(TRACE.as_bytes());
    let mut room = [0u8; 10];
    let mut sink = Adapter::new(&mut room[..]);
    let status = ends(&rt, rt.alloc(), "replay", &mut source, &mut sink)?;
    same(&rt, &status, &Status::WriteFault);
    same(&rt, &room.as_slice(), &(b"arena 0 ca".as_slice()));
    Ok(())
}
