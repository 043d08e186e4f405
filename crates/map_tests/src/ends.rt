// The other ways in which a run ends: words that are none, and ends that fail.
use crate::images::{EMPTY, SMALL};
use crate::runs::{ends, tells};
use nvheap::{MemSink, MemSource, Status, SureSource};
use std::alloc::Global;
use std::process::Abort;
use std::test::Fail;
use worked_runs::image_of;

const NO_WORDS: [&str; 5] = ["", "texts", "dump 16 0", "dump 0 05", "repair 0"];

/// A command with this word is read from a source that fails, and written to a sink that does after 30 bytes.
fn fails<R: Abort>(rt: &R, alloc: Global, word: &str) -> Result<(), Fail> {
    let bytes = image_of(alloc, SMALL, &EMPTY)?;
    fails_to_read(rt, alloc, word, &bytes)?;
    fails_to_write(rt, alloc, word, &bytes)
}

fn fails_to_read<R: Abort>(rt: &R, alloc: Global, word: &str, bytes: &[u8]) -> Result<(), Fail> {
    let mut broken = MemSource::new(bytes, &[1]);
    let mut sink = MemSink::new(alloc, &[], usize::MAX);
    let unread = ends(alloc, word, &mut broken, &mut sink)?;
    assert_eq!(rt; unread, Status::ReadFault);
    assert_eq!(rt; sink.bytes().len(), 0);
    Ok(())
}

fn fails_to_write<R: Abort>(rt: &R, alloc: Global, word: &str, bytes: &[u8]) -> Result<(), Fail> {
    let mut source = SureSource::new(bytes);
    let mut full = MemSink::new(alloc, &[3], 10);
    let unwritten = ends(alloc, word, &mut source, &mut full)?;
    assert_eq!(rt; unwritten, Status::WriteFault);
    assert_eq!(rt; full.bytes().len(), 30);
    Ok(())
}

#[test]
fn words_that_are_none_are_usage(rt: HostRuntime) -> Result<(), Fail> {
    for words in &NO_WORDS {
        tells(&rt, rt.alloc(), words, SMALL, &EMPTY, 1, "")?;
    }
    Ok(())
}

#[test]
fn failing_ends_are_faults(rt: HostRuntime) -> Result<(), Fail> {
    for word in &["map", "text", "info", "repair"] {
        fails(&rt, rt.alloc(), word)?;
    }
    Ok(())
}
