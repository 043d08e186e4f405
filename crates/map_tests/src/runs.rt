// How a run over memory ends, and what it writes.
use nvheap::{KeptShelf, MemSink, OpenGate, Sink, Source, Status, SureSource, run};
use nvpool::operate;
use std::alloc::{AllocError, Global};
use std::process::Abort;
use std::str;
use std::sync::Wait;
use std::test::Fail;
use std::thread::Threads;
use worked_runs::{Run, image_of};

// The words of a line, as the program gets them.
fn words_of(alloc: Global, line: &str) -> Result<Vec<String>, AllocError> {
    let mut words = Vec::new(alloc);
    for word in line.split_whitespace() {
        words.push(word.to_string(alloc)?)?;
    }
    Ok(words)
}

/// How a run from a source to a sink ends, with the words of a line.
pub(crate) fn ends<S: Source, K: Sink>(
    alloc: Global,
    line: &str,
    source: &mut S,
    sink: &mut K,
) -> Result<Status, Fail> {
    let words = words_of(alloc, line)?;
    Ok(operate(alloc, &words, source, sink))
}

/// A run over an image ends with this code and writes this text, with the words of a line.
pub(crate) fn tells<R: Abort>(
    rt: &R,
    alloc: Global,
    line: &str,
    size: usize,
    image: &[Run],
    code: u8,
    wanted: &str,
) -> Result<(), Fail> {
    let bytes = image_of(alloc, size, image)?;
    tells_of(rt, alloc, line, &bytes, code, wanted)
}

/// A run over bytes ends with this code and writes this text, with the words of a line.
pub(crate) fn tells_of<R: Abort>(
    rt: &R,
    alloc: Global,
    line: &str,
    input: &[u8],
    code: u8,
    wanted: &str,
) -> Result<(), Fail> {
    let mut source = SureSource::new(input);
    let mut sink = MemSink::new(alloc, &[], usize::MAX);
    let status = ends(alloc, line, &mut source, &mut sink)?;
    let told = String::from_str(alloc, str::from_utf8(sink.bytes())?)?;
    assert_eq!(rt; told.as_str(), wanted, "{line}");
    assert_eq!(rt; status.code(), code, "{line}");
    Ok(())
}

/// What a run over bytes writes, with the words of a line.
pub(crate) fn written(alloc: Global, line: &str, input: &[u8]) -> Result<Vec<u8>, Fail> {
    let mut source = SureSource::new(input);
    let mut sink = MemSink::new(alloc, &[], usize::MAX);
    ends(alloc, line, &mut source, &mut sink)?;
    Ok(sink.bytes().to_vec(alloc)?)
}

/// A run of `nvheap` over bytes is done and writes this text, with the words of a line.
pub(crate) fn says<R: Abort + Threads + Wait + Sync>(
    rt: &R,
    alloc: Global,
    line: &str,
    input: &[u8],
    wanted: &str,
) -> Result<(), Fail> {
    let words = words_of(alloc, line)?;
    let mut source = SureSource::new(input);
    let mut sink = MemSink::new(alloc, &[], usize::MAX);
    let mut shelf = KeptShelf::new(alloc)?;
    let status = run(
        rt,
        alloc,
        &words,
        &mut source,
        &mut sink,
        &OpenGate,
        &mut shelf,
    );
    let told = String::from_str(alloc, str::from_utf8(sink.bytes())?)?;
    assert_eq!(rt; told.as_str(), wanted, "{line}");
    assert_eq!(rt; status, Status::Done, "{line}");
    Ok(())
}
