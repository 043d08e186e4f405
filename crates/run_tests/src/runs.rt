// How a run over memory ends, what it writes, and what it leaves on the shelf.
use nvheap::{Gate, KeptShelf, MemSink, OpenGate, Shelf, Sink, Source, Status, SureSource, run};
use pmem_lines::Pmem;
use std::alloc::{AllocError, Global};
use std::process::Abort;
use std::str;
use std::sync::Wait;
use std::test::Fail;
use std::thread::Threads;
use worked_runs::expanded;

// The words of a line, as the program gets them.
fn words_of(alloc: Global, line: &str) -> Result<Vec<String>, AllocError> {
    let mut words = Vec::new(alloc);
    for word in line.split_whitespace() {
        words.push(word.to_string(alloc)?)?;
    }
    Ok(words)
}

/// How a run from a source to a sink ends, with the words of a line.
pub(crate) fn ends<R: Threads + Wait + Sync, S: Source, K: Sink>(
    rt: &R,
    alloc: Global,
    line: &str,
    source: &mut S,
    sink: &mut K,
) -> Result<Status, Fail> {
    let words = words_of(alloc, line)?;
    let mut shelf = KeptShelf::new(alloc)?;
    Ok(run(rt, alloc, &words, source, sink, &OpenGate, &mut shelf))
}

/// How a run over bytes ends, and what it writes, at a gate and a shelf.
pub(crate) fn ends_with<R: Threads + Wait + Sync, G: Gate + Sync, H: Shelf>(
    rt: &R,
    alloc: Global,
    line: &str,
    input: &[u8],
    gate: &G,
    shelf: &mut H,
) -> Result<(Status, Vec<u8>), Fail> {
    let words = words_of(alloc, line)?;
    let mut source = SureSource::new(input);
    let mut sink = MemSink::new(alloc, &[], usize::MAX);
    let status = run(rt, alloc, &words, &mut source, &mut sink, gate, shelf);
    let taken = sink.bytes().to_vec(alloc)?;
    Ok((status, taken))
}

/// How a run over bytes ends, and what it writes.
pub(crate) fn ends_and_writes<R: Threads + Wait + Sync>(
    rt: &R,
    alloc: Global,
    line: &str,
    input: &[u8],
) -> Result<(Status, Vec<u8>), Fail> {
    let mut shelf = KeptShelf::new(alloc)?;
    ends_with(rt, alloc, line, input, &OpenGate, &mut shelf)
}

/// The code with which a run over bytes ends, and the text that it writes.
pub(crate) fn tells<R: Threads + Wait + Sync>(
    rt: &R,
    alloc: Global,
    line: &str,
    input: &[u8],
) -> Result<(u8, String), Fail> {
    let (status, taken) = ends_and_writes(rt, alloc, line, input)?;
    let text = String::from_str(alloc, str::from_utf8(&taken)?)?;
    Ok((status.code(), text))
}

/// Runs over some bytes end with these codes and write these texts, each with the words of a line.
pub(crate) fn all_tell<R: Abort + Threads + Wait + Sync>(
    rt: &R,
    alloc: Global,
    input: &[u8],
    rows: &[(&str, u8, &str)],
) -> Result<(), Fail> {
    for (line, wanted, text) in rows {
        let (code, told) = tells(rt, alloc, line, input)?;
        assert_eq!(rt; told.as_str(), *text, "{line}");
        assert_eq!(rt; code, *wanted, "{line}");
    }
    Ok(())
}

/// The two sides of a mark's first place; with no such place all is before it.
pub(crate) fn halves(text: &str, mark: char) -> (&str, &str) {
    text.split_once(mark).unwrap_or((text, ""))
}

/// The runs of a table of `worked_runs` all end and write as they say, but for those that may come.
pub(crate) fn all_end_and_write<R: Abort + Threads + Wait + Sync>(
    rt: &R,
    alloc: Global,
    table: &str,
) -> Result<(), Fail> {
    let table = expanded(alloc, table)?;
    for case in table.split("----\n") {
        let (trace, runs) = halves(case, '$');
        for asked in runs.split('$') {
            let (line, told) = halves(asked, '\n');
            end_as(rt, alloc, trace, line, told)?;
        }
    }
    Ok(())
}

// Runs over a trace end and write as a line of a table says, and what stands below it.
fn end_as<R: Abort + Threads + Wait + Sync>(
    rt: &R,
    alloc: Global,
    trace: &str,
    line: &str,
    told: &str,
) -> Result<(), Fail> {
    match halves(line, ' ') {
        ("may", _) => Ok(()),
        ("events", lines) => {
            let (arena, count) = halves(lines, ' ');
            has_events(rt, alloc, trace, arena, count.parse()?)
        }
        ("idle", arena) => is_idle(rt, alloc, trace, arena),
        (code, lines) => each_tells(rt, alloc, trace, lines, code.parse()?, told),
    }
}

// Each of these runs over a trace ends with this code and writes this text.
fn each_tells<R: Abort + Threads + Wait + Sync>(
    rt: &R,
    alloc: Global,
    trace: &str,
    lines: &str,
    code: u8,
    told: &str,
) -> Result<(), Fail> {
    for words in lines.split(", ") {
        all_tell(rt, alloc, trace.as_bytes(), &[(words, code, told)])?;
    }
    Ok(())
}

// An arena of a trace has no events, and a crash leaves it empty, with no call under way.
fn is_idle<R: Abort + Threads + Wait + Sync>(
    rt: &R,
    alloc: Global,
    trace: &str,
    arena: &str,
) -> Result<(), Fail> {
    let words = format!(in alloc; "crash {arena} 0 0")?;
    let row = (words.as_str(), 0, "call 0 same\nheap 0\n");
    all_tell(rt, alloc, trace.as_bytes(), &[row])?;
    has_events(rt, alloc, trace, arena, 0)
}

/// The calls of an arena of a trace have so many events: there is none behind them.
pub(crate) fn has_events<R: Abort + Threads + Wait + Sync>(
    rt: &R,
    alloc: Global,
    trace: &str,
    arena: &str,
    count: u32,
) -> Result<(), Fail> {
    let next = count.saturating_add(1);
    let words = format!(in alloc; "crash {arena} {next} 0")?;
    let told = format!(in alloc; "no event {next} of {count}\n")?;
    all_tell(rt, alloc, trace.as_bytes(), &[(&words, 2, &told)])
}

/// The heap that has these blocks, as the program writes it; `none` says that it has none.
pub(crate) fn heap_of(alloc: Global, blocks: &str) -> Result<String, AllocError> {
    counted(alloc, "heap", blocks)
}

/// The line that says how many lines follow, and these; `none` says that there are none.
pub(crate) fn counted(alloc: Global, name: &str, parts: &str) -> Result<String, AllocError> {
    let mut lines = String::new(alloc);
    let mut count = 0u32;
    for part in parts.split(", ") {
        if part != "none" {
            count = count.saturating_add(1);
            lines.push_str(part)?;
            lines.push_str("\n")?;
        }
    }
    format!(in alloc; "{name} {count}\n{lines}")
}

/// The word at an address of the device that a run over a trace leaves on a shelf, with one word of the program. The address
/// lies in the first 16 granules.
pub(crate) fn word_after<R: Threads + Wait + Sync>(
    rt: &R,
    alloc: Global,
    word: &str,
    trace: &str,
    at: u32,
) -> Result<Option<u64>, Fail> {
    let mut shelf = KeptShelf::new(alloc)?;
    let _ = ends_with(rt, alloc, word, trace.as_bytes(), &OpenGate, &mut shelf)?;
    match shelf.device(0) {
        Some(device) if at % 8 == 0 && at < 262_144 && device.size_words() >= 32_768 => {
            Ok(Some(device.load(at)))
        }
        _ => Ok(None),
    }
}
