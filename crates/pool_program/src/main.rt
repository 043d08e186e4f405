// The program `nvpool`: `main` makes the real source and sink, calls `operate` of the crate `nvpool`, prints the line on standard
// error for the answer, and ends with the answer's code. What the program does is `operate`'s contract.
#![tactic(auto)]

use nvpool::operate;
use program_io::{Adapter, Status};
use std::process::ExitCode;
use std::{env, io};

/// The words after the program's name.
fn words_of_program(rt: &HostRuntime) -> io::Result<Vec<String>> {
    let mut words = Vec::new(rt.alloc());
    for word in env::args(rt)?.skip(1) {
        words.push(word)?;
    }
    Ok(words)
}

/// How the program ends where its words can't be had. Words that are no text are none of the program's.
fn without_words(fault: io::Error) -> Status {
    match fault.kind() {
        io::ErrorKind::OutOfMemory => Status::Memory,
        _ => Status::Usage,
    }
}

/// What is said on standard error.
fn complaint(status: Status) -> Option<&'static str> {
    match status {
        Status::Done | Status::Refused => None,
        Status::Usage => Some("usage: nvpool map, text, info, dump A R, repair, cut A K SEED"),
        Status::ReadFault => Some("read fault"),
        Status::WriteFault => Some("write fault"),
        Status::Memory => Some("out of memory"),
        Status::TooLong => Some("input too long"),
    }
}

fn main(rt: HostRuntime) -> ExitCode {
    let status = match words_of_program(&rt) {
        Ok(words) => {
            let mut source = Adapter::new(rt.stdin());
            let mut sink = Adapter::new(rt.stdout());
            operate(rt.alloc(), &words, &mut source, &mut sink)
        }
        Err(fault) => without_words(fault),
    };
    if let Some(line) = complaint(status) {
        let _ = eprintln!(rt; "{line}");
    }
    ExitCode::from(status.code())
}
