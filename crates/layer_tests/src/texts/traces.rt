// Texts in and outside the grammar.
use crate::values::same;
use heap_model::Call;
use std::alloc::Global;
use std::process::Abort;
use trace_text::{TextFault, Trace, TraceCall, read_still_trace, read_trace};

// The number of the line, and the greatest one where there was no memory.
fn line_of(fault: TextFault) -> u64 {
    match fault {
        TextFault::BadLine { line } => line,
        TextFault::Memory(_) => u64::MAX,
    }
}

// The refused line, 0 of a trace.
fn refused_line(alloc: Global, text: &str) -> u64 {
    match read_trace(alloc, text.as_bytes()) {
        Ok(_) => 0,
        Err(fault) => line_of(fault),
    }
}

// The refused line, 0 of a trace without moves.
fn refused_still_line(alloc: Global, text: &str) -> u64 {
    match read_still_trace(alloc, text.as_bytes()) {
        Ok(_) => 0,
        Err(fault) => line_of(fault),
    }
}
// Texts, and the first line of each outside the grammar: 0 of a trace.
const LINES: [(&str, u64); 46] = [
    ("", 1),
    ("# a", 2),
    ("\n\n# a\n", 4),
    ("pool 1 16\n00 0 m 5 1\n", 2),
    ("pool 1 16\n64 0 f 1\n", 2),
    ("pool 0 16\n", 1),
    ("pool 17 16\n", 1),
    ("pool 16 16\n", 0),
    ("pool 1 15\n", 1),
    ("pool 1 1025\n", 1),
    ("pool 1 016\n", 1),
    ("pool 1 16 \n", 1),
    ("pool 1 16\npool 1 16\n", 2),
    ("pool 1 16\n0 0 m 1 18446744073709551616\n", 2),
    ("pool 1 16\n0 0 m 1 18446744073709551615\n", 0),
    ("pool 1 16\n0 1 m 1 1\n", 2),
    ("pool 16 1024\n63 15 f 0\n63 16 f 0\n", 3),
    ("pool 1 16\n0 0 m 1 1 \n", 2),
    ("pool 1 16\n0 0 m  1 1\n", 2),
    ("pool 1 16\n0 0 m +5 1\n", 2),
    ("pool 1 16\n0 0 f 4294967296\n", 2),
    ("pool 1 16\n0 0 f 18446744073709551616\n", 2),
    ("pool 1 16\n0 0 f\n", 2),
    ("pool 1 16\n\n# b\n0 0 f 1\n0 0 w 1 0\n", 5),
    ("pool 1 16\n0 0 f 4294967295\n", 0),
    ("# a\n\npool 1 1024\n\n# b\n63 0 m 0 0\n\n0 0 f 10", 0),
    ("pool 1 16", 0),
    ("pool2 0 25\n", 1),
    ("pool2 1 24\n", 1),
    ("pool2 1 25\n", 0),
    ("pool2 1 025\n", 1),
    ("pool2 1 4096\n", 0),
    ("pool2 1 4097\n", 1),
    ("pool2 4 4096\n", 0),
    ("pool2 4 4133\n", 1),
    ("pool2 5 4096\n", 1),
    ("pool2 16 1033\n", 0),
    ("pool2 16 1034\n", 1),
    ("pool2 17 25\n", 1),
    ("pool2  1 25\n", 1),
    ("pool2\n", 1),
    ("pool21 25\n", 1),
    ("pool3 1 25\n", 1),
    ("pool 2 1 25\n", 1),
    ("pool2 1 25\npool 1 16\n", 2),
    ("pool2 16 25\n63 15 f 0\n63 16 f 0\n", 3),
];

#[test]
fn first_line_outside_the_grammar(rt: HostRuntime) {
    for &(text, want) in &LINES {
        assert_eq!(rt; refused_line(rt.alloc(), text), want, "at {text}");
    }
}

const STILL_LINES: [(&str, u64); 6] = [
    ("", 1),
    ("pool2 1 25\n", 1),
    ("pool 1 1025\n", 1),
    ("# a\npool 1 16\n0 0 v 1 2\n", 3),
    ("pool 2 16\n0 1 m 5 100\n# b\n1 0 w 5 0 7\n0 2 f 5\n", 5),
    (
        "pool 2 16\n0 1 m 5 100\n63 0 r 5 0\n0 0 w 5 0 7\n0 1 f 5",
        0,
    ),
];

#[test]
fn first_line_outside_the_grammar_without_moves(rt: HostRuntime) {
    for &(text, want) in &STILL_LINES {
        assert_eq!(rt; refused_still_line(rt.alloc(), text), want, "at {text}");
    }
}

#[test]
fn says_its_calls(rt: HostRuntime) {
    let text = b"\npool 1 960\n63 0 m 4294967295 64\n# a\n5 0 f 7";
    let Ok(trace) = read_trace(rt.alloc(), text) else {
        panic!(rt; "no trace");
    };
    has_two_calls(&rt, &trace);
}

fn has_two_calls<R: Abort>(rt: &R, trace: &Trace) {
    same(
        rt,
        &(trace.version, trace.arenas, trace.granules),
        &(1, 1, 960),
    );
    let calls = [
        TraceCall {
            thread: 63,
            arena: 0,
            call: Call::Malloc {
                root: 4294967295,
                size: 64,
            },
        },
        TraceCall {
            thread: 5,
            arena: 0,
            call: Call::Free { root: 7 },
        },
    ];
    same(rt, &trace.calls.as_slice(), &&calls[..]);
}

#[test]
fn says_its_pool(rt: HostRuntime) {
    let Ok(trace) = read_trace(rt.alloc(), b"pool2 16 1033") else {
        panic!(rt; "no trace");
    };
    same(
        &rt,
        &(trace.version, trace.arenas, trace.granules),
        &(2, 16, 1033),
    );
}
