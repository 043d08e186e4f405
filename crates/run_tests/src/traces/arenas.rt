// Runs over traces of several arenas, and of several threads.
use crate::runs::{all_end_and_write, all_tell, tells};
use std::test::Fail;

// The calls of two arenas stand in turns, those of each on a thread of its own.
const TWO: &str = "pool 2 64
0 0 m 0 4096
1 1 m 0 100000
1 1 m 1 200
0 0 m 1 20000
1 1 f 0
";

const REPORT: &str = "arena 0 calls 2
0 m 0 4096 placed 67584 4096
0 m 1 20000 placed 131072 32768
heap 2
0 67584 4096
1 131072 32768
arena 1 calls 3
1 m 0 100000 placed 65536 114688
1 m 1 200 placed 182272 224
1 f 0 freed 65536 114688
heap 1
1 182272 224
";

const ROWS: [(&str, u8, &str); 13] = [
    ("replay", 0, REPORT),
    ("serve", 0, REPORT),
    ("crash 0 0 0", 0, "call 1 before\nheap 0\n"),
    ("crash 0 89 0", 0, "call 1 after\nheap 1\n0 67584 4096\n"),
    (
        "crash 0 95 0",
        0,
        "call 2 after\nheap 2\n0 67584 4096\n1 131072 32768\n",
    ),
    ("crash 0 96 0", 2, "no event 96 of 95\n"),
    ("crash 1 0 0", 0, "call 1 before\nheap 0\n"),
    ("crash 1 6 0", 0, "call 1 after\nheap 1\n0 65536 114688\n"),
    (
        "crash 1 95 0",
        0,
        "call 2 after\nheap 2\n0 65536 114688\n1 182272 224\n",
    ),
    ("crash 1 101 0", 0, "call 3 after\nheap 1\n1 182272 224\n"),
    ("crash 1 102 0", 2, "no event 102 of 101\n"),
    ("crash 2 0 0", 2, "no arena 2 of 2\n"),
    ("crash 15 999 0", 2, "no arena 15 of 2\n"),
];

// Events and calls are counted by arena. Arena 0 has 89 events and 6, arena 1 has 6, 89 and 6.
#[test]
fn two_arenas(rt: HostRuntime) -> Result<(), Fail> {
    all_tell(&rt, rt.alloc(), TWO.as_bytes(), &ROWS)
}

// Arena 1 has no call.
#[test]
fn an_idle_arena(rt: HostRuntime) -> Result<(), Fail> {
    let trace = "pool 2 16\n0 0 m 5 100\n";
    let report =
        "arena 0 calls 1\n0 m 5 100 placed 67584 112\nheap 1\n5 67584 112\narena 1 calls 0\nheap 0\n";
    let table = format!(in rt.alloc(); "{trace}$0 replay, serve\n{report}$idle 1\n")?;
    all_end_and_write(&rt, rt.alloc(), &table)
}

// Whichever of two threads comes first has the block, and the other one's answer says so.
#[test]
fn two_threads_one_root(rt: HostRuntime) -> Result<(), Fail> {
    let trace = "pool 1 16\n0 0 m 5 100\n1 0 m 5 100\n";
    let first =
        "arena 0 calls 2\n0 m 5 100 placed 67584 112\n1 m 5 100 occupied 67584\nheap 1\n5 67584 112\n";
    let second =
        "arena 0 calls 2\n1 m 5 100 placed 67584 112\n0 m 5 100 occupied 67584\nheap 1\n5 67584 112\n";
    for word in ["replay", "serve"] {
        let (code, told) = tells(&rt, rt.alloc(), word, trace.as_bytes())?;
        assert_eq!(rt; code, 0, "{word}");
        assert!(rt;
            told.as_str() == first || told.as_str() == second,
            "{word} {told}"
        );
    }
    Ok(())
}
