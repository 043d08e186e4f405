// Runs over traces without moves, on arenas of the GC variant. That `gc` writes what `replay` writes of a trace, the tables of
// `worked_runs` say.
use crate::crashes::all_leave;
use crate::runs::all_end_and_write;
use crate::traces::ROLLS;
use crate::traces::crashes::ROLLING;
use std::test::Fail;

// A malloc that makes a slab has 3 events for its state word, 3 for the log and 3 for the root.
const WORDS: &str = "pool 1 16
0 0 m 5 100
$0 gc
arena 0 calls 1
0 m 5 100 placed 67584 112
heap 1
5 67584 112
$0 gc-crash 0 0 0, gc-crash 0 6 0, gc-crash 0 0 18446744073709551615
call 1 before
heap 0
$0 gc-crash 0 7 0, gc-crash 0 9 7
call 1 after
heap 1
5 67584 112
$2 gc-crash 0 10 0
no event 10 of 9
$2 gc-crash 1 0 0, gc-crash 1 10 0
no arena 1 of 1
$1 gc x, gc gc, gc 0, Gc, gc-, gc-crash, gc-crash 0 1, gc-crash 0 1 0 0, gc-crash 16 0 0, gc-crash 00 0 0, gc-crash 0 0 18446744073709551616
----
pool 1 16
# nothing is asked
$0 gc
arena 0 calls 0
heap 0
$0 gc-crash 0 0 0
call 0 same
heap 0
$2 gc-crash 0 1 0
no event 1 of 0
----
pool 2 16
0 1 m 5 100
0 0 f 5
$0 gc
arena 0 calls 1
0 f 5 empty
heap 0
arena 1 calls 1
0 m 5 100 placed 67584 112
heap 1
5 67584 112
$0 gc-crash 0 0 0
call 0 same
heap 0
$2 gc-crash 0 1 0
no event 1 of 0
$0 gc-crash 1 9 0
call 1 after
heap 1
5 67584 112
$2 gc-crash 2 0 0
no arena 2 of 2
----
pool 1 16
0 0 m 5 100
0 0 v 5 6
0 0 x
$2 gc, gc-crash 0 0 0, gc-crash 1 0 0
bad line 3
----
pool2 1 4096
0 0 m 5 100
$2 gc, gc-crash 0 0 0
bad line 1
----
$2 gc, gc-crash 0 0 0
bad line 1
";

#[test]
fn words_and_refusals(rt: HostRuntime) -> Result<(), Fail> {
    all_end_and_write(&rt, rt.alloc(), WORDS)
}

// The root of a malloc or a free is stored as one of three events; what makes a slab and an entry of the log comes before a
// malloc's, and the entry of what is given back comes behind a free's. The last trace has a slab that takes another class, in 3
// events, and then loses the old block.
const CALLS: &str = "pool 1 16
0 0 m 5 100
$0..6 call 1 before
$7..8 call 1 before | call 1 after, 5 67584 112
$9 call 1 after, 5 67584 112
----
pool 1 16
0 0 m 5 100
0 0 f 5
$9 call 1 after, 5 67584 112
$10..11 call 2 before, 5 67584 112 | call 2 after
$12..15 call 2 after
----
pool 1 16
0 0 m 0 131072
0 0 m 1 64
0 0 m 2 112
0 0 f 1
$0..3 call 1 before
$4..5 call 1 before | call 1 after, 0 65536 131072
$6 call 1 after, 0 65536 131072
$7..12 call 2 before, 0 65536 131072
$13..14 call 2 before, 0 65536 131072 | call 2 after, 0 65536 131072, 1 198656 64
$15 call 2 after, 0 65536 131072, 1 198656 64
$16..18 call 3 before, 0 65536 131072, 1 198656 64
$19..20 call 3 before, 0 65536 131072, 1 198656 64 | call 3 after, 0 65536 131072, 1 198656 64, 2 198768 112
$21 call 3 after, 0 65536 131072, 1 198656 64, 2 198768 112
$22..23 call 4 before, 0 65536 131072, 1 198656 64, 2 198768 112 | call 4 after, 0 65536 131072, 2 198768 112
$24 call 4 after, 0 65536 131072, 2 198768 112
";

#[test]
fn crashes_in_calls(rt: HostRuntime) -> Result<(), Fail> {
    all_leave(&rt, rt.alloc(), "gc-crash 0", "heap", CALLS, 8)
}

// The same events as of the LOG variant: 139 that make room behind the 12 of each of 60 pairs, and 3 that put the entry into the log.
#[test]
fn crashes_where_the_log_rolls(rt: HostRuntime) -> Result<(), Fail> {
    let table = format!(in rt.alloc(); "{ROLLS}{ROLLING}")?;
    all_leave(&rt, rt.alloc(), "gc-crash 0", "heap", &table, 3)
}
