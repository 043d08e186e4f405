// Crashes at every event of some calls, with several seeds each.
use crate::crashes::{all_leave, crash_leaves};
use crate::traces::{ROLLS, around_sixteen, writes_anew};
use std::test::Fail;

// The first block of a slab: 75 events make the slab, 3 put it into the log, 3 open the entry, and then the bit is
// stored and flushed, and the root. Its fence is event 86. The free opens its entry by events 90 to 92, stores and
// flushes the root and then the bit, and its fence is event 97.
const SMALL_CALLS: &str = "pool 1 16
0 0 m 5 100
$0..83 call 1 before
$84..85 call 1 before | call 1 after, 5 67584 112
$86..89 call 1 after, 5 67584 112
----
pool 1 16
0 0 m 5 100
0 0 f 5
$86..89 call 1 after, 5 67584 112
$90..92 call 2 before, 5 67584 112
$93..96 call 2 before, 5 67584 112 | call 2 after
$97..103 call 2 after
";

/// The last malloc finds the log full. Behind the 12 events of each of 60 pairs it has 139 that make room and 3 that put
/// the entry into the log; event 863 stores the root, and 865 is its fence. The free stores it by event 866, and fences
/// by 868.
pub(crate) const ROLLING: &str = "$720 call 120 after
$721..862 call 121 before
$863..864 call 121 before | call 121 after, 0 65536 32768
$865 call 121 after, 0 65536 32768
$866..867 call 122 before, 0 65536 32768 | call 122 after
$868..871 call 122 after
";

#[test]
fn where_the_log_rolls(rt: HostRuntime) -> Result<(), Fail> {
    let table = format!(in rt.alloc(); "{ROLLS}{ROLLING}")?;
    all_leave(&rt, rt.alloc(), "crash 0", "heap", &table, 3)
}

// The last malloc writes the log anew. It begins behind event 6733, and has 139 events that do so and 3 that put the
// entry into the log; event 6876 stores the root, and 6878 is its fence. Of the 120 entries of the new chunk, which are
// stored first, a few are stopped at: then come its 15 flushes and their fence, 6869, and the directory with its own,
// 6872.
#[test]
fn where_the_log_is_written_anew(rt: HostRuntime) -> Result<(), Fail> {
    let last = around_sixteen(rt.alloc(), "call 960 after\nheap 16\n", "")?;
    let before = around_sixteen(rt.alloc(), "call 961 before\nheap 16\n", "")?;
    let after = around_sixteen(
        rt.alloc(),
        "call 961 after\nheap 17\n",
        "101 589824 32768\n",
    )?;
    let (last, before, after) = (last.as_str(), before.as_str(), after.as_str());
    let events = [
        (6733, 6733, last, last),
        (6734, 6735, before, before),
        (6800, 6800, before, before),
        (6853, 6854, before, before),
        (6868, 6875, before, before),
        (6876, 6877, before, after),
        (6878, 6878, after, after),
    ];
    let trace = writes_anew(rt.alloc(), 1)?;
    crash_leaves(&rt, rt.alloc(), "crash 0", &trace, 3, &events)
}

// A slab of class 3 with one block, which root 1 has, takes class 19 for root 2. The first two calls have 95 events. Behind
// them 82 are those of the slab, 3 open the entry, and then the bit is stored and flushed, and the root by event 183. Its fence
// is event 185, and 3 close the entry.
const TAKES_A_CLASS: &str = "pool 1 16
0 0 m 0 131072
0 0 m 1 64
0 0 m 2 1000
$95 call 2 after, 0 65536 131072, 1 198656 64
$96..182 call 3 before, 0 65536 131072, 1 198656 64
$183..184 call 3 before, 0 65536 131072, 1 198656 64 | call 3 after, 0 65536 131072, 1 198656 64, 2 199680 1024
$185..188 call 3 after, 0 65536 131072, 1 198656 64, 2 199680 1024
";

// The free of the old block opens its entry by events 189 to 191, stores and flushes the root and then the index entry, and
// its fence is event 196. By 199 the entry is closed, and by 202 the slab is normal.
const OLD_BLOCK_GOES: &str = "pool 1 16
0 0 m 0 131072
0 0 m 1 64
0 0 m 2 1000
0 0 f 1
$188 call 3 after, 0 65536 131072, 1 198656 64, 2 199680 1024
$189..191 call 4 before, 0 65536 131072, 1 198656 64, 2 199680 1024
$192..195 call 4 before, 0 65536 131072, 1 198656 64, 2 199680 1024 | call 4 after, 0 65536 131072, 2 199680 1024
$196..202 call 4 after, 0 65536 131072, 2 199680 1024
";

#[test]
fn in_small_calls(rt: HostRuntime) -> Result<(), Fail> {
    for (table, seeds) in [(SMALL_CALLS, 3), (TAKES_A_CLASS, 8), (OLD_BLOCK_GOES, 8)] {
        all_leave(&rt, rt.alloc(), "crash 0", "heap", table, seeds)?;
    }
    Ok(())
}
