// Runs that were worked by hand, by subject. `worked_runs` has them.
use crate::runs::all_end_and_write;
use std::test::Fail;
use worked_runs::{
    CLASSES_OF_ONE_SEAT, CLASSES_OF_SEVERAL_SEATS, LARGEST_ARENA, MOVES, OLD_BLOCK_GOES,
    OLD_BLOCKS, PAYLOAD, SEATS, SECOND_VERSION, SHORT, STACKS,
};

// Short traces, the stacks of seats, slabs that take a class, old blocks, words of blocks, moves, and pools of version 2.
const TABLES: [&str; 11] = [
    SHORT,
    STACKS,
    SEATS,
    OLD_BLOCK_GOES,
    CLASSES_OF_ONE_SEAT,
    CLASSES_OF_SEVERAL_SEATS,
    OLD_BLOCKS,
    PAYLOAD,
    MOVES,
    SECOND_VERSION,
    LARGEST_ARENA,
];

#[test]
fn worked_traces(rt: HostRuntime) -> Result<(), Fail> {
    for table in &TABLES {
        all_end_and_write(&rt, rt.alloc(), table)?;
    }
    Ok(())
}
