// Slabs as full as they may be where they take another class, and with one block more.
use crate::runs::{all_tell, has_events};
use std::test::Fail;
use worked_runs::{FILLINGS, filled};

#[test]
fn as_many_as_may_live_and_one_more(rt: HostRuntime) -> Result<(), Fail> {
    for row in &FILLINGS {
        let (trace, report) = filled(rt.alloc(), row)?;
        let runs = [
            ("replay", 0, report.as_str()),
            ("serve", 0, report.as_str()),
        ];
        all_tell(&rt, rt.alloc(), trace.as_bytes(), &runs)?;
        has_events(&rt, rt.alloc(), &trace, "0", row.5)?;
    }
    Ok(())
}
