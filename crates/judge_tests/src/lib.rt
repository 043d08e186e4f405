// A judge of reports of `replay`, `serve` and `gc`, which knows the heap machine and its placement by their words alone, and
// reports that it judges.
//
// The crate has no code. It stands apart from `run_tests`, since a crate with tests is proved twice, and it takes nothing of
// the crates that define or serve the machine: `machine` is a plain body of it, with the calls of a trace, and `judge` replays
// a report line by line, and has reports that are right and reports that are refused. `threads` makes traces, runs them on four
// threads and on one, and has their reports judged; `gc` does so on arenas of the GC variant.
#![tactic(auto)]

#[cfg(test)]
mod gc;
#[cfg(test)]
mod judge;
#[cfg(test)]
mod machine;
#[cfg(test)]
mod threads;
