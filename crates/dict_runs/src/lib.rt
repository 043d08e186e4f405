// The calls of a script, made on a dictionary over a new arena, and what a crash leaves after a chosen event of them.
//
// `run_script` makes all calls on the arena of a device and writes the report: what each line came to, and the map behind them.
// `crash_script` makes them on a simulated device up to the one under way at an event, and gives the image that a seed picks;
// `write_left` reports the map of that image, once it is opened again. What they promise stands in `specs/Scripts.antt`
// (`IsRunOf`: each call of the script is calls of the arena, each of those a step of the heap machine and its placement, with
// its events) and `specs/Crashes.antt` (`IsDictCrash`); `specs/Laws.antt` says that a script settles its run and its report. The rest of
// `specs/` is for the functions below them.
//
// The layer above has a script and a device, recovers images, and knows where bytes go.
#![tactic(auto)]

mod crashing;
mod dicts;
mod laws;
mod looking;
mod making;
mod printing;
mod running;
mod watching;

pub use crashing::{DictCrashed, crash_script};
pub use laws::{law_of_one_report, law_of_one_run};
pub use printing::write_left;
pub use running::run_script;
