// The threads of a trace's calls.
ghost use Rattle.std.specs.Prelude.{◌≡◌, ◌≤◌, ◌<◌, ◌+◌, max};
ghost use Rattle.trace_runs.specs.Threads.{seats_for, AllBy};

use trace_text::TraceCall;

/// How many seats the threads of these calls need: one more than the greatest thread number, and one for no calls.
pub fn threads_of(calls: &[TraceCall]) -> u32
    requires { AllBy 64 calls.now }
    ensures seats { result ≡ seats_for calls.now }
    ensures some { 1 ≤ result }
    ensures few { result ≤ 64 }
    ensures threads { AllBy result calls.now }
{
    let mut seats = 1;
    for call in calls {
        seats = seats_with(seats, call.thread);
    }
    seats
}

// So many seats, or more where a thread needs them.
fn seats_with(seats: u32, thread: u32) -> u32
    requires few { seats ≤ 64 }
    requires below { thread < 64 }
    ensures greater { result ≡ max seats (thread + 1) }
    ensures more { seats ≤ result }
    ensures few { result ≤ 64 }
    ensures thread { thread < result }
{
    if thread < seats { seats } else { thread + 1 }
}
