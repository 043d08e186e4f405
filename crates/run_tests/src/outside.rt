// The outside of a run: what it reads from and writes to, where it leaves devices, and the gate that its threads go through.
//
// `faults` has sources and sinks that fail, and sources that give too much, `hostile` each read and write failing in turn, and
// images that were cut or patched, `adapters` readers and writers of the standard library, `shelves` the words of the device
// that is left, and a shelf that keeps none, and `workers` a gate that holds threads.
mod adapters;
mod faults;
mod hostile;
mod shelves;
mod workers;

/// A trace of one call.
pub(crate) const TRACE: &str = "pool 1 16\n0 0 m 5 100\n";

/// What `replay` writes of it.
pub(crate) const REPORT: &str =
    "arena 0 calls 1\n0 m 5 100 placed 67584 112\nheap 1\n5 67584 112\n";
