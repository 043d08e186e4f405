// The making of room in the bookkeeping log.
//
// `make_room` does nothing where the log has room. Otherwise the log rolls, and a needless chunk leaves it, or it is
// rewritten to its live extents alone. `specs/Needless.antt` has which chunk is needless, `specs/Copies.antt` the events
// that put entries into chunks and then switch the directory, and `specs/Room.antt` which way is taken (`way_of`), its
// events (`room_events`) and what is kept at each crash within them (`KeepsLog`). Only chunks outside the directory are
// written, and a fence stands before the directory's store, so the log is well formed with the same live extents at
// every moment. The layer above uses that, and that there is room afterwards.
#![tactic(auto)]

mod census;
mod chunks;
mod copying;
mod filling;
mod room;
mod switching;

pub use room::{Rolled, make_room};
