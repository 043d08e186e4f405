// A server of arenas: callers send requests to an arena's queue, and one owner for each arena serves them over a pool.
//
// `Server` puts arenas into a `SharedPool`, each behind a ruled queue of `crossbeam_queue`. A `Sender` holds a pass of each
// queue, an `Owner` a pass of one queue and one of the pool. What a sender sent stands in the views of its queue passes, and
// what an owner took out in that of its own, so that the queue's rule (`specs/Kept.antt`) keeps both: requests come out in
// the order in which they were put in. The server keeps no second list.
//
// `specs/Senders.antt` and `specs/Owners.antt` say what senders and owners are, `specs/Servers.antt` what each call makes of
// them, and `specs/Closed.antt` what is left at the end (`IsDesk`), from which the law of order follows. The layer above knows
// these, and `new_senders` and `new_owners` of `specs/Started.antt`; it knows nothing of parts and tokens.
#![tactic(auto)]

mod closing;
mod laws;
mod owner;
mod part;
mod parting;
mod queue;
mod request;
mod rule;
mod sender;
mod server;
mod starting;

pub use closing::ClosedDesk;
pub use laws::law_of_order;
pub use owner::Owner;
pub use request::{Request, Served};
pub use sender::Sender;
pub use server::{Opened, Server};
