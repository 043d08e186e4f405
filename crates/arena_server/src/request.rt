// What senders ask for, and what owners answer.
use heap_model::Call;
use shared_pool::Receipt;

/// A call that a sender asks of an arena. It bears the sender's number, and names the arena by its number in the pool.
#[derive(Clone, Copy, Debug, PartialEq, Eq)]
pub struct Request {
    pub sender: u32,
    pub arena: u32,
    pub call: Call,
}

/// A request that was served, and the receipt of its call: its entry, and the entry's place in the arena's journal.
#[derive(Clone, Copy, Drop)]
pub struct Served {
    pub request: Request,
    pub receipt: Receipt,
}
