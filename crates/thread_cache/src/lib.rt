// The stacks of reserved blocks: for each seat and class up to eight addresses that the next small mallocs are given.
//
// `ThreadCaches` means a function from seats and classes to lists of addresses, the top one first: the stacks of the
// placement in `heap_model`. `stacks_of` of `specs/Stacks.antt` is that function, and each call's contract is an equation
// on it. Every call promises that no address stands in two places, `AreDistinct`. The caches take memory once, when they
// are made.
//
// The layers above know these contracts, and nothing of how the stacks are kept: one `Stack` for each class and seat, and
// for each class a word with the seats of which the stack is not empty.
#![tactic(auto)]

mod caches;
mod stack;

pub use caches::ThreadCaches;
