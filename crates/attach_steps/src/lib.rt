// A root gets a block and loses it: a small block comes and goes under a write-ahead entry.
//
// `attach` and `detach` are the two sequences on a block of its slab's class: the entry is opened, the block's bit and the
// root's word are made durable together, and the entry is closed. `specs/Steps.antt` has their events, when a block may
// come or go, and what they leave, in the words of `heap_check`. Each begins and ends quiet, and a crash within it leaves
// a steady image with the heap from before or from after it (`IsEitherHeap`). `put_root` is the step on a root's word alone,
// by which whole granules come and go.
//
// The layer above chooses the block and makes its slab. It uses these contracts, and looks into no word of a slab's
// header or of a write-ahead line.
#![tactic(auto)]

mod bit;
mod block;
mod old;
mod root;
mod steps;

pub use bit::put_block_bit;
pub use block::{OldBlock, SmallBlock};
pub use old::{detach_old, old_number};
pub use root::put_root;
pub use steps::{attach, detach};
