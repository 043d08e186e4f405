// Steps over the image of an arena of the GC variant: a root's word comes or goes, a slab gets another class, and an extent comes or
// goes. A word is made durable in three events, and an extent is an entry of the log, behind the events that make room for it there.
// Each step begins and ends quiet.
//
// A crash within a step leaves a sound image with the heap from before it or from behind it, in which each block that was there
// before has its words (`IsEitherGcHeap` of `gc_check`). What a step asks of the image and what it leaves stand in
// `specs/Roots.antt`, `specs/Slabs.antt` and `specs/Extents.antt`. A slab is made with its state word before its extent is in the
// log, and an extent goes once no root's block lies in it. The layer above puts the steps of a call one behind another, and chooses
// which granules are taken.
#![tactic(auto)]

mod entry;
mod extents;
mod roots;
mod slabs;

pub use extents::{create_large, create_slab, drop_extent};
pub use roots::{attach, detach};
pub use slabs::put_class;
