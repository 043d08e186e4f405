// Migration of an arena of version 1 to version 2: the same heap, nine granules higher.
//
// `migrate_arena` takes any words. Those of a sound image of version 1 are first made exact on a device that has them, by the
// steps of recovery: nothing is loose then, no entry is open, and a slab that was taking another class has it. `image_raise`
// makes the words of version 2 of these. No arena is made, and the words that were lent stay as they are. `specs/Migrated.antt`
// says what a migration is, and `specs/Faults.antt` why there is none: the arena is of a later version, which is seen before
// anything else of it but its header line, or its image is not sound.
#![tactic(auto)]

mod fault;
mod migrating;

pub use fault::MigrateFault;
pub use migrating::migrate_arena;
