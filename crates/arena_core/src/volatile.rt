// What an arena keeps beside its words.

use block_supply::BlockSupply;
use book_log::BookLog;
use extent_index::ExtentIndex;
use slab_index::SlabLives;

/// What an arena keeps beside its words and makes anew from them: what its log says, the free granules, the slabs with the
/// blocks that may be given out, available or in a stack, how many blocks live in each and which are normal, so that they may
/// take another class, and the write-ahead line of the next entry, from 0 to 7. `IsArena` of `specs/Arena.antt` ties it to
/// the words. A call decides by its methods in `plan.rt`, and what it has decided is carried out by those in `carrying.rt`.
#[derive(Drop)]
pub(crate) struct Volatile {
    pub(crate) log: BookLog,
    pub(crate) free: ExtentIndex,
    pub(crate) supply: BlockSupply,
    pub(crate) lives: SlabLives,
    pub(crate) line: u32,
}
