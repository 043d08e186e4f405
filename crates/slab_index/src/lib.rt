// The slabs of an arena: the lowest available blocks of a class among them, how many live blocks each has, and which of them
// may take another class.
//
// `SlabIndex` means a set of slabs. `class_in` of `specs/SlabSet.antt` says which class of slab begins at a granule, and
// `is_available` which of its blocks may be given out. The lowest block of a class is `IsLowest`; up to eight of the lowest
// are `AreLowestBlocks`, by the `AreLowest` of the placement. The index keeps the set while slabs come and go and blocks are
// taken and given back. A slab that takes another class is removed and added again, and the blocks that overlap an old one
// are taken. The index takes memory once, when it is made, and no call takes longer for what is in it.
//
// `SlabLives` beside it means the `Lives` of `specs/Lives.antt`: a count of live blocks for each slab, the class of each that is
// normal, in which no live block has another size than that of its class, and which were found unfit for a class. The search for
// a slab that may take a class gives the one with the fewest live blocks. Whether a block of the class overlaps a live one is for
// the layer above to say: where each does, it notes that the slab is unfit, and searches again. `SlabLives` keeps three in
// agreement: `SlabCounts`, `Candidates`, which finds the first of the normal slabs by their order `IsBefore` of
// `specs/Candidates.antt`, and `UnfitSlabs`, which a search passes over by words.
//
// The layers above know these contracts, which speak of those definitions alone, and nothing of how the set is kept: as
// bits of words, with one bit more for each word that is not 0.
#![tactic(auto)]

mod block;
mod candidates;
mod counts;
mod index;
mod lives;
mod sparse;
mod unfit;
mod words;

pub use block::{SlabBlock, SlabBlocks};
pub use candidates::{Candidate, Candidates, NormalSlab};
pub use counts::SlabCounts;
pub use index::SlabIndex;
pub use lives::SlabLives;
pub use unfit::UnfitSlabs;
