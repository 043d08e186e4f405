// What the words of an arena say, table by table. A table is a function of the words alone and knows no rule: whether
// an image is sound is stated above, over the tables.
//
// `specs/Tables.antt` has the tables, `specs/Forms.antt` the forms of the words that pack several fields: what a word of
// the write-ahead lines, of a slab's state and of its index table may be. Codecs and the definition of an image that is
// well formed cite these.
//
// The table of live extents (`specs/Extents.antt`) says for each granule what extent starts there. It is read off the
// log (`specs/Log.antt`): the active chunks in the order of the directory, each chunk's entries by number, and of the
// entries that name a start the last one decides. `extent_at` is opaque: the layers above know it by what a store
// leaves of it (`proofs/Extents.antt`), a store to the log's end and a store elsewhere.
#![tactic(auto)]

mod entry;
mod extent;

pub use entry::WalEntry;
pub use extent::Extent;
