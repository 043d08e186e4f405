// The layout of a pool: where everything lies in an arena, what its header line says, and what may be wrong with an
// image, as words and as bytes.
//
// No crate above writes a bare offset: it asks here for the place of a root word, a write-ahead line, an entry of the
// log, a granule or a word of a slab's header. The numbers that depend on the version of a pool stand in one table
// (`layout_of`), which definitions and contracts above cite by the header's version; `IsLayout` is what every row
// keeps. A pool's image is read from bytes and written as bytes, and `parts` lends one arena's words of it. The
// definitions are in `specs/`: the table, the places as numbers of words, the header line, the image of a pool with what
// may be wrong with it, words as bytes, and the defects with their texts.
#![tactic(auto)]

mod bytes;
mod defect;
mod header;
mod image;
mod laws;
mod layout;
mod place;
mod text;

pub use bytes::{add_words, image_bytes};
pub use defect::Defect;
pub use header::{
    PoolHeader, PoolVariant, gc_header_of, has_gc_text, header_of, header_text, header_word,
    text_of,
};
pub use image::{ArenaDefect, ImageFault, gc_pool_header, image_words, parts, pool_header};
pub use laws::{
    law_of_bytes_of_words, law_of_images, law_of_no_defect, law_of_one_defect, law_of_pieces,
    law_of_words_of_bytes,
};
pub use layout::{Layout, POOL_GRANULES, all_granules, is_version, layout_of};
pub use place::{
    GRANULE_BYTES, SLAB_GRANULES, blocks_at, chunk_at, directory_at, entry_at, fields_at,
    granule_at, heap_at, index_at, root_at, slab_header_at, text_at, wal_at,
};
