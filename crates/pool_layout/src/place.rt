// Places in an arena, in bytes from its first one.

ghost use Rattle.std.specs.Prelude.{◌≡◌, ◌+◌, ◌*◌, ◌<◌, ◌^◌};
ghost use Rattle.pool_layout.specs.Layout.{layout_of};
ghost use Rattle.pool_layout.specs.Places.{text_word, fields_word, directory_word, root_word, wal_word, chunk_word, entry_slot, granule_word, heap_word, line_place, index_place, blocks_place};

use crate::layout_of;

/// The bytes of a granule.
pub const GRANULE_BYTES: u32 = 16384;
/// The granules of a slab.
pub const SLAB_GRANULES: u32 = 4;

/// The word of the header line that has the pool's text.
pub fn text_at() -> u32
    ensures { result ≡ 8 * text_word }
{
    0
}

/// The word of the header line that has version, number, granules and arenas.
pub fn fields_at() -> u32
    ensures { result ≡ 8 * fields_word }
{
    8
}

/// The word of the header line that is the directory of the log.
pub fn directory_at() -> u32
    ensures { result ≡ 8 * directory_word }
{
    16
}

/// The word of a root.
pub fn root_at(root: u32) -> u32
    requires { root < 2 ^ 16 }
    ensures { result ≡ 8 * root_word root }
{
    16384 + 8 * root
}

/// The word of a write-ahead line.
pub fn wal_at(line: u32) -> u32
    requires { line < 8 }
    ensures { result ≡ 8 * wal_word line }
{
    512 + 64 * line
}

/// The first word of a chunk of the log.
pub fn chunk_at(version: u32, chunk: u32) -> u32
    requires { chunk < 16 }
    ensures { result ≡ 8 * chunk_word version chunk }
{
    let layout = layout_of(version);
    layout.log_at + layout.chunk_bytes * chunk
}

/// The word of an entry of a chunk. Entries that are neighbours lie in different lines.
pub fn entry_at(version: u32, chunk: u32, entry: u32) -> u32
    requires chunk { chunk < 16 }
    requires entry { entry < (layout_of version).chunk_entries }
    ensures { result ≡ 8 * entry_slot version chunk entry }
{
    let lines = layout_of(version).chunk_entries / 8;
    chunk_at(version, chunk) + 64 + 64 * (entry % lines) + 8 * (entry / lines)
}

/// The first byte of a granule.
pub fn granule_at(granule: u32) -> u32
    requires { granule < 2 ^ 16 }
    ensures { result ≡ 8 * granule_word granule }
{
    GRANULE_BYTES * granule
}

/// The first byte of the heap.
pub fn heap_at(version: u32) -> u32
    ensures { result ≡ 8 * heap_word version }
{
    granule_at(layout_of(version).first_granule)
}

/// A word of a line of the header of the slab that begins at this byte.
pub fn slab_header_at(slab: u32, line: u32, word: u32) -> u32
    requires slab { slab + 2048 < 2 ^ 32 }
    requires line { line < 32 }
    requires word { word < 8 }
    ensures { result ≡ slab + 8 * line_place line word }
{
    slab + 64 * line + 8 * word
}

/// The word of an entry of the index table of the slab that begins at this byte.
pub fn index_at(slab: u32, place: u32) -> u32
    requires slab { slab + 2048 < 2 ^ 32 }
    requires place { place < 64 }
    ensures { result ≡ slab + 8 * index_place place }
{
    slab_header_at(slab, 9 + place % 8, place / 8)
}

/// The first block of the slab that begins at this byte.
pub fn blocks_at(slab: u32) -> u32
    requires { slab + 2048 < 2 ^ 32 }
    ensures { result ≡ slab + 8 * blocks_place }
{
    slab + 2048
}
