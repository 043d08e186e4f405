// The bytes of words, by the piece.
ghost use Rattle.std.specs.Prelude.{◌≡◌, ◌<◌, ◌≤◌, ◌%◌, ◌^◌, ◌++◌, length, IfOk, OnOk, []};
ghost use Rattle.pool_layout.specs.Bytes.{bytes_of_words};
ghost use Rattle.image_runs.specs.Repairs.{AreWholeWords};

use pmem_lines::OutOfMemory;
use pool_layout::{GRANULE_BYTES, PoolHeader, image_bytes};
use std::alloc::Global;

// How many bytes are made of words at once, and of how many words.
const PIECE: usize = 4096;

const PIECE_WORDS: usize = 512;

/// A buffer for a piece of 4096 bytes.
pub fn new_piece(alloc: Global) -> Result<Vec<u8>, OutOfMemory>
    ensures { IfOk result (λ piece. length piece.items ≡ 4096) }
{
    let piece = vec![in alloc; 0u8; PIECE]?;
    Ok(piece)
}

/// Room for the bytes of a pool, and a buffer for a piece of them.
pub fn pool_buffers(alloc: Global, header: &PoolHeader) -> Result<(Vec<u8>, Vec<u8>), OutOfMemory>
    requires arenas { header.now.arenas ≤ 16 }
    requires granules { header.now.granules ≤ 4096 }
    ensures bytes { IfOk result (λ both. both.0.items ≡ []) }
    ensures piece { IfOk result (λ both. length both.1.items ≡ 4096) }
{
    let size = header.arenas as usize * header.granules as usize * GRANULE_BYTES as usize;
    let bytes = Vec::with_capacity(alloc, size)?;
    let piece = new_piece(alloc)?;
    Ok((bytes, piece))
}

/// Adds the bytes of words, eight for each, the least first. The words are whole pieces of 512, and fewer than 2^29.
pub fn add_bytes(bytes: &mut Vec<u8>, words: &[u64], piece: &mut [u8]) -> Result<(), OutOfMemory>
    requires piece { length piece.old ≡ 4096 }
    requires whole { length words.now % 512 ≡ 0 }
    requires few { length words.now < 2 ^ 29 }
    ensures bytes { OnOk result (bytes.new.items ≡ bytes.old.items ++ bytes_of_words words.now) }
    ensures piece { length piece.new ≡ 4096 }
{
    for at in 0..(words.len() / PIECE_WORDS) as u32 {
        image_bytes(words, PIECE_WORDS as u32 * at, piece);
        bytes.extend_from_slice(piece)?;
    }
    Ok(())
}

/// Words are of 64 bits each, as their type has it, which is known of a word that was read.
pub fn are_whole_words(words: &[u64])
    ensures { AreWholeWords words.now }
{
    for i in 0..words.len() {
        let _word = words[i];
    }
}
