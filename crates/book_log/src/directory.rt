// The directory of the log.

ghost use Rattle.std.specs.Prelude.{◌≡◌};
ghost use Rattle.image_tables.specs.Log.{active_chunks};

use arrayvec::ArrayVec;

/// The active chunks, in the order of the directory that this word is.
pub fn active_chunks(directory: u64) -> ArrayVec<u32, 8>
    ensures { result.items ≡ active_chunks directory }
{
    let mut chunks = ArrayVec::new();
    let mut rest = directory;
    for _byte in 0..8u32 {
        let byte = rest % 256;
        if byte < 1 || 16 < byte {
            return chunks;
        }
        chunks.push(byte as u32 - 1);
        rest /= 256;
    }
    chunks
}
