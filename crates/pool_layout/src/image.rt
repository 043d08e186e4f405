// The image of a pool.
ghost use Rattle.std.specs.Prelude.{◌≡◌, ◌↔◌, ◌*◌, ◌<◌, ◌≤◌, List, ℕ, length, IsTrue, IfOk, IfErr, OnOk, MatchResult};
ghost use Rattle.pool_layout.specs.Header.{header_word, IsPoolHeader, IsHeaderLine, IsBadHeaderLine};
ghost use Rattle.pool_layout.specs.Bytes.{words_of_bytes};
ghost use Rattle.pool_layout.specs.Image.{part_of, header_of_arena, image_length, IsFirstHeader, IsFirstLine, IsFirstFields, HasBadArena, AreWordsOf, AreWords, IsPoolOf, IsPoolImage, IsGcPoolImage, IsImageOf, IsDefectIn, IsImageDefect, IsGcImageDefect, IfDefect};

use crate::bytes::add_words;
use crate::header::{PoolVariant, header_word, read_line, second_word};
use crate::{Defect, PoolHeader};
use pmem_lines::OutOfMemory;
use std::alloc::Global;
use thiserror::Error;

/// Why bytes give no image.
#[derive(Debug, Drop, Error)]
pub enum ImageFault {
    /// There was no memory.
    #[error("Memory")]
    Memory(OutOfMemory),
    /// This is the first defect, and the number of the arena that has it.
    #[error("Defect")]
    Defect { arena: u32, defect: Defect },
}

/// Lends the words of an arena of a pool.
pub fn parts<'a>(h: &PoolHeader, words: &'a [u64], arena: u32) -> &'a [u64]
    requires size { length words.now ≡ h.now.arenas * h.now.granules * 2048 }
    requires inside { arena < h.now.arenas }
    ensures { result.now ≡ part_of words.now h.now.granules arena }
{
    let size = 2048 * h.granules as usize;
    let from = size * arena as usize;
    &words[from..from + size]
}

/// The first defect of the image of a pool, and the number of the arena that has it.
#[derive(Clone, Copy, Debug, Error)]
#[error("ArenaDefect")]
pub struct ArenaDefect {
    pub arena: u32,
    pub defect: Defect,
}

impl From<ArenaDefect> for ImageFault {
    ghost use Rattle.pool_layout.specs.declared.image.ImageFault.TheVariants.{Defect as is_defect};

    ghost from_gives = { λ found fault. fault ≡ is_defect found.arena found.defect };

    fn from(found: ArenaDefect) -> Self {
        ImageFault::Defect {
            arena: found.arena,
            defect: found.defect,
        }
    }
}

/// The header of arena 0 of a pool's image, of which these are the words, and which has so many bytes. `Err` comes exactly
/// where the bytes are no image: the first of these that holds is named. There are fewer than 64 bytes; a word of arena 0's
/// header line is bad; there are more or fewer bytes than that header calls for; a word of a later arena's header line is
/// bad, of the lowest such arena. A header line is bad also where its number is not the arena's, or its version, its count
/// of arenas or its granules are not those of arena 0.
pub fn pool_header(words: &[u64], bytes: u64) -> Result<PoolHeader, ArenaDefect>
    requires { AreWords words.now bytes }
    ensures whole { OnOk result (bytes ≡ 8 * length words.now) }
    ensures pool { IfOk result (IsPoolImage words.now) }
    ensures defect { IfErr result (λ found. (image : List ℕ) → AreWordsOf words.now bytes image → IsImageDefect image found.arena found.defect) }
{
    read_pool(PoolVariant::Log, words, bytes)
}

/// The same of a pool of the GC variant.
pub fn gc_pool_header(words: &[u64], bytes: u64) -> Result<PoolHeader, ArenaDefect>
    requires { AreWords words.now bytes }
    ensures whole { OnOk result (bytes ≡ 8 * length words.now) }
    ensures pool { IfOk result (IsGcPoolImage words.now) }
    ensures defect { IfErr result (λ found. (image : List ℕ) → AreWordsOf words.now bytes image → IsGcImageDefect image found.arena found.defect) }
{
    read_pool(PoolVariant::Gc, words, bytes)
}

// The header of arena 0 of the image of a pool of a variant, as the two calls above tell.
fn read_pool(variant: PoolVariant, words: &[u64], bytes: u64) -> Result<PoolHeader, ArenaDefect>
    requires { AreWords words.now bytes }
    ensures whole { OnOk result (bytes ≡ 8 * length words.now) }
    ensures pool { IfOk result (IsPoolOf variant words.now) }
    ensures defect { IfErr result (λ found. (image : List ℕ) → AreWordsOf words.now bytes image → IsDefectIn variant image found.arena found.defect) }
{
    if bytes < 64 {
        return Err(ArenaDefect {
            arena: 0,
            defect: Defect::BadLength {
                have: bytes,
                need: 64,
            },
        });
    }
    let header = match first_header(variant, words) {
        Ok(header) => header,
        Err(defect) => return Err(ArenaDefect { arena: 0, defect }),
    };
    let need = image_length(&header);
    if bytes != need {
        return Err(ArenaDefect {
            arena: 0,
            defect: Defect::BadLength { have: bytes, need },
        });
    }
    match check_arenas(variant, words, &header) {
        Ok(()) => Ok(header),
        Err(found) => Err(found),
    }
}

// The header of arena 0; the first word of its line that is bad, where one is.
fn first_header(variant: PoolVariant, words: &[u64]) -> Result<PoolHeader, Defect>
    requires { 8 ≤ length words.now }
    ensures { MatchResult result (IsFirstLine variant words.now) (IsBadHeaderLine variant words.now (IsFirstFields variant)) }
{
    let header = read_line(variant, words)?;
    if header.number != 0 {
        return Err(Defect::BadHeader {
            word: 1,
            value: words[1],
        });
    }
    Ok(header)
}

// The header line of an arena, by the header of arena 0; the first word of it that is bad, where one is.
fn check_arena(
    variant: PoolVariant,
    words: &[u64],
    header: &PoolHeader,
    arena: u32,
) -> Result<(), Defect>
    requires size { length words.now ≡ header.now.arenas * header.now.granules * 2048 }
    requires first { IsFirstHeader variant header.now }
    requires inside { arena < header.now.arenas }
    ensures { MatchResult result (λ _. IsHeaderLine variant (part_of words.now header.now.granules arena) (header_of_arena header.now arena)) (λ defect. IsBadHeaderLine variant (part_of words.now header.now.granules arena) (λ word. word ≡ header_word (header_of_arena header.now arena)) defect) }
{
    let part = parts(header, words, arena);
    let word = second_word(variant, part)?;
    let own = PoolHeader {
        version: header.version,
        number: arena,
        arenas: header.arenas,
        granules: header.granules,
    };
    if word != header_word(&own) {
        return Err(Defect::BadHeader {
            word: 1,
            value: word,
        });
    }
    Ok(())
}

// The header lines of all arenas, by the header of arena 0.
fn check_arenas(variant: PoolVariant, words: &[u64], header: &PoolHeader) -> Result<(), ArenaDefect>
    requires size { length words.now ≡ header.now.arenas * header.now.granules * 2048 }
    requires line { IsFirstLine variant words.now header.now }
    ensures all { OnOk result (IsPoolOf variant words.now header.now) }
    ensures bad { IfErr result (λ found. (image : List ℕ) → words.now ≡ words_of_bytes image → length image ≡ image_length header.now → HasBadArena variant image found.arena found.defect) }
{
    for arena in 1..header.arenas {
        match check_arena(variant, words, header, arena) {
            Ok(()) => {}
            Err(defect) => return Err(ArenaDefect { arena, defect }),
        }
    }
    Ok(())
}

// How many bytes a pool with this header of arena 0 has.
fn image_length(header: &PoolHeader) -> u64
    requires { IsPoolHeader header.now }
    ensures { result ≡ image_length header.now }
{
    u64::from(header.arenas) * u64::from(header.granules) * 16384
}

/// The words of a pool's image, eight bytes a word and the least first. `Defect` comes exactly where the bytes are no
/// image, and names the first that holds of those of `pool_header`. All memory that is taken is that of the words.
pub fn image_words(alloc: Global, bytes: &[u8]) -> Result<Vec<u64>, ImageFault>
    ensures image { IfOk result (λ words. IsImageOf bytes.now words.items) }
    ensures defect { IfErr result (λ fault. IfDefect fault (IsImageDefect bytes.now)) }
{
    let mut words = Vec::new(alloc);
    match add_words(&mut words, bytes) {
        Ok(()) => {}
        Err(error) => return Err(ImageFault::Memory(error)),
    }
    pool_header(&words, bytes.len() as u64)?;
    Ok(words)
}
