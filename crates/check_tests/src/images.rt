// Images made by hand.
ghost use Rattle.std.specs.Prelude.{◌≡◌, ◌<◌, ◌≤◌, ◌%◌, IfOk, length};

use pmem_lines::OutOfMemory;
use std::alloc::Global;

/// A word of an image: its number, and what it is.
pub type Put = (usize, u64);

// Words of a granule.
const GRANULE_WORDS: usize = 2048;

/// An arena of 16 to 4096 granules, by its words that are not 0.
#[derive(Clone, Copy)]
pub struct Base {
    pub granules: usize,
    pub words: &'static [Put],
}

/// An arena with one slab of class 6, at granule 4, whose block 0 root 5 holds.
pub const ONE_BLOCK: Base = Base {
    granules: 16,
    words: &[
        (0, 3550894020320384590),
        (1, 281543696187393),
        (2, 1),
        (2053, 67584),
        (6152, 1026),
        (8192, 1537),
        (8200, 1),
    ],
};

/// An arena of version 2 of 25 granules with one slab of class 6, at granule 13, whose block 0 root 16383 holds.
pub const SECOND_VERSION: Base = Base {
    granules: 25,
    words: &[
        (0, 3550894020320384590),
        (1, 0x0001_0019_0000_0002),
        (2, 1),
        (18431, 215_040),
        (18440, 3330),
        (26624, 1537),
        (26632, 1),
    ],
};

/// An arena with a large block of 8 granules and a slab at granule 12 that took class 19 and was of class 3 before: one
/// block of each lives.
pub const IN_TRANSITION: Base = Base {
    granules: 16,
    words: &[
        (0, 3550894020320384590),
        (1, 281543696187393),
        (2, 1),
        (2048, 65536),
        (2049, 198656),
        (2050, 199680),
        (6152, 134218753),
        (6160, 3074),
        (24576, 16978691),
        (24592, 1),
        (24648, 1),
    ],
};

/// So many words, all 0.
pub fn blank(alloc: Global, size: usize) -> Result<Vec<u64>, OutOfMemory>
    ensures { IfOk result (λ words. length words.items ≡ size) }
{
    let words = vec![in alloc; 0; size]?;
    Ok(words)
}

/// Puts words into an image.
pub fn put(words: &mut [u64], puts: &[Put]) {
    for (word, value) in puts {
        if *word < words.len() {
            words[*word] = *value;
        }
    }
}

/// An arena with the words of a row over its own, whole lines of words.
pub fn image(alloc: Global, base: &Base, changes: &[Put]) -> Result<Vec<u64>, OutOfMemory>
    ensures whole { IfOk result (λ words. length words.items % 8 ≡ 0) }
    ensures some { IfOk result (λ words. 8 ≤ length words.items) }
    ensures few { IfOk result (λ words. length words.items ≤ 8388608) }
{
    let mut words = blank(alloc, GRANULE_WORDS * base.granules.clamp(16, 4096))?;
    put(&mut words, base.words);
    put(&mut words, changes);
    Ok(words)
}

/// The words of an arena under two rows, each over the one before.
pub fn image_under(
    alloc: Global,
    base: &Base,
    changes: &[Put],
    after: &[Put],
) -> Result<Vec<u64>, OutOfMemory> {
    let mut words = image(alloc, base, changes)?;
    put(&mut words, after);
    Ok(words)
}

/// Puts a word into an image, where it has one.
pub fn set(words: &mut [u64], at: u64, value: u64) {
    if at < words.len() as u64 {
        words[at as usize] = value;
    }
}

/// Puts an entry of the list of a log of eight chunks into its place: of version 1, so that each chunk has 120.
pub fn put_entry(words: &mut [u64], number: u64, entry: u64)
    requires { number < 960 }
{
    let own = number % 120;
    set(
        words,
        6152 + 128 * (number / 120) + 8 * (own % 15) + own / 15,
        entry,
    );
}
