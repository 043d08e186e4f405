// The header line of an arena.

ghost use Rattle.std.specs.Prelude.{◌≡◌, ◌≤◌, ◌↔◌, length, IsTrue, IfOk, IfErr, MatchResult};
ghost use Rattle.pmem_lines.specs.Words.{word_at};
ghost use Rattle.pool_layout.specs.Places.{text_word};
ghost use Rattle.pool_layout.specs.Header.{header_text, gc_text, text_of, header_word, fields_of, FitsWord, IsPoolHeader, IsHeaderFor, IsHeaderLine, IsHeader, IsGcHeader, HasBadText, IsSecondWord, IsLineDefect, IsHeaderDefect, IsGcHeaderDefect};

use crate::{Defect, POOL_GRANULES, all_granules, is_version, layout_of};

/// The variants of arenas, which the text of a header line tells.
#[derive(Clone, Copy)]
pub enum PoolVariant {
    Log,
    Gc,
}

/// What the header line of an arena says: the version of the layout, the arena's number, how many arenas the pool has,
/// and how many granules of 16384 bytes this one has.
#[derive(Clone, Copy, Debug, PartialEq, Eq)]
pub struct PoolHeader {
    pub version: u32,
    pub number: u32,
    pub arenas: u32,
    pub granules: u32,
}

/// The first word of the header line of an arena of the LOG variant: the text `NVALLOG1`, as it stands in the image.
pub fn header_text() -> u64
    ensures { result ≡ header_text }
{
    u64::from_le_bytes(*b"NVALLOG1")
}

/// The first word of the header lines of a variant: that text, or `NVALGC01`.
pub fn text_of(variant: PoolVariant) -> u64
    ensures { result ≡ text_of variant }
{
    match variant {
        PoolVariant::Log => header_text(),
        PoolVariant::Gc => u64::from_le_bytes(*b"NVALGC01"),
    }
}

/// The words begin with the text of the GC variant.
pub fn has_gc_text(words: &[u64]) -> bool
    ensures { IsTrue result ↔ (word_at words.now text_word ≡ gc_text) }
{
    if words.len() == 0 {
        return false;
    }
    words[0] == text_of(PoolVariant::Gc)
}

// The second word of a header line, where the first is the variant's text; else that one is bad.
pub(crate) fn second_word(variant: PoolVariant, words: &[u64]) -> Result<u64, Defect>
    requires { 8 ≤ length words.now }
    ensures { MatchResult result (IsSecondWord variant words.now) (HasBadText variant words.now) }
{
    let text = words[0];
    if text != text_of(variant) {
        return Err(Defect::BadHeader {
            word: 0,
            value: text,
        });
    }
    Ok(words[1])
}

/// The second word of the header line.
pub fn header_word(header: &PoolHeader) -> u64
    requires { FitsWord header.now }
    ensures word { result ≡ header_word header.now }
    ensures inverse { fields_of result ≡ header.now }
{
    let low = u64::from(header.version) + (u64::from(header.number) << 16);
    low + (u64::from(header.granules) << 32) + (u64::from(header.arenas) << 48)
}

// What the second word of a header line says.
fn fields_of(word: u64) -> PoolHeader
    ensures fields { result ≡ fields_of word }
    ensures inverse { header_word result ≡ word }
{
    PoolHeader {
        version: (word % 65536) as u32,
        number: ((word >> 16) % 65536) as u32,
        arenas: ((word >> 48) % 65536) as u32,
        granules: ((word >> 32) % 65536) as u32,
    }
}

// A pool of the LOG variant may have this header.
fn is_pool_header(header: &PoolHeader) -> bool
    ensures { IsTrue result ↔ IsPoolHeader header.now }
{
    if !is_version(header.version)
        || header.arenas < 1
        || header.arenas > 16
        || header.number >= header.arenas
    {
        return false;
    }
    let layout = layout_of(header.version);
    if header.granules < layout.least_granules || header.granules > layout.most_granules {
        return false;
    }
    all_granules(header.arenas, header.granules) <= POOL_GRANULES
}

// A pool of a variant may have it.
fn is_header_for(variant: PoolVariant, header: &PoolHeader) -> bool
    ensures { IsTrue result ↔ IsHeaderFor variant header.now }
{
    match variant {
        PoolVariant::Log => is_pool_header(header),
        PoolVariant::Gc => header.version == 1 && is_pool_header(header),
    }
}

// Reads the header line of an arena of a variant, as the two calls below tell.
pub(crate) fn read_line(variant: PoolVariant, words: &[u64]) -> Result<PoolHeader, Defect>
    ensures header { IfOk result (IsHeaderLine variant words.now) }
    ensures defect { IfErr result (IsLineDefect variant words.now) }
{
    if words.len() < 8 {
        return Err(Defect::BadLength {
            have: 8 * words.len() as u64,
            need: 64,
        });
    }
    let word = second_word(variant, words)?;
    let header = fields_of(word);
    if !is_header_for(variant, &header) {
        return Err(Defect::BadHeader {
            word: 1,
            value: word,
        });
    }
    Ok(header)
}

/// Reads the header line that the words of an arena or a pool begin with. BadLength comes exactly where there are fewer
/// than eight words; then BadHeader names the first word of the line that is not of the format, and the word.
pub fn header_of(words: &[u64]) -> Result<PoolHeader, Defect>
    ensures header { IfOk result (IsHeader words.now) }
    ensures defect { IfErr result (IsHeaderDefect words.now) }
{
    read_line(PoolVariant::Log, words)
}

/// The same of an arena or a pool of the GC variant.
pub fn gc_header_of(words: &[u64]) -> Result<PoolHeader, Defect>
    ensures header { IfOk result (IsGcHeader words.now) }
    ensures defect { IfErr result (IsGcHeaderDefect words.now) }
{
    read_line(PoolVariant::Gc, words)
}
