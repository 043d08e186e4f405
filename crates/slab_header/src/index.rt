// The words of a slab's index table.

ghost use Rattle.std.specs.Prelude.{◌≡◌, ◌<◌, ◌^◌, IfSome, MatchOption};
ghost use Rattle.slab_header.specs.Index.{word_of_index, read_index, IsWordOfIndex, IsNoIndexWord, SaysOfIndex};

/// An entry of the index table: a block of the class that the slab had before, by its number, and whether it lives.
#[derive(Clone, Copy, Debug, PartialEq, Eq)]
pub struct IndexEntry {
    /// The block lives.
    pub live: bool,
    /// Its number among the blocks of that class, below 65536.
    pub number: u32,
}

/// The index entry of a word. There is none exactly where a bit is set that has no meaning: one of bits 1 to 15, or of
/// bits 32 to 63.
pub fn index_of(word: u64) -> Option<IndexEntry>
    ensures entry { MatchOption result (IsNoIndexWord word) (IsWordOfIndex word) }
    ensures says { IfSome result (SaysOfIndex word) }
{
    let entry = read_index(word);
    if index_word(entry) == word {
        Some(entry)
    } else {
        None
    }
}

/// The word of an index entry.
pub fn index_word(e: IndexEntry) -> u64
    requires { e.number < 2 ^ 16 }
    ensures word { result ≡ word_of_index e }
    ensures inverse { read_index result ≡ e }
    ensures says { SaysOfIndex result e }
{
    u64::from(e.live) + (u64::from(e.number) << 16)
}

// What the fields of a word say, whatever the rest of the word is.
fn read_index(word: u64) -> IndexEntry
    ensures { result ≡ read_index word }
{
    IndexEntry {
        live: word % 2 == 1,
        number: ((word >> 16) % 65536) as u32,
    }
}
