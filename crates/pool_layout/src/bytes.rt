// Words as bytes, eight bytes a word and the least first.
ghost use Rattle.std.specs.Prelude.{◌≡◌, ◌+◌, ◌/◌, ◌%◌, ◌≤◌, ◌++◌, length, OnOk};
ghost use Rattle.pmem_lines.specs.Words.{words_at};
ghost use Rattle.pool_layout.specs.Bytes.{words_of_bytes, bytes_of_words};

use pmem_lines::OutOfMemory;

/// Puts the words of bytes behind those that are there, eight bytes a word and the least first. Fewer than eight bytes at
/// the end are no word.
pub fn add_words(words: &mut Vec<u64>, bytes: &[u8]) -> Result<(), OutOfMemory>
    ensures { OnOk result (words.new.items ≡ words.old.items ++ words_of_bytes bytes.now) }
{
    let (chunks, _) = bytes.as_chunks::<8>();
    for chunk in chunks {
        words.push(u64::from_le_bytes(*chunk))?;
    }
    Ok(())
}

/// Writes words from one on as bytes: as many words as fill `into`, eight bytes a word and the least first.
pub fn image_bytes(words: &[u64], from: u32, into: &mut [u8])
    requires whole { length into.old % 8 ≡ 0 }
    requires inside { from + length into.old / 8 ≤ length words.now }
    ensures { into.new ≡ bytes_of_words (words_at words.now from (length into.old / 8)) }
{
    let first = from as usize;
    for i in 0..into.len() / 8 {
        into[8 * i..8 * i + 8].copy_from_slice(&words[first + i].to_le_bytes());
    }
}
