// The words of an arena of version 2 that has what one of version 1 has.
ghost use Rattle.std.specs.Prelude.{◌≡◌, ◌≤◌, length, IfOk};
ghost use Rattle.pmem_lines.specs.Words.{AreZeros};
ghost use Rattle.pool_layout.specs.Layout.{layout_of};
ghost use Rattle.pool_layout.specs.Places.{heap_word};
ghost use Rattle.pool_layout.specs.Header.{version_in, granules_in, FitsWord, IsPoolHeader, IsHeader};
ghost use Rattle.heap_check.specs.Image.{IsExactImage};
ghost use Rattle.image_raise.specs.Rise.{raised_header, IsRaisedImage};
ghost use Rattle.image_raise.specs.Front.{HasSmallRoots, HasRaisedHeader, HasRaisedRoots, IsFilledFront};

use crate::higher::{raised_header, raised_root};
use crate::log::raise_log;
use pmem_lines::OutOfMemory;
use pool_layout::{
    PoolHeader, directory_at, fields_at, header_text, header_word, heap_at, layout_of, root_at,
    text_at,
};
use std::alloc::Global;

/// The words of an arena of version 2 that has what these words have, which are an exact image of version 1: the image is
/// exact too, with the same blocks and slabs, nine granules higher, and the same words in them. The header line is that of
/// `header`, raised: its granules are those of the words. It takes the memory of the words that it gives, and goes through
/// those of the heap once.
pub fn raised_words(
    alloc: Global,
    words: &[u64],
    header: &PoolHeader,
) -> Result<Vec<u64>, OutOfMemory>
    requires image { IsExactImage words.now }
    requires version { version_in words.now ≡ 1 }
    requires header { IsPoolHeader header.now }
    requires first { header.now.version ≡ 1 }
    requires granules { header.now.granules ≡ granules_in words.now }
    ensures raised { IfOk result (λ new. IsRaisedImage words.now new.items) }
    ensures header { IfOk result (λ new. IsHeader new.items (raised_header header.now)) }
{
    let mut new = blank_front(alloc)?;
    fill_front(words, &mut new, header);
    new.extend_from_slice(&words[heap_at(1) as usize / 8..])?;
    Ok(new)
}

// As many zeros as there are words before the heap of version 2. No write-ahead entry is open among them.
fn blank_front(alloc: Global) -> Result<Vec<u64>, OutOfMemory>
    ensures size { IfOk result (λ front. length front.items ≡ heap_word 2) }
    ensures zeros { IfOk result (λ front. AreZeros front.items) }
{
    let front = vec![in alloc; 0u64; heap_at(2) as usize / 8]?;
    Ok(front)
}

// Puts the words before the heap: the header line, the roots and the log. The write-ahead lines stay, and the roots and
// entries that version 1 does not have.
fn fill_front(words: &[u64], front: &mut [u64], header: &PoolHeader)
    requires fits { FitsWord (raised_header header.now) }
    requires granules { header.now.granules ≤ 4096 }
    requires small { HasSmallRoots words.now }
    requires words { heap_word 1 ≤ length words.now }
    requires front { heap_word 2 ≤ length front.old }
    ensures { IsFilledFront words.now header.now front.old front.new }
{
    put_header(words, front, header);
    raise_roots(words, front);
    raise_log(words, front, header.granules);
}

// Puts the raised header line, with the directory as it is.
fn put_header(words: &[u64], front: &mut [u64], header: &PoolHeader)
    requires fits { FitsWord (raised_header header.now) }
    requires granules { header.now.granules ≤ 4096 }
    requires words { heap_word 1 ≤ length words.now }
    requires front { heap_word 2 ≤ length front.old }
    ensures { HasRaisedHeader words.now header.now front.old front.new }
{
    front[text_at() as usize / 8] = header_text();
    front[fields_at() as usize / 8] = header_word(&raised_header(header));
    front[directory_at() as usize / 8] = words[directory_at() as usize / 8];
}

// Raises the root words that version 1 has. The others stay.
fn raise_roots(words: &[u64], front: &mut [u64])
    requires small { HasSmallRoots words.now }
    requires words { heap_word 1 ≤ length words.now }
    requires front { heap_word 2 ≤ length front.old }
    ensures { HasRaisedRoots words.now (layout_of 1).roots front.old front.new }
{
    for root in 0..layout_of(1).roots {
        let word = root_at(root) as usize / 8;
        front[word] = raised_root(words[word]);
    }
}
