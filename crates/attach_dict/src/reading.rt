// What stands in the blocks of an arena's roots.
ghost use Rattle.std.specs.Prelude.{◌≡◌, ◌<◌};
ghost use Rattle.pmem_lines.specs.Pmem.{words_of};
ghost use Rattle.heap_check.specs.Image.{bounds_of, IsExactImage};
ghost use Rattle.arena_core.specs.Call.{IsReady};
ghost use Rattle.attach_dict.specs.Reading.{IsReadAs, IsReadOf, HoldsPair};
ghost use Rattle.attach_dict.specs.View.{value_in};

use crate::heads::Head;
use crate::layout::{HEAD_WORDS, MOST_VALUES};
use arena_core::Arena;
use pmem_lines::Pmem;
use pool_layout::{fields_at, layout_of};

/// What a root's block is.
#[derive(Clone, Copy)]
pub(crate) enum Reading {
    /// It has none.
    Empty,
    /// No pair.
    Unfit,
    /// A pair, by its key and its number.
    Pair(Head),
}

/// How many roots an arena has.
pub(crate) fn roots_of<P: Pmem>(arena: &Arena<P>) -> u32
    ensures roots { result ≡ (bounds_of (words_of arena.now.device)).roots }
    ensures exact { IsExactImage (words_of arena.now.device) }
    ensures ready { IsReady arena.now.device }
{
    let version = (arena.pmem().load(fields_at()) % 65536) as u32;
    layout_of(version).roots
}

/// What the block of one of an arena's roots is.
pub(crate) fn pair_at<P: Pmem>(arena: &Arena<P>, root: u32) -> Reading
    requires { root < (bounds_of (words_of arena.now.device)).roots }
    ensures reading { IsReadAs (words_of arena.now.device) root result }
    ensures exact { IsExactImage (words_of arena.now.device) }
{
    match arena.view(root) {
        Ok(words) => read_pair(words, root),
        Err(_) => Reading::Empty,
    }
}

// What a root's block of these words is.
fn read_pair(words: &[u64], root: u32) -> Reading
    ensures { IsReadOf words.now root result }
{
    if words.len() < HEAD_WORDS || words[2] > MOST_VALUES {
        return Reading::Unfit;
    }
    if words.len() - HEAD_WORDS < words[2] as usize {
        return Reading::Unfit;
    }
    Reading::Pair(Head {
        key: words[0],
        number: words[1],
        root,
    })
}

/// Lends the value of the pair that a root's block is, in place.
pub(crate) fn value_at<P: Pmem>(arena: &Arena<P>, root: u32) -> &[u64]
    requires { HoldsPair (words_of arena.now.device) root }
    ensures { result.now ≡ value_in (words_of arena.now.device) root }
{
    let words = arena.view(root).unwrap();
    let count = words[2] as usize;
    &words[HEAD_WORDS..HEAD_WORDS + count]
}
