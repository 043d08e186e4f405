// What a root's word names.
ghost use Rattle.std.specs.Prelude.{◌≡◌, ◌==◌, ◌<◌, ◌^◌, length};
ghost use Rattle.pmem_lines.specs.Words.{word_at};
ghost use Rattle.pmem_lines.specs.Pmem.{words_of};
ghost use Rattle.pool_layout.specs.Places.{root_word};

use pmem_lines::Pmem;
use pool_layout::root_at;

/// A root's word is this address.
pub fn names<P: Pmem>(p: &P, root: u32, at: u32) -> bool
    requires root { root < 2 ^ 16 }
    requires inside { root_word root < length (words_of (P.state p.now)) }
    ensures { result ≡ (word_at (words_of (P.state p.now)) (root_word root) == at) }
{
    p.load(root_at(root)) == u64::from(at)
}
