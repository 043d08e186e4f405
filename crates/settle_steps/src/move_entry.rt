// An open move entry.
ghost use Rattle.std.specs.Prelude.{◌≡◌, ◌&&◌, nat_lt, ◌<◌, ◌^◌, length};
ghost use Rattle.pmem_lines.specs.Words.{word_at};
ghost use Rattle.pmem_lines.specs.Events.{IsQuiet};
ghost use Rattle.pmem_lines.specs.Steps.{IsQuietStep};
ghost use Rattle.pmem_lines.specs.Pmem.{words_of, HasRoom};
ghost use Rattle.pool_layout.specs.Places.{root_word};
ghost use Rattle.settle_steps.specs.Settled.{MaySettle, KeepsHeap};
ghost use Rattle.settle_steps.specs.Moves.{IsOpenForMove, move_events, release_events, released, ReleasesOrNot, IsMoveSettled};

use attach_steps::put_root;
use attach_wal::close_entry;
use pmem_lines::Pmem;
use pool_layout::root_at;

/// Settles the open move entry of a block of any size, which a write-ahead line has, from 0 to 7: where both roots have a
/// word, that of the root that the block moves from becomes 0, and then the entry is closed, by three events or by six. No
/// entry is open then, and each root holds what it held; the heap stays as it is, also after a crash within it, and every
/// block keeps its words.
pub fn settle_move<P: Pmem>(p: &mut P, line: u32, from: u32, to: u32)
    requires { MaySettle line (IsOpenForMove (words_of (P.state p.old)) line from to) (P.state p.old) }
    ensures step { IsQuietStep (P.state p.old) (P.state p.new) (move_events (words_of (P.state p.old)) line from to) (KeepsHeap (words_of (P.state p.old))) }
    ensures settled { IsMoveSettled (words_of (P.state p.old)) line from to (words_of (P.state p.new)) }
{
    let both = have_words(p, from, to);
    // While both roots have the word the entry says which of them is held.
    release(p, from, both);
    close_entry(p, line);
}

// Both roots have a word that is not 0.
fn have_words<P: Pmem>(p: &P, from: u32, to: u32) -> bool
    requires from { from < 2 ^ 16 }
    requires to { to < 2 ^ 16 }
    requires from_inside { root_word from < length (words_of (P.state p.now)) }
    requires to_inside { root_word to < length (words_of (P.state p.now)) }
    ensures { result ≡ (nat_lt 0 (word_at (words_of (P.state p.now)) (root_word from)) && nat_lt 0 (word_at (words_of (P.state p.now)) (root_word to))) }
{
    0 < p.load(root_at(from)) && 0 < p.load(root_at(to))
}

// The root's word becomes 0, where it is to.
fn release<P: Pmem>(p: &mut P, from: u32, both: bool)
    requires root { from < 2 ^ 16 }
    requires inside { root_word from < length (words_of (P.state p.old)) }
    requires quiet { IsQuiet (P.state p.old).events }
    requires room { HasRoom (P.state p.old) 3 }
    ensures step { IsQuietStep (P.state p.old) (P.state p.new) (release_events from both) (ReleasesOrNot (words_of (P.state p.old)) from both) }
    ensures words { words_of (P.state p.new) ≡ released (words_of (P.state p.old)) from both }
{
    if both {
        put_root(p, from, 0);
    }
}
