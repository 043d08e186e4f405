// How many stores each line keeps in a crash, where a generator picks.
ghost use Rattle.std.specs.Prelude.{◌≡◌, ◌<◌, length};
ghost use Rattle.pmem_lines.specs.Picks.{drawn, kept_by, counts_kept};
ghost use Rattle.pmem_lines.specs.Tally.{tallies_kept, tallies_state};

use crate::tally::Tally;
use rand_core::utils::NextWord;
use rand_xoshiro::SplitMix64;

// A number of stores that a line with some not done keeps.
#[tactic(auto, unfolding(crate::specs::Picks::drawn))]
fn pick(done: u32, all: u32, picks: &mut SplitMix64) -> u32
    requires { done < all }
    ensures kept { result ≡ kept_by done all (drawn picks.old).0 }
    ensures state { picks.new ≡ (drawn picks.old).1 }
{
    let span = (all - done) as u64 + 1;
    let word = picks.next_word();
    let more = word % span;
    done + more as u32
}

// How many stores a line keeps.
fn pick_line(tally: Tally, picks: &mut SplitMix64) -> u32
    ensures kept { result ≡ (counts_kept tally.done tally.all picks.old).0 }
    ensures state { picks.new ≡ (counts_kept tally.done tally.all picks.old).1 }
{
    if tally.done < tally.all {
        pick(tally.done, tally.all, picks)
    } else {
        tally.all
    }
}

// How many stores each line keeps, by rising number.
pub(crate) fn pick_lines(tallies: &[Tally], kept: &mut [u32], picks: &mut SplitMix64)
    requires { length kept.old ≡ length tallies.now }
    ensures kept { kept.new ≡ tallies_kept tallies.now picks.old }
    ensures state { picks.new ≡ tallies_state tallies.now picks.old }
{
    for (line, tally) in tallies.iter().enumerate() {
        kept[line] = pick_line(*tally, picks);
    }
}
