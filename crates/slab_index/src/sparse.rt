// The sets of words that candidates keep: the starts of slabs, for each class and for each number of live blocks.
ghost use Rattle.std.specs.Prelude.{◌≡◌, ◌+◌, ◌*◌, ◌/◌, ◌<◌, length, MatchOption};
ghost use Rattle.bit_words.specs.Numbers.{IsPut};
ghost use Rattle.slab_index.specs.Sparse.{is_sparse, HasRows, IsMarked, IsMarkedAnew, HasNoneInWord, IsFirstInWord, HasNoneInRow, IsFirstInRow};

use crate::NormalSlab;
use crate::words::{NUMBERS, Summed, put_summed};
use bit_words::{has, put};
use size_classes::has_at_least;

/// How many numbers of live blocks there are that a slab may have which takes another class: from 0 to 64.
pub(crate) const COUNTS: u32 = 65;

/// Whether so few blocks live in a slab that it may take another class.
pub(crate) fn is_sparse(slab: NormalSlab) -> bool
    requires { slab.class < 36 }
    ensures { result ≡ is_sparse slab }
{
    slab.live < COUNTS && has_at_least(slab.class, 5 * slab.live)
}

/// Puts the start of a slab into the set of its class, or out of it.
pub(crate) fn mark_class(classes: &mut [u64], start: u32, slab: NormalSlab, on: bool)
    requires start { start < 4096 }
    requires class { slab.class < 36 }
    requires size { length classes.old ≡ 2304 }
    ensures { IsPut classes.old (4096 * slab.class + start) on classes.new }
{
    put(classes, NUMBERS * u32::from(slab.class) + start, on);
}

/// Puts the start of a slab into the set of its number of live blocks, or out of it, where these are so few that the slab may
/// take another class.
pub(crate) fn mark_sparse(starts: &mut Summed, start: u32, slab: NormalSlab, on: bool)
    requires start { start < 4096 }
    requires class { slab.class < 36 }
    requires rows { HasRows starts.old.words.items starts.old.some.items }
    ensures starts { IsMarked starts.old.words.items start slab on starts.new.words.items }
    ensures rows { HasRows starts.new.words.items starts.new.some.items }
{
    if !is_sparse(slab) {
        return;
    }
    put_summed(starts, NUMBERS * slab.live + start, on);
}

/// Puts the start of a slab out of the set of one number of live blocks and into that of another.
pub(crate) fn mark_anew(starts: &mut Summed, start: u32, was: NormalSlab, slab: NormalSlab)
    requires start { start < 4096 }
    requires was_class { was.class < 36 }
    requires class { slab.class < 36 }
    requires rows { HasRows starts.old.words.items starts.old.some.items }
    ensures starts { IsMarkedAnew starts.old.words.items start was slab starts.new.words.items }
    ensures rows { HasRows starts.new.words.items starts.new.some.items }
{
    mark_sparse(starts, start, was, false);
    mark_sparse(starts, start, slab, true);
}

// Of the slabs with so many live blocks that begin among 64 granules the lowest that has another class and was not found unfit.
fn in_word(
    starts: &Summed,
    classes: &[u64],
    unfit: &[u64],
    class: u8,
    live: u32,
    at: u32,
) -> Option<u32>
    requires class { class < 36 }
    requires live { live < 65 }
    requires at { at < 64 }
    requires rows { HasRows starts.now.words.items starts.now.some.items }
    requires classes_size { length classes.now ≡ 2304 }
    requires unfit_size { length unfit.now ≡ 2304 }
    ensures { MatchOption result (HasNoneInWord starts.now.words.items classes.now unfit.now class live at) (IsFirstInWord starts.now.words.items classes.now unfit.now class live at) }
{
    if !has(&starts.some, 64 * live + at) {
        return None;
    }
    let own = (64 * u32::from(class) + at) as usize;
    let word = starts.words[(64 * live + at) as usize] & !classes[own] & !unfit[own];
    if word == 0 {
        return None;
    }
    Some(64 * at + word.trailing_zeros())
}

/// Of the slabs with so many live blocks, from 0 to 64, the lowest that has another class and was not found unfit for this one.
pub(crate) fn in_row(
    starts: &Summed,
    classes: &[u64],
    unfit: &[u64],
    class: u8,
    live: u32,
) -> Option<u32>
    requires class { class < 36 }
    requires live { live < 65 }
    requires rows { HasRows starts.now.words.items starts.now.some.items }
    requires classes_size { length classes.now ≡ 2304 }
    requires unfit_size { length unfit.now ≡ 2304 }
    ensures { MatchOption result (HasNoneInRow starts.now.words.items classes.now unfit.now class live) (IsFirstInRow starts.now.words.items classes.now unfit.now class live) }
{
    if starts.some[live as usize] == 0 {
        return None;
    }
    for at in 0..64 {
        if let Some(start) = in_word(starts, classes, unfit, class, live, at) {
            return Some(start);
        }
    }
    None
}
