// Heaps of which some granules are taken and given back.
ghost use Rattle.std.specs.Prelude.{◌≡◌, ℕ, ◌↔◌, ◌<◌, ◌≤◌, length};
ghost use Rattle.extent_index.specs.FreeSet.{IsFree};

use crate::values::same;
use extent_index::{ExtentIndex, Steps, WordTable};
use std::marker::Brand;
use std::process::Abort;
use std::sync::ledger::{Blank, Ledger};
use std::test::Fail;

// The heap has the 28 granules from 4 to 31. Held rows leave the free runs 4 to 6, 10 to 13, 20 to 22 and 30 to 31.
#[test]
fn best_fit_by_hand(rt: HostRuntime) -> Result<(), Fail> {
    let mut index = ExtentIndex::new(rt.alloc(), 32)?;
    fit_by_hand(&rt, &mut index);
    Ok(())
}

fn fit_by_hand<R: Abort>(rt: &R, index: &mut ExtentIndex)
    requires granules { index.old.granules ≡ 32 }
    requires free { (k : ℕ) → IsFree index.old k ↔ ((4 ≤ k) × (k < 32)) }
{
    same(
        rt,
        &(index.best_fit(28), index.best_fit(29)),
        &(Some(4), None),
    );
    index.take(7, 3);
    index.take(14, 6);
    index.take(23, 7);
    for (granules, start) in [(1, Some(30)), (3, Some(4)), (4, Some(10)), (5, None)] {
        assert_eq!(rt; index.best_fit(granules), start, "for {granules}");
    }
    index.take(4, 2);
    same(rt, &index.best_fit(1), &Some(6));
    index.give(14, 6);
    same(
        rt,
        &(index.best_fit(13), index.best_fit(14)),
        &(Some(10), None),
    );
}

// The best fit by the call that counts its looks.
fn counted<L: Ledger>(index: &ExtentIndex, granules: u32, blank: Blank) -> Option<u32>
    requires granules { 1 ≤ granules }
    requires name { blank.name ≡ L.name }
    requires parts { blank.parts ≡ L.parts }
    requires some { 0 < blank.parts }
{
    let mut steps = Steps::<L>::new(blank);
    index.best_fit_counted(granules, &mut steps)
}

// A heap of 1024 granules whose free runs are 5 granules at 10, 4 at 100 and 4 at 50: the lowest of the shortest that
// fits is given. Once the rows between them come back one run is left.
#[test]
fn best_fit_in_words(rt: HostRuntime) -> Result<(), Fail> {
    let mut index = ExtentIndex::new(rt.alloc(), 1024)?;
    fit_in_words(&rt, &mut index);
    Ok(())
}

fn fit_in_words<R: Abort>(rt: &R, index: &mut ExtentIndex)
    requires granules { index.old.granules ≡ 1024 }
    requires free { (k : ℕ) → IsFree index.old k ↔ ((4 ≤ k) × (k < 1024)) }
{
    index.take(4, 6);
    index.take(104, 920);
    index.take(54, 46);
    index.take(15, 35);
    for (granules, start) in [
        (3, Some(50)),
        (4, Some(50)),
        (5, Some(10)),
        (6, None),
        (5000, None),
    ] {
        assert_eq!(rt; index.best_fit(granules), start, "for {granules}");
    }
    same(rt, &counted::<Brand>(index, 3, Blank::new(1)), &Some(50));
    index.give(15, 35);
    index.give(54, 46);
    same(
        rt,
        &(index.best_fit(94), index.best_fit(95)),
        &(Some(10), None),
    );
}

// The largest heap: one run, then two, of which one is cut in its middle and made whole again.
#[test]
fn best_fit_in_the_largest_heap(rt: HostRuntime) -> Result<(), Fail> {
    let mut index = ExtentIndex::new(rt.alloc(), 4096)?;
    fit_in_the_largest(&rt, &mut index);
    Ok(())
}

fn fit_in_the_largest<R: Abort>(rt: &R, index: &mut ExtentIndex)
    requires granules { index.old.granules ≡ 4096 }
    requires free { (k : ℕ) → IsFree index.old k ↔ ((4 ≤ k) × (k < 4096)) }
{
    same(
        rt,
        &(index.best_fit(4092), index.best_fit(4093)),
        &(Some(4), None),
    );
    index.take(2000, 1);
    same(
        rt,
        &(index.best_fit(1996), index.best_fit(2095)),
        &(Some(4), Some(2001)),
    );
    index.take(3000, 95);
    same(
        rt,
        &(index.best_fit(999), index.best_fit(1001)),
        &(Some(2001), Some(3095)),
    );
    index.give(3000, 95);
    index.give(2000, 1);
    same(
        rt,
        &(index.best_fit(4092), index.best_fit(4093)),
        &(Some(4), None),
    );
}

// The last of so many words.
fn last_word<L: Ledger>(table: &WordTable, count: u32, blank: Blank) -> u64
    requires words { count ≤ length table.now }
    requires word { 1 ≤ count }
    requires name { blank.name ≡ L.name }
    requires parts { blank.parts ≡ L.parts }
    requires some { 0 < blank.parts }
{
    let mut steps = Steps::<L>::new(blank);
    table.look(count - 1, &mut steps)
}

// As many words as an index of the largest arena has, with 16 for each length of a free run.
#[test]
fn words_of_a_table(rt: HostRuntime) -> Result<(), Fail> {
    let mut table = WordTable::new(rt.alloc(), 16384)?;
    puts_into_the_last(&rt, &mut table);
    Ok(())
}

fn puts_into_the_last<R: Abort>(rt: &R, table: &mut WordTable)
    requires { length table.old ≡ 16384 }
{
    same(rt, &last_word::<Brand>(table, 16384, Blank::new(1)), &0);
    table.put(64 * 16383 + 5, true);
    same(rt, &last_word::<Brand>(table, 16384, Blank::new(1)), &32);
}
