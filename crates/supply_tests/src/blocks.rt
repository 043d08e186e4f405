// Slabs with their available blocks: rows that were worked by hand.
ghost use Rattle.std.specs.Prelude.{◌≡◌, ℕ, None};
ghost use Rattle.slab_index.specs.SlabSet.{class_in};

use crate::values::same;
use slab_index::{SlabBlock, SlabCounts, SlabIndex};
use std::process::Abort;
use std::test::Fail;

// A slab takes another class: it is removed and added again, and the blocks that overlap an old one are taken. Two old
// blocks of 16 bytes, 0 and 5, lie in the blocks 0 and 1 of 64 bytes.
#[test]
fn a_slab_takes_another_class(rt: HostRuntime) -> Result<(), Fail> {
    let mut index = SlabIndex::new(rt.alloc(), 24)?;
    takes_another_class(&rt, &mut index);
    Ok(())
}

fn takes_another_class<R: Abort>(rt: &R, index: &mut SlabIndex)
    requires granules { index.old.granules ≡ 24 }
    requires none { (s : ℕ) → class_in index.old s ≡ None }
{
    index.add(4, 0);
    for number in [0, 5] {
        if index.is_available(4, number) {
            index.take(4, number);
        }
    }
    if index.class_at(4) == Some(0) {
        index.remove(4);
        index.add(4, 3);
    }
    let mut covered = [0; 64];
    covered[0] = 3;
    if index.class_at(4) == Some(3) {
        index.take_all(4, &covered);
    }
    same(rt, &(index.class_at(4), index.lowest(0)), &(Some(3), None));
    let first = SlabBlock {
        start: 4,
        number: 2,
    };
    same(rt, &index.lowest(3), &Some(first));
    assert!(rt; !index.is_available(4, 1) && index.is_available(4, 991));
    assert!(rt; !index.is_available(4, 992));
}

// The last slab of the largest arena, of the class with the most blocks.
#[test]
fn slabs_of_the_largest_arena(rt: HostRuntime) -> Result<(), Fail> {
    let mut index = SlabIndex::new(rt.alloc(), 1024)?;
    adds_the_last_slab(&rt, &mut index);
    Ok(())
}

fn adds_the_last_slab<R: Abort>(rt: &R, index: &mut SlabIndex)
    requires granules { index.old.granules ≡ 1024 }
    requires none { (s : ℕ) → class_in index.old s ≡ None }
{
    same(rt, &(index.class_at(1020), index.lowest(0)), &(None, None));
    index.add(1020, 0);
    let first = SlabBlock {
        start: 1020,
        number: 0,
    };
    same(rt, &index.lowest(0), &Some(first));
    assert!(rt; index.is_available(1020, 3967) && !index.is_available(1020, 3968));
}

// A count of the live blocks of that slab.
#[test]
fn lives_of_the_largest_arena(rt: HostRuntime) -> Result<(), Fail> {
    let mut lives = SlabCounts::new(rt.alloc(), 1024)?;
    same(&rt, &lives.at(1020), &0);
    lives.raise(1020);
    same(
        &rt,
        &(lives.at(1020), lives.at(1023), lives.at(1024)),
        &(1, 0, 0),
    );
    Ok(())
}
