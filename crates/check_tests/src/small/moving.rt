// Open entries: of a block that comes or goes, and of one that moves.
use crate::answers::{answer, bad_wal, counts};
use crate::images::{ONE_BLOCK, Put};
use crate::values::same;
use std::test::Fail;

// The place entry of root 5 and the block that it holds, and the move entry from root 5 to root 9.
const PLACE: u64 = 290271070060545;

const MOVE: u64 = 38655033349;

#[test]
fn place_entries(rt: HostRuntime) -> Result<(), Fail> {
    same(
        &rt,
        &answer(rt.alloc(), &ONE_BLOCK, &[(64, PLACE)])?,
        &counts(0, 1, 1, 1),
    );
    // The bit is not set.
    same(
        &rt,
        &answer(rt.alloc(), &ONE_BLOCK, &[(64, PLACE), (8200, 0)])?,
        &counts(0, 1, 1, 1),
    );
    // The root holds nothing: the block and the empty slab are loose too.
    same(
        &rt,
        &answer(rt.alloc(), &ONE_BLOCK, &[(64, PLACE), (2053, 0)])?,
        &counts(0, 1, 0, 3),
    );
    // Neither.
    same(
        &rt,
        &answer(rt.alloc(), &ONE_BLOCK, &[(64, PLACE), (2053, 0), (8200, 0)])?,
        &counts(0, 1, 0, 2),
    );
    Ok(())
}

#[test]
fn move_entries(rt: HostRuntime) -> Result<(), Fail> {
    let bad = Err(bad_wal(0, MOVE));
    let rows: [(&[Put], _); 4] = [
        (&[(64, MOVE)], counts(0, 1, 1, 1)),
        (&[(64, MOVE), (2057, 67584)], counts(0, 1, 1, 1)),
        (&[(64, MOVE), (2053, 0)], bad),
        (&[(64, MOVE), (2057, 67600)], bad),
    ];
    for (changes, wanted) in rows {
        same(&rt, &answer(rt.alloc(), &ONE_BLOCK, changes)?, &wanted);
    }
    Ok(())
}

#[test]
fn second_lines(rt: HostRuntime) -> Result<(), Fail> {
    // A second entry is bad, though each of the two may be open alone.
    same(
        &rt,
        &answer(rt.alloc(), &ONE_BLOCK, &[(64, PLACE), (80, MOVE)])?,
        &Err(bad_wal(2, MOVE)),
    );
    // Root 5 has a word that is not the address of the first entry. The move entry behind it, by which root 5 would hold
    // nothing, does not make it good.
    same(
        &rt,
        &answer(
            rt.alloc(),
            &ONE_BLOCK,
            &[(64, 290752106397697), (72, MOVE), (2057, 67584)],
        )?,
        &Err(bad_wal(0, 290752106397697)),
    );
    Ok(())
}
