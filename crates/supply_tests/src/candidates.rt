// Slabs that may take another class: rows that were worked by hand.
ghost use Rattle.std.specs.Prelude.{◌≡◌, length};

use crate::values::same;
use slab_index::{Candidate, Candidates, UnfitSlabs};
use std::alloc::Global;
use std::process::Abort;
use std::test::Fail;

// At most 64 live blocks, and at most a fifth of those that a slab holds: of class 33 it holds 5, of class 29 ten.
#[test]
fn fit_at_the_bounds(rt: HostRuntime) -> Result<(), Fail> {
    let unfit = UnfitSlabs::new(rt.alloc())?;
    finds_at_the_bounds(&rt, rt.alloc(), &unfit)
}

fn finds_at_the_bounds<R: Abort>(rt: &R, alloc: Global, unfit: &UnfitSlabs) -> Result<(), Fail> {
    let mut candidates = Candidates::new(alloc, 4096)?;
    puts_at_the_bounds(rt, &mut candidates, unfit);
    Ok(())
}

fn puts_at_the_bounds<R: Abort>(rt: &R, candidates: &mut Candidates, unfit: &UnfitSlabs)
    requires { length candidates.old ≡ 4096 }
{
    for (start, class, live, is) in [
        (4, 33, 1, true),
        (4095, 33, 1, true),
        (8, 33, 2, false),
        (12, 29, 2, true),
        (12, 29, 3, false),
        (64, 0, 64, true),
        (64, 0, 65, false),
        (63, 34, 1, false),
    ] {
        candidates.put(start, class, live);
        let found = candidates.first(unfit, 1) == Some(Candidate { start, live });
        assert_eq!(rt; found, is, "at {start} with {live}");
        candidates.remove(start);
        same(rt, &candidates.first(unfit, 1), &None);
    }
}

// The fewest live blocks, the lowest start among equals, and none of the class itself. One that is noted as unfit is passed over,
// until it is forgotten.
#[test]
fn fewest_then_lowest(rt: HostRuntime) -> Result<(), Fail> {
    let mut unfit = UnfitSlabs::new(rt.alloc())?;
    finds_in_order(&rt, rt.alloc(), &mut unfit)
}

fn finds_in_order<R: Abort>(rt: &R, alloc: Global, unfit: &mut UnfitSlabs) -> Result<(), Fail> {
    let mut candidates = Candidates::new(alloc, 1024)?;
    notes_and_forgets(rt, &mut candidates, unfit);
    Ok(())
}

fn notes_and_forgets<R: Abort>(rt: &R, candidates: &mut Candidates, unfit: &mut UnfitSlabs)
    requires { length candidates.old ≡ 1024 }
{
    candidates.put(300, 0, 7);
    candidates.put(200, 3, 2);
    candidates.put(100, 0, 2);
    candidates.put(20, 5, 9);
    candidates.put(400, 5, 2);
    for (start, live) in [(100, 2), (200, 2), (300, 7)] {
        same(
            rt,
            &candidates.first(unfit, 5),
            &Some(Candidate { start, live }),
        );
        unfit.note(start, 5);
    }
    same(rt, &candidates.first(unfit, 5), &None);
    unfit.forget(200);
    same(
        rt,
        &candidates.first(unfit, 5),
        &Some(Candidate {
            start: 200,
            live: 2,
        }),
    );
    unfit.forget_class(5);
    same(
        rt,
        &candidates.first(unfit, 5),
        &Some(Candidate {
            start: 100,
            live: 2,
        }),
    );
}
