// Stacks that are filled and taken from: rows that were worked by hand.
ghost use Rattle.std.specs.Prelude.{◌+◌, ◌*◌, ◌^◌, ◌<◌, ◌≤◌};
ghost use Rattle.heap_model.specs.Placement.{AreRising};

use crate::values::same;
use arrayvec::ArrayVec;
use pmem_lines::OutOfMemory;
use std::alloc::Global;
use std::process::Abort;
use std::test::Fail;
use thread_cache::ThreadCaches;

// So many addresses, `step` bytes apart.
fn row(first: u32, step: u32, count: u32) -> ArrayVec<u32, 8>
    requires apart { 0 < step }
    requires few { count ≤ 8 }
    requires fits { first + 8 * step < 2 ^ 32 }
    ensures { AreRising result.items }
{
    let mut addresses = ArrayVec::new();
    for i in 0..count {
        addresses.push(first + step * i);
    }
    addresses
}

// Caches that have a row of addresses on one stack.
fn with_row(
    alloc: Global,
    seat: u32,
    class: u8,
    first: u32,
    step: u32,
    count: u32,
) -> Result<ThreadCaches, OutOfMemory>
    requires seat { seat < 64 }
    requires class { class < 36 }
    requires apart { 0 < step }
    requires few { count ≤ 8 }
    requires fits { first + 8 * step < 2 ^ 32 }
{
    let mut caches = ThreadCaches::new(alloc)?;
    caches.refill(seat, class, &row(first, step, count));
    Ok(caches)
}

// Puts a block back that is in no stack. `false` where it is in one, and where the stack has eight.
fn put_back(caches: &mut ThreadCaches, seat: u32, class: u8, at: u32) -> bool
    requires seat { seat < 64 }
    requires class { class < 36 }
{
    !caches.holds(at) && caches.put_back(seat, class, at)
}

// Puts blocks back, one after another, and gives the first that does not come back.
fn first_refused(caches: &mut ThreadCaches, seat: u32, class: u8, blocks: &[u32]) -> Option<u32>
    requires seat { seat < 64 }
    requires class { class < 36 }
{
    for at in blocks {
        if !put_back(caches, seat, class, *at) {
            return Some(*at);
        }
    }
    None
}

// Blocks of 64 bytes of the slab at 65536. Three are taken and two put back: the one that came last goes first, and then
// the one before.
#[test]
fn last_back_goes_first(rt: HostRuntime) -> Result<(), Fail> {
    let mut caches = with_row(rt.alloc(), 0, 3, 67584, 64, 8)?;
    puts_two_back(&rt, &mut caches);
    Ok(())
}

fn puts_two_back<R: Abort>(rt: &R, caches: &mut ThreadCaches) {
    for want in [67584, 67648, 67712] {
        same(rt, &caches.pop(0, 3), &Some(want));
    }
    assert!(rt; put_back(caches, 0, 3, 67584));
    assert!(rt; put_back(caches, 0, 3, 67648));
    for want in [67648, 67584, 67776] {
        same(rt, &caches.pop(0, 3), &Some(want));
    }
}

// The ninth request of 64 bytes has refilled the stack with the blocks 8 to 15. It leaves seven, so one block may come
// back and the next one not. The slab leaves with all of its blocks.
#[test]
fn eight_at_most(rt: HostRuntime) -> Result<(), Fail> {
    let mut caches = with_row(rt.alloc(), 0, 3, 68096, 64, 8)?;
    puts_back_up_to_eight(&rt, &mut caches);
    Ok(())
}

fn puts_back_up_to_eight<R: Abort>(rt: &R, caches: &mut ThreadCaches) {
    same(rt, &caches.pop(0, 3), &Some(68096));
    assert!(rt; put_back(caches, 0, 3, 67584));
    for at in [67648, 67712, 67776, 67840, 67904, 67968, 68032, 68096] {
        assert!(rt; !put_back(caches, 0, 3, at), "for {at}");
        assert!(rt; !caches.holds(at), "for {at}");
    }
    assert!(rt; caches.holds(67584) && caches.holds(68544));
    caches.purge_slab(65536);
    assert!(rt; !caches.holds(67584) && !caches.holds(68544));
    same(rt, &(caches.pop(0, 3), caches.steal(3)), &(None, None));
}

// A slab of three blocks of 16384 bytes: seat 0 takes the first, and seat 1 the two others from the stack of seat 0.
#[test]
fn all_are_stolen(rt: HostRuntime) -> Result<(), Fail> {
    let mut caches = with_row(rt.alloc(), 0, 35, 198656, 16384, 3)?;
    steals_all(&rt, &mut caches);
    Ok(())
}

fn steals_all<R: Abort>(rt: &R, caches: &mut ThreadCaches) {
    same(rt, &caches.pop(0, 35), &Some(198656));
    same(
        rt,
        &(caches.pop(1, 35), caches.steal(35)),
        &(None, Some(215040)),
    );
    same(
        rt,
        &(caches.pop(1, 35), caches.steal(35)),
        &(None, Some(231424)),
    );
    same(
        rt,
        &(caches.pop(0, 35), caches.pop(1, 35), caches.steal(35)),
        &(None, None, None),
    );
}

// Three seats have stacks of one class: the lowest-numbered is stolen from, until it is empty. Other classes are not.
#[test]
fn lowest_seat_first(rt: HostRuntime) -> Result<(), Fail> {
    let mut caches = with_row(rt.alloc(), 40, 7, 100096, 128, 2)?;
    steals_from_three_seats(&rt, &mut caches);
    Ok(())
}

fn steals_from_three_seats<R: Abort>(rt: &R, caches: &mut ThreadCaches) {
    same(rt, &first_refused(caches, 63, 7, &[200000]), &None);
    same(rt, &first_refused(caches, 5, 7, &[300032, 300160]), &None);
    same(rt, &first_refused(caches, 0, 8, &[400000]), &None);
    for want in [
        Some(300160),
        Some(300032),
        Some(100096),
        Some(100224),
        Some(200000),
        None,
    ] {
        same(rt, &caches.steal(7), &want);
    }
    same(
        rt,
        &(caches.steal(6), caches.steal(8)),
        &(None, Some(400000)),
    );
}

// A slab leaves from stacks of several seats and classes. Its first and last bytes go, those beside it stay, in order.
#[test]
fn others_keep_their_order(rt: HostRuntime) -> Result<(), Fail> {
    let mut caches = with_row(rt.alloc(), 2, 0, 131056, 16, 0)?;
    purges_one_slab(&rt, &mut caches);
    Ok(())
}

fn purges_one_slab<R: Abort>(rt: &R, caches: &mut ThreadCaches) {
    let row = [131056, 131072, 65536, 196592, 196608];
    same(rt, &first_refused(caches, 2, 0, &row), &None);
    same(rt, &first_refused(caches, 63, 35, &[133120]), &None);
    caches.purge_slab(131072);
    for want in [Some(196608), Some(65536), Some(131056), None] {
        same(rt, &caches.pop(2, 0), &want);
    }
    same(rt, &caches.pop(63, 35), &None);
}
