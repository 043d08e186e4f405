// Turns, lengths and lost exchanges.
use crate::jobs::{Ask, Look, TryBeside};
use crate::threads::{ask_on_two_threads, lock_of_two};
use pmem_lines::OutOfMemory;

// A seat can have no turn inside another's, and can have one afterwards.
#[test]
fn tries_inside_a_turn(rt: HostRuntime) -> Result<(), OutOfMemory> {
    let (lock, mut zero, one) = lock_of_two(rt.alloc())?;
    let beside = TryBeside {
        seat: 0,
        lock: &lock,
        other: one,
        other_seat: 1,
    };
    let (had, mut one) = lock.with_turn(&rt, &mut zero, beside);
    assert!(&rt; !had);
    assert!(&rt; lock.try_turn(&mut one, Look { seat: 1 }).is_ok());
    Ok(())
}

// A seat that is split off reads the length, and is joined into the other one.
#[test]
fn a_guest_is_joined(rt: HostRuntime) -> Result<(), OutOfMemory> {
    let (lock, mut zero, mut one) = lock_of_two(rt.alloc())?;
    let mut guest = lock.split(&mut one);
    lock.with_turn(&rt, &mut zero, Ask { seat: 0, size: 64 })?;
    assert_eq!(&rt; lock.published(&mut guest), 1);
    lock.join(&mut one, guest);
    lock.join(&mut one, zero);
    let ended = vec![in rt.alloc(); one]?;
    assert_eq!(&rt; lock.close(ended).len(), 1);
    Ok(())
}

#[test]
fn two_threads(rt: HostRuntime) -> Result<(), OutOfMemory> {
    let tally = ask_on_two_threads(&rt, rt.alloc(), &[1, 2, 3], &[4, 5])?;
    assert_eq!(&rt; tally.len(), 5);
    Ok(())
}
