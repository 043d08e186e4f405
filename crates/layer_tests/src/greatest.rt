// Numbers by root, and the greatest of them.
ghost use Rattle.std.specs.Prelude.{◌≡◌, ◌<◌, ◌≤◌, length};

use crate::values::same;
use dict_index::Numbers;
use pmem_lines::OutOfMemory;
use std::alloc::Global;
use std::process::Abort;
use std::test::Fail;

// Over three groups of roots.
const ROOTS: usize = 150;

// Sets a number, and says the greatest.
fn greatest_with(numbers: &mut Numbers, root: u32, number: u64) -> u64
    requires { root < length numbers.old }
    ensures { length numbers.new ≡ length numbers.old }
{
    numbers.set(root, number);
    numbers.greatest()
}

// Takes a number, and says the greatest.
fn greatest_without(numbers: &mut Numbers, root: u32) -> u64
    requires { root < length numbers.old }
    ensures { length numbers.new ≡ length numbers.old }
{
    numbers.clear(root);
    numbers.greatest()
}

#[test]
fn numbers_by_hand(rt: HostRuntime) -> Result<(), Fail> {
    let mut numbers = Numbers::with_room(rt.alloc(), ROOTS as u32)?;
    rise_and_fall(&rt, &mut numbers);
    Ok(())
}

fn rise_and_fall<R: Abort>(rt: &R, numbers: &mut Numbers)
    requires { length numbers.old ≡ 150 }
{
    same(rt, &(numbers.greatest(), numbers.get(149)), &(0, 0));
    same(rt, &greatest_with(numbers, 70, 5), &5);
    same(rt, &greatest_with(numbers, 71, 3), &5);
    same(rt, &greatest_with(numbers, 149, u64::MAX), &u64::MAX);
    // It falls to that of another group, in its group, and to none.
    same(rt, &greatest_without(numbers, 149), &5);
    same(rt, &greatest_with(numbers, 70, 2), &3);
    same(rt, &(numbers.get(70), numbers.get(71)), &(2, 3));
    same(rt, &greatest_without(numbers, 71), &2);
    same(rt, &greatest_without(numbers, 0), &2);
    same(rt, &greatest_without(numbers, 70), &0);
}
