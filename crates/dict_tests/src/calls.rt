// The calls of a dictionary, one by one.
ghost use Rattle.std.specs.Prelude.{◌≡◌, ◌≢◌, ◌≤◌, IsTrue, length, Err, OnOk, IfOk};
ghost use Rattle.attach_dict.specs.declared.refusal.StageRefusal.TheVariants.{NumbersSpent};
ghost use Rattle.attach_dict.specs.Calls.{KeepsNumbers};
ghost use Rattle.attach_dict.specs.Dict.{most_values};
ghost use Rattle.attach_dict.specs.Stages.{Idle, HasFilledPhase};
ghost use Rattle.dict_tests.specs.Rest.{IsAtRest, IsNew, HasNumber, RaisesNumbers};

use crate::values::same;
use arena_core::{Arena, ArenaRoom};
use attach_dict::{Dict, StageRefusal, law_of_stale_counts};
use pmem_lines::{OutOfMemory, SimPmem};
use std::alloc::Global;
use std::process::Abort;
use std::test::Fail;

/// An arena of 16 granules in which no root names a block.
pub(crate) fn new_arena(alloc: Global) -> Result<Arena<SimPmem>, OutOfMemory> {
    let device = SimPmem::zeroed(alloc, 4096, 2048)?;
    let room = ArenaRoom::new(alloc, 16)?;
    Ok(Arena::format(room, device, 0, 1))
}

/// The dictionary of an arena that has one.
pub(crate) fn opened(alloc: Global, arena: Arena<SimPmem>) -> Result<Dict<SimPmem>, Fail>
    ensures { IfOk result (λ dict. dict.phase ≡ Idle) }
{
    match Dict::open(alloc, arena) {
        Ok(dict) => Ok(dict),
        Err((_, arena)) => {
            drop(arena);
            Err(Fail::from("no dictionary"))
        }
    }
}

/// True only where there is no pair and no root is stale. Nothing is staged.
pub(crate) fn is_new(dict: &Dict<SimPmem>) -> bool
    requires { dict.now.phase ≡ Idle }
    ensures { IsTrue result → IsNew dict.now }
{
    law_of_stale_counts();
    dict.stale() == 0 && dict.is_empty()
}

/// A pair is made ready.
pub(crate) fn make_ready(
    dict: &mut Dict<SimPmem>,
    key: u64,
    value: &[u64],
) -> Result<(), StageRefusal>
    requires rest { IsAtRest dict.old }
    requires few { length value.now ≤ most_values }
    ensures ready { OnOk result (HasFilledPhase dict.new.phase) }
    ensures numbers { OnOk result (KeepsNumbers dict.old dict.new) }
    ensures left { HasNumber dict.old → result ≢ Err NumbersSpent }
{
    dict.stage(key, value.len() as u32)?;
    dict.fill(value);
    Ok(())
}

/// A key gets a value, and what it had is freed.
pub(crate) fn put(dict: &mut Dict<SimPmem>, key: u64, value: &[u64]) -> Result<(), StageRefusal>
    requires rest { IsAtRest dict.old }
    requires few { length value.now ≤ most_values }
    ensures rest { OnOk result (IsAtRest dict.new) }
    ensures numbers { OnOk result (RaisesNumbers dict.old dict.new) }
    ensures left { HasNumber dict.old → result ≢ Err NumbersSpent }
{
    make_ready(dict, key, value)?;
    dict.publish();
    let _ = dict.tidy();
    Ok(())
}

// A key gets the words below a number as its values, one behind the other. There is no pair, so the numbers last.
fn put_each(dict: &mut Dict<SimPmem>, key: u64, end: u32) -> Result<(), StageRefusal>
    requires { IsNew dict.old }
    ensures rest { OnOk result (IsAtRest dict.new) }
    ensures left { result ≢ Err NumbersSpent }
{
    for word in 0..end {
        put(dict, key, &[u64::from(word)])?;
    }
    Ok(())
}

// A key goes.
fn drop_key(dict: &mut Dict<SimPmem>, key: u64) -> Result<(), Fail>
    requires { IsAtRest dict.old }
    ensures { OnOk result (IsAtRest dict.new) }
{
    match dict.remove(key) {
        Ok(()) => Ok(()),
        Err(_) => Err(Fail::from("no such key")),
    }
}

// A pair that is made ready goes again.
fn make_and_cancel(dict: &mut Dict<SimPmem>, key: u64) -> Result<(), StageRefusal>
    requires { IsAtRest dict.old }
    ensures { OnOk result (IsAtRest dict.new) }
{
    make_ready(dict, key, &[3])?;
    dict.cancel();
    Ok(())
}

// Three keys, of which one gets four values and one goes; and one that is not put in the end.
fn change(dict: &mut Dict<SimPmem>) -> Result<(), Fail>
    requires { dict.old.phase ≡ Idle }
    ensures { OnOk result (IsAtRest dict.new) }
{
    if !is_new(dict) {
        return Err(Fail::from("a pair or a stale root"));
    }
    put_each(dict, 7, 3)?;
    put(dict, u64::MAX, &[])?;
    put(dict, 7, &[5])?;
    put(dict, 3, &[8, 8, 8])?;
    make_and_cancel(dict, 9)?;
    drop_key(dict, 3)
}

// Key 7 has the word 5 and the greatest key has none, and there is no other.
fn looks<R: Abort>(rt: &R, dict: &Dict<SimPmem>) -> Result<(), Fail> {
    same(rt, &dict.len(), &2);
    same(rt, &dict.stale(), &0);
    same(rt, &dict.get(7).ok_or("no value")?, &[5].as_slice());
    same(rt, &dict.get(u64::MAX).ok_or("no value")?.len(), &0);
    assert!(rt; dict.get(9).is_none());
    same(rt, &dict.next_from(0).ok_or("no key")?.0, &7);
    same(rt, &dict.next_from(8).ok_or("no key")?.0, &u64::MAX);
    Ok(())
}

// The same of what is opened of the dictionary's arena.
fn looks_again<R: Abort>(rt: &R, alloc: Global, dict: Dict<SimPmem>) -> Result<(), Fail> {
    let again = opened(alloc, dict.into_arena())?;
    let looked = looks(rt, &again);
    drop(again);
    looked
}

// It is changed, and looked at.
fn changes<R: Abort>(rt: &R, dict: &mut Dict<SimPmem>) -> Result<(), Fail>
    requires { dict.old.phase ≡ Idle }
    ensures { OnOk result (IsAtRest dict.new) }
{
    change(dict)?;
    looks(rt, dict)
}

#[test]
fn pairs_are_put_read_and_removed(rt: HostRuntime) -> Result<(), Fail> {
    let mut dict = opened(rt.alloc(), new_arena(rt.alloc())?)?;
    match changes(&rt, &mut dict) {
        Ok(()) => looks_again(&rt, rt.alloc(), dict),
        Err(fail) => {
            drop(dict);
            Err(fail)
        }
    }
}

// The number of the pair that a root has, on the words of its block.
fn number_at(dict: &Dict<SimPmem>, root: u32) -> Result<u64, Fail> {
    let words = dict.arena().view(root)?;
    Ok(*words.get(1).ok_or("no pair")?)
}

// Two keys, of which the second goes, and a third: its number is that of the second, as the greatest number fell with that.
fn put_around_a_removal<R: Abort>(rt: &R, dict: &mut Dict<SimPmem>) -> Result<(), Fail>
    requires { dict.old.phase ≡ Idle }
{
    if !is_new(dict) {
        return Err(Fail::from("a pair or a stale root"));
    }
    put(dict, 1, &[])?;
    put(dict, 2, &[])?;
    same(rt, &number_at(dict, 1)?, &1);
    same(rt, &number_at(dict, 2)?, &2);
    drop_key(dict, 2)?;
    put(dict, 3, &[])?;
    same(rt, &number_at(dict, 2)?, &2);
    Ok(())
}

#[test]
fn numbers_fall_with_their_pairs(rt: HostRuntime) -> Result<(), Fail> {
    let mut dict = opened(rt.alloc(), new_arena(rt.alloc())?)?;
    let put = put_around_a_removal(&rt, &mut dict);
    drop(dict);
    put
}
