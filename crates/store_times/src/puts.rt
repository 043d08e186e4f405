// Puts that replace a key, by a dictionary and by hand.
ghost use Rattle.std.specs.Prelude.{◌≡◌, ◌≤◌, length, OnOk};
ghost use Rattle.pmem_lines.specs.Pmem.{words_of};
ghost use Rattle.attach_dict.specs.Dict.{most_values};
ghost use Rattle.attach_dict.specs.Stages.{Idle, AreNoneStale};

use crate::keys::{Held, VALUE_WORDS, arena_with, dict_with, held_keys};
use crate::laps::{Best, clock, each};
use anyhow::{Result, bail};
use arena_core::Arena;
use attach_dict::{Dict, StageRefusal};
use pmem_lines::SimPmem;
use std::alloc::Global;
use std::mem;
use std::time::Clock;

const KEYS: u32 = 2000;

const SEAT: u32 = 0;

const STAGE: u32 = 0;

// What is known of an arena whose pairs are put by hand: where each key is, which root is the next one, and the number of the
// last pair.
#[derive(Drop)]
struct ByHand {
    held: Vec<Held>,
    spare: u32,
    number: u64,
}

/// Puts that replace each of 2,000 keys in turn, beside the same by four calls of an arena that has the same words.
pub(crate) fn time_puts<C: Clock>(rt: &C, alloc: Global, rounds: u32) -> Result<Best> {
    let mut arena = arena_with(alloc, KEYS)?;
    let timed = time_puts_beside(rt, alloc, &mut arena, rounds);
    drop(arena);
    timed
}

// The same beside an arena with the keys.
fn time_puts_beside<C: Clock>(
    rt: &C,
    alloc: Global,
    arena: &mut Arena<SimPmem>,
    rounds: u32,
) -> Result<Best> {
    let mut hand = ByHand {
        held: held_keys(alloc, KEYS)?,
        spare: KEYS + 1,
        number: u64::from(KEYS),
    };
    time_puts_over(rt, alloc, arena, &mut hand, rounds)
}

// The same with what is known of the arena, and a dictionary of its own.
fn time_puts_over<C: Clock>(
    rt: &C,
    alloc: Global,
    arena: &mut Arena<SimPmem>,
    hand: &mut ByHand,
    rounds: u32,
) -> Result<Best> {
    let mut dict = dict_with(alloc, KEYS)?;
    let timed = put_laps(rt, &mut dict, arena, hand, rounds);
    drop(dict);
    timed
}

// Both in turn, so many times. Both arenas have the same blocks in the end.
fn put_laps<C: Clock>(
    rt: &C,
    dict: &mut Dict<SimPmem>,
    arena: &mut Arena<SimPmem>,
    hand: &mut ByHand,
    rounds: u32,
) -> Result<Best>
    requires idle { dict.old.phase ≡ Idle }
    requires tidy { AreNoneStale (words_of dict.old.arena.device) Idle }
{
    let mut best = Best::new();
    let calls = hand.held.len();
    for round in 0..rounds {
        let begun = clock(rt);
        put_each(dict, &hand.held, u64::from(round))?;
        let turned = clock(rt);
        put_each_by_hand(arena, hand, u64::from(round));
        let ended = clock(rt);
        best = best.or(each(begun, turned, calls), each(turned, ended, calls));
    }
    if !are_alike(dict.arena(), arena) {
        bail!("the puts by hand were others");
    }
    Ok(best)
}

// Each key gets a word as its values.
fn put_each(dict: &mut Dict<SimPmem>, held: &[Held], word: u64) -> Result<(), StageRefusal>
    requires idle { dict.old.phase ≡ Idle }
    requires tidy { AreNoneStale (words_of dict.old.arena.device) Idle }
    ensures idle { OnOk result (dict.new.phase ≡ Idle) }
    ensures tidy { OnOk result (AreNoneStale (words_of dict.new.arena.device) Idle) }
{
    for held in held.iter() {
        put(dict, held.key, &[word; VALUE_WORDS])?;
    }
    Ok(())
}

/// A key gets a value, and the block that it had is freed.
pub(crate) fn put(dict: &mut Dict<SimPmem>, key: u64, value: &[u64]) -> Result<(), StageRefusal>
    requires idle { dict.old.phase ≡ Idle }
    requires tidy { AreNoneStale (words_of dict.old.arena.device) Idle }
    requires few { length value.now ≤ most_values }
    ensures idle { OnOk result (dict.new.phase ≡ Idle) }
    ensures tidy { OnOk result (AreNoneStale (words_of dict.new.arena.device) Idle) }
{
    dict.stage(key, value.len() as u32)?;
    dict.fill(value);
    dict.publish();
    let _ = dict.tidy();
    Ok(())
}

// The same by hand. The block of a key comes to the spare root, and the root that it leaves is the spare one then.
fn put_each_by_hand(arena: &mut Arena<SimPmem>, hand: &mut ByHand, word: u64) {
    let ByHand {
        held,
        spare,
        number,
    } = hand;
    for held in held.iter_mut() {
        *number = number.wrapping_add(1);
        let count = VALUE_WORDS as u64;
        let words = [held.key, *number, count, word, word, word, word, word];
        if put_by_hand(arena, held.root, *spare, &words) {
            mem::swap(&mut held.root, spare);
        }
    }
}

// A block of these words comes to a root, and the block of another root goes. False where a call is refused.
fn put_by_hand(arena: &mut Arena<SimPmem>, from: u32, to: u32, words: &[u64]) -> bool
    requires { length words.now ≤ 512 }
{
    let size = 8 * words.len() as u64;
    arena.malloc_to(SEAT, STAGE, size).is_ok()
        && arena.write(STAGE, 0, words).is_ok()
        && arena.move_to(STAGE, to).is_ok()
        && arena.free_from(SEAT, from).is_ok()
}

// The stage, the root of each key and the spare one have the same words in both arenas.
fn are_alike(left: &Arena<SimPmem>, right: &Arena<SimPmem>) -> bool {
    for root in 0..KEYS + 2 {
        if left.view(root) != right.view(root) {
            return false;
        }
    }
    true
}
