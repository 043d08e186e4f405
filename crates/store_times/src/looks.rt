// Looks at values: by their keys, and at their roots.

use crate::keys::{Held, dict_with, held_keys};
use crate::laps::{Best, clock, each};
use anyhow::Result;
use arena_core::Arena;
use attach_dict::Dict;
use pmem_lines::SimPmem;
use std::alloc::Global;
use std::time::Clock;

const KEYS: u32 = 4000;

const FIRST_OF_VALUE: usize = 3;

/// The sums of the first words of values, wrapped at 64 bits.
#[derive(Clone, Copy)]
pub(crate) struct Sums {
    pub(crate) got: u64,
    pub(crate) viewed: u64,
}

/// A `get` of each of 4,000 keys, beside a view of each of their roots. The sums are those of all rounds.
pub(crate) fn time_looks<C: Clock>(rt: &C, alloc: Global, rounds: u32) -> Result<(Best, Sums)> {
    let dict = dict_with(alloc, KEYS)?;
    let timed = time_looks_at(rt, alloc, &dict, rounds);
    drop(dict);
    timed
}

// The same at a dictionary with the keys.
fn time_looks_at<C: Clock>(
    rt: &C,
    alloc: Global,
    dict: &Dict<SimPmem>,
    rounds: u32,
) -> Result<(Best, Sums)> {
    let held = held_keys(alloc, KEYS)?;
    Ok(look_laps(rt, dict, &held, rounds))
}

// Both in turn, so many times.
fn look_laps<C: Clock>(rt: &C, dict: &Dict<SimPmem>, held: &[Held], rounds: u32) -> (Best, Sums) {
    let mut best = Best::new();
    let mut sums = Sums { got: 0, viewed: 0 };
    for _ in 0..rounds {
        let begun = clock(rt);
        let got = get_each(dict, held);
        let turned = clock(rt);
        let viewed = view_each(dict.arena(), held);
        let ended = clock(rt);
        best = best.or(
            each(begun, turned, held.len()),
            each(turned, ended, held.len()),
        );
        sums.got = sums.got.wrapping_add(got);
        sums.viewed = sums.viewed.wrapping_add(viewed);
    }
    (best, sums)
}

// The sum of the first words of the values of keys.
fn get_each(dict: &Dict<SimPmem>, held: &[Held]) -> u64 {
    let mut sum = 0u64;
    for held in held.iter() {
        if let Some(value) = dict.get(held.key) {
            sum = sum.wrapping_add(word_of(value, 0));
        }
    }
    sum
}

// The same by the roots of the pairs.
fn view_each(arena: &Arena<SimPmem>, held: &[Held]) -> u64 {
    let mut sum = 0u64;
    for held in held.iter() {
        if let Ok(words) = arena.view(held.root) {
            sum = sum.wrapping_add(word_of(words, FIRST_OF_VALUE));
        }
    }
    sum
}

// A word of some, or 0 where there are fewer.
fn word_of(words: &[u64], at: usize) -> u64 {
    match words.get(at) {
        Some(word) => *word,
        None => 0,
    }
}
