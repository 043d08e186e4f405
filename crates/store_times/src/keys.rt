// Dictionaries with keys of which none was put twice.
ghost use Rattle.std.specs.Prelude.{◌≡◌, ◌≤◌, IfOk, OnOk};
ghost use Rattle.pmem_lines.specs.Pmem.{words_of};
ghost use Rattle.attach_dict.specs.Stages.{Idle, AreNoneStale};

use crate::puts::put;
use anyhow::{Result, bail};
use arena_core::{Arena, ArenaRoom};
use attach_dict::{Dict, StageRefusal};
use pmem_lines::{OutOfMemory, SimPmem};
use std::alloc::Global;

// Granules of an arena that has room for a block for every root.
const GRANULES: u32 = 64;

// An odd number, by which keys are spread over all numbers of 64 bits.
const SPREAD: u64 = 0x9e37_79b9_7f4a_7c15;

// A prime, by which the order of calls is another than that of the roots.
const STRIDE: u32 = 1237;

/// How many words a value has. Its block has three more, and 64 bytes in all.
pub(crate) const VALUE_WORDS: usize = 5;

/// A key, and the root whose block is its pair.
#[derive(Clone, Copy)]
pub(crate) struct Held {
    pub(crate) key: u64,
    pub(crate) root: u32,
}

// The key that is put behind `before` others.
fn key_of(before: u32) -> u64 {
    u64::from(before).wrapping_mul(SPREAD)
}

/// The keys of a dictionary that `dict_with` makes, in an order that is neither theirs nor that of the roots.
pub(crate) fn held_keys(alloc: Global, count: u32) -> Result<Vec<Held>, OutOfMemory>
    requires { count ≤ 4095 }
{
    let mut held = Vec::with_capacity(alloc, count as usize)?;
    for call in 0..count {
        let before = call * STRIDE % count;
        held.push(Held {
            key: key_of(before),
            root: before + 1,
        })?;
    }
    Ok(held)
}

/// A dictionary with so many keys, each put once. The first has root 1, and so on.
pub(crate) fn dict_with(alloc: Global, count: u32) -> Result<Dict<SimPmem>>
    ensures idle { IfOk result (λ dict. dict.phase ≡ Idle) }
    ensures tidy { IfOk result (λ dict. AreNoneStale (words_of dict.arena.device) Idle) }
{
    let mut dict = opened(alloc, new_arena(alloc)?)?;
    match fill(&mut dict, count) {
        Ok(()) => Ok(dict),
        Err(error) => {
            drop(dict);
            Err(error)
        }
    }
}

/// The arena of such a dictionary.
pub(crate) fn arena_with(alloc: Global, count: u32) -> Result<Arena<SimPmem>> {
    let dict = dict_with(alloc, count)?;
    Ok(dict.into_arena())
}

// An arena in which no root names a block.
fn new_arena(alloc: Global) -> Result<Arena<SimPmem>, OutOfMemory> {
    let device = SimPmem::zeroed(alloc, 256 * GRANULES, 2048)?;
    let room = ArenaRoom::new(alloc, GRANULES)?;
    Ok(Arena::format(room, device, 0, 1))
}

// The dictionary of an arena that has one.
fn opened(alloc: Global, arena: Arena<SimPmem>) -> Result<Dict<SimPmem>>
    ensures { IfOk result (λ dict. dict.phase ≡ Idle) }
{
    match Dict::open(alloc, arena) {
        Ok(dict) => Ok(dict),
        Err((fault, arena)) => {
            drop(arena);
            Err(fault.into())
        }
    }
}

// So many keys are put into a dictionary in which nothing is staged. No root of it is stale.
fn fill(dict: &mut Dict<SimPmem>, count: u32) -> Result<()>
    requires { dict.old.phase ≡ Idle }
    ensures idle { OnOk result (dict.new.phase ≡ Idle) }
    ensures tidy { OnOk result (AreNoneStale (words_of dict.new.arena.device) Idle) }
{
    if dict.tidy() {
        bail!("a stale root");
    }
    Ok(put_new(dict, count)?)
}

// So many keys are put. The first word of each value is how many keys there are with it.
fn put_new(dict: &mut Dict<SimPmem>, count: u32) -> Result<(), StageRefusal>
    requires idle { dict.old.phase ≡ Idle }
    requires tidy { AreNoneStale (words_of dict.old.arena.device) Idle }
    ensures idle { OnOk result (dict.new.phase ≡ Idle) }
    ensures tidy { OnOk result (AreNoneStale (words_of dict.new.arena.device) Idle) }
{
    for before in 0..count {
        put(dict, key_of(before), &[u64::from(before) + 1; VALUE_WORDS])?;
    }
    Ok(())
}
