// What becomes of images that are migrated.
use crate::values::same;
use arena_core::Arena;
use check_tests::{Base, Put, blank, image, put};
use heap_model::Block;
use image_check::{CheckFault, check_arena};
use image_defects::Summary;
use pmem_lines::{OutOfMemory, SimPmem};
use pool_layout::{Defect, PoolHeader, header_of};
use pool_migrate::{MigrateFault, migrate_arena};
use recover::{RecoverFault, recover};
use std::alloc::Global;
use std::process::Abort;
use std::test::Fail;

// The roots of version 1, and so the most blocks of an arena.
const ROOTS: usize = 4096;

/// A block: its root, its address and its size.
pub type Held = (u32, u32, u32);

/// What is changed in an image, and what the image of version 2 has: live large extents, live slabs, and its blocks.
pub type Row<'a> = (&'a [Put], [u32; 2], &'a [Held]);

/// What became of an image that was to be migrated.
#[derive(Clone, Copy, Debug, PartialEq, Eq)]
pub enum Became {
    /// It was migrated: what its header line says, and how much it has.
    Migrated(PoolHeader, Summary),
    /// The new words are no sound image.
    Unsound,
    /// It is of this version.
    Newer { version: u32 },
    /// It has this defect.
    Refused(Defect),
}

// The words that the migration of an image makes. `None` where it is refused.
fn migrated_words(alloc: Global, words: &[u64]) -> Result<Option<Vec<u64>>, OutOfMemory> {
    match migrate_arena(alloc, words) {
        Ok(new) => Ok(Some(new)),
        Err(MigrateFault::Memory(error)) => Err(error),
        Err(_) => Ok(None),
    }
}

// What the checker says of words.
fn judged(alloc: Global, words: &[u64]) -> Result<Became, OutOfMemory> {
    let summary = match check_arena(alloc, words) {
        Ok(summary) => summary,
        Err(CheckFault::Memory(error)) => return Err(error),
        Err(CheckFault::Defect(_)) => return Ok(Became::Unsound),
    };
    match header_of(words) {
        Ok(header) => Ok(Became::Migrated(header, summary)),
        Err(_) => Ok(Became::Unsound),
    }
}

/// What became of words.
pub fn outcome_of(alloc: Global, words: &[u64]) -> Result<Became, OutOfMemory> {
    match migrate_arena(alloc, words) {
        Ok(new) => judged(alloc, &new),
        Err(MigrateFault::Memory(error)) => Err(error),
        Err(MigrateFault::Newer { version }) => Ok(Became::Newer { version }),
        Err(MigrateFault::Defect(defect)) => Ok(Became::Refused(defect)),
    }
}

/// What became of an image.
pub fn image_outcome(alloc: Global, base: &Base, changes: &[Put]) -> Result<Became, OutOfMemory> {
    let words = image(alloc, base, changes)?;
    outcome_of(alloc, &words)
}

/// What became of so many words, of which these are not 0, as far as they are among them.
pub fn outcome_with(alloc: Global, size: usize, puts: &[Put]) -> Result<Became, OutOfMemory> {
    let mut words = blank(alloc, size)?;
    put(&mut words, puts);
    outcome_of(alloc, &words)
}

// The arena that is recovered from words. `None` where they are not sound.
fn arena_of(alloc: Global, words: &[u64]) -> Result<Option<Arena<SimPmem>>, OutOfMemory> {
    if words.is_empty() || words.len() > 8_388_608 || words.len() % 8 != 0 {
        return Ok(None);
    }
    let device = SimPmem::from_image(alloc, words, 4096)?;
    match recover(alloc, device) {
        Ok(arena) => Ok(Some(arena)),
        Err((RecoverFault::Memory(error), _)) => Err(error),
        Err((RecoverFault::Defect(_), _)) => Ok(None),
    }
}

/// The header line of version 2 of an arena of so many granules, and these counts with nothing loose.
pub fn exact(
    number: u32,
    arenas: u32,
    granules: u32,
    large: u32,
    slabs: u32,
    blocks: u32,
) -> Became {
    Became::Migrated(
        PoolHeader {
            version: 2,
            number,
            arenas,
            granules,
        },
        Summary {
            large,
            slabs,
            blocks,
            loose: 0,
        },
    )
}

// An arena has these blocks: each is given by where it was in version 1.
fn holds(arena: &Arena<SimPmem>, blocks: &[Held]) -> bool {
    for (root, at, size) in blocks {
        let higher = Block {
            root: *root,
            at: at.saturating_add(147_456),
            size: *size,
        };
        if arena.block(*root) != Some(higher) {
            return false;
        }
    }
    true
}

// By how many events an arena was recovered, and whether it has these blocks.
fn recovered_by(arena: &Arena<SimPmem>, blocks: &[Held]) -> (u32, bool) {
    (arena.pmem().event_count(), holds(arena, blocks))
}

// The same of the arena of these words. `None` where they are not sound.
fn recovered(
    alloc: Global,
    words: &[u64],
    blocks: &[Held],
) -> Result<Option<(u32, bool)>, OutOfMemory> {
    match arena_of(alloc, words)? {
        Some(arena) => Ok(Some(recovered_by(&arena, blocks))),
        None => Ok(None),
    }
}

// Words become an exact image with so many large extents and slabs and just these blocks, by no event of recovery, and are not
// migrated again.
fn become_exact<R: Abort>(
    rt: &R,
    alloc: Global,
    words: &[u64],
    counts: [u32; 2],
    blocks: &[Held],
) -> Result<(), Fail> {
    let [large, slabs] = counts;
    let wanted = exact(0, 1, 25, large, slabs, blocks.len().min(ROOTS) as u32);
    same(rt, &outcome_of(alloc, words)?, &wanted);
    match migrated_words(alloc, words)? {
        Some(new) => are_exact(rt, alloc, &new, blocks),
        None => panic!(rt; "not migrated"),
    }
}

// New words are not migrated again, and are recovered with these blocks by no event.
fn are_exact<R: Abort>(rt: &R, alloc: Global, new: &[u64], blocks: &[Held]) -> Result<(), Fail> {
    same(rt, &outcome_of(alloc, new)?, &Became::Newer { version: 2 });
    same(rt, &recovered(alloc, new, blocks)?, &Some((0, true)));
    Ok(())
}

// The same of the words of an image.
fn image_becomes<R: Abort>(
    rt: &R,
    alloc: Global,
    base: &Base,
    changes: &[Put],
    counts: [u32; 2],
    blocks: &[Held],
) -> Result<(), Fail> {
    let words = image(alloc, base, changes)?;
    become_exact(rt, alloc, &words, counts, blocks)
}

/// The arena that is recovered from the migration of words. `None` where there is none.
pub fn migrated_arena(alloc: Global, words: &[u64]) -> Result<Option<Arena<SimPmem>>, OutOfMemory> {
    match migrated_words(alloc, words)? {
        Some(new) => arena_of(alloc, &new),
        None => Ok(None),
    }
}

/// The image of each row, changes over an arena of 16 granules, is migrated and has what the row says.
pub fn all_become<R: Abort>(rt: &R, alloc: Global, base: &Base, rows: &[Row]) -> Result<(), Fail> {
    for (changes, counts, blocks) in rows {
        image_becomes(rt, alloc, base, changes, *counts, blocks)?;
    }
    Ok(())
}
