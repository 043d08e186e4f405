// First steps: a block, a record, a power cut within a call, and how it goes on. docs/library.md walks through this file.
#![tactic(auto, using(recover::proofs::Recoveries::room_of_any, arena_core::proofs::Readiness::first_room, arena_core::proofs::Readiness::first_most))]

use anyhow::{Result, bail};
use arena_core::{Arena, ArenaRoom, Moved};
use pmem_lines::SimPmem;
use rand_core::SeedableRng;
use rand_xoshiro::SplitMix64;
use recover::recover;
use std::alloc::Global;

// Who calls, a number below 64. One caller needs one.
const SEAT: u32 = 0;

// Roots, numbers below 4096: each names a block or none.
const NOTES: u32 = 0;

const RECORD: u32 = 1;

const STAGE: u32 = 4095;

fn main(rt: HostRuntime) -> Result<()> {
    let mut arena = new_arena(rt.alloc())?;
    let done = use_arena(&rt, rt.alloc(), &mut arena);
    drop(arena);
    done
}

// All that is done with the arena. It is lent, and goes in one place: each way out that lets an arena go is dear to prove.
fn use_arena(rt: &impl Print, alloc: Global, arena: &mut Arena<SimPmem>) -> Result<()> {
    write_notes(rt, arena)?;
    let _ = publish(arena, RECORD, &[1, 2, 3, 4, 5, 6])?;
    cut_power(rt, alloc, arena.pmem(), 3)?;
    cut_power(rt, alloc, arena.pmem(), 6)
}

// An arena of 16 granules, which are 4096 lines. No call has more than 2048 events.
fn new_arena(alloc: Global) -> Result<Arena<SimPmem>> {
    let device = SimPmem::zeroed(alloc, 16 * 256, 2048)?;
    let room = ArenaRoom::new(alloc, 16)?;
    Ok(Arena::format(room, device, 0, 1))
}

// A root gets a block of at least 40 bytes, and words 2 and 3 of it are written.
fn write_notes(rt: &impl Print, arena: &mut Arena<SimPmem>) -> Result<()> {
    let block = arena.malloc_to(SEAT, NOTES, 40)?;
    arena.write(NOTES, 2, &[7, 8])?;
    println!(rt; "notes: {block:?} {:?}", arena.view(NOTES)?)?;
    Ok(())
}

// The block is filled at the stage, where nobody looks for a record. Only the move makes it one, in a single step, so that
// a power cut leaves the whole record or none.
fn publish(arena: &mut Arena<SimPmem>, root: u32, record: &[u64; 6]) -> Result<Moved> {
    let _ = arena.malloc_to(SEAT, STAGE, 48)?;
    arena.write(STAGE, 0, record)?;
    Ok(arena.move_to(STAGE, root)?)
}

// The power goes after an event of the last call. A generator picks one of the images that this may leave.
fn cut_power(rt: &impl Print, alloc: Global, device: &SimPmem, event: u32) -> Result<()> {
    let mut picks = SplitMix64::seed_from_u64(0);
    let image = device.image(alloc, event.min(device.event_count()), &mut picks)?;
    println!(rt; "power cut after event {event} of {}", device.event_count())?;
    let mut arena = restart(alloc, &image)?;
    let done = go_on(rt, &mut arena);
    drop(arena);
    done
}

// An image is whole lines, 1 to 1,048,576 of them. What else may be wrong with one, `recover` finds. No recovery, of an arena of
// either version, has more than 4096 events.
fn restart(alloc: Global, image: &[u64]) -> Result<Arena<SimPmem>> {
    if image.is_empty() || image.len() % 8 != 0 || image.len() > 8_388_608 {
        bail!("not an image: {} words", image.len());
    }
    let device = SimPmem::from_image(alloc, image, 4096)?;
    recover(alloc, device).map_err(|(fault, _device)| fault.into())
}

// A block that was left at the stage never became a record, and is freed. Then the next record is published.
fn go_on(rt: &impl Print, arena: &mut Arena<SimPmem>) -> Result<()> {
    println!(rt; "  record: {:?}", arena.view(RECORD))?;
    if arena.block(STAGE).is_some() {
        println!(rt; "  stage: {:?}", arena.free_from(SEAT, STAGE)?)?;
    }
    let next = publish(arena, RECORD + 1, &[7, 8, 9, 10, 11, 12])?;
    println!(rt; "  next: {next:?}")?;
    Ok(())
}
