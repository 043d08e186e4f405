// A put that is cut off, and what is opened then.
ghost use Rattle.std.specs.Prelude.{◌≡◌, IfOk};
ghost use Rattle.attach_dict.specs.Stages.{Idle};

use crate::calls::{is_new, make_ready, new_arena, opened, put};
use crate::values::same;
use attach_dict::Dict;
use pmem_lines::SimPmem;
use rand_core::SeedableRng;
use rand_xoshiro::SplitMix64;
use recover::recover;
use std::alloc::Global;
use std::process::Abort;
use std::test::Fail;

// The dictionary that is opened of the image behind the first `k` events of a device's last call, as a generator from `seed` picks.
fn reopened(alloc: Global, device: &SimPmem, k: u32, seed: u64) -> Result<Dict<SimPmem>, Fail>
    ensures { IfOk result (λ dict. dict.phase ≡ Idle) }
{
    if k > device.event_count() {
        return Err(Fail::from("no event"));
    }
    let mut picks = SplitMix64::seed_from_u64(seed);
    let image = device.image(alloc, k, &mut picks)?;
    opened_of(alloc, &image)
}

// The dictionary that is opened of an image.
fn opened_of(alloc: Global, image: &[u64]) -> Result<Dict<SimPmem>, Fail>
    ensures { IfOk result (λ dict. dict.phase ≡ Idle) }
{
    if image.len() % 8 != 0 || image.len() < 8 || image.len() > 8_388_608 {
        return Err(Fail::from("no image"));
    }
    match recover(alloc, SimPmem::from_image(alloc, image, 4096)?) {
        Ok(arena) => opened(alloc, arena),
        Err((_, device)) => {
            drop(device);
            Err(Fail::from("no arena"))
        }
    }
}

// Key 7 has one word, and there is no other key.
fn has_word<R: Abort>(rt: &R, dict: &Dict<SimPmem>, word: u64) -> Result<(), Fail> {
    same(rt, &dict.len(), &1);
    same(rt, &dict.get(7).ok_or("no value")?, &[word].as_slice());
    Ok(())
}

// One root is stale, which `tidy` frees; the map has a word all along.
fn is_tidied<R: Abort>(rt: &R, dict: &mut Dict<SimPmem>, root: u32, word: u64) -> Result<(), Fail> {
    same(rt, &dict.stale(), &1);
    assert!(rt; dict.arena().block(root).is_some());
    has_word(rt, dict, word)?;
    assert!(rt; dict.tidy());
    same(rt, &dict.stale(), &0);
    assert!(rt; dict.arena().block(root).is_none());
    has_word(rt, dict, word)
}

// So it is of the image behind the first `k` events of a device's last call, as a generator from `seed` picks.
fn is_tidied_behind<R: Abort>(
    rt: &R,
    alloc: Global,
    device: &SimPmem,
    k: u32,
    seed: u64,
    root: u32,
    word: u64,
) -> Result<(), Fail> {
    let mut dict = reopened(alloc, device, k, seed)?;
    let tidied = is_tidied(rt, &mut dict, root, word);
    drop(dict);
    tidied
}

// So it is of the images behind the first `from` events of a device's last call, and behind more of them.
fn all_cuts<R: Abort>(
    rt: &R,
    alloc: Global,
    device: &SimPmem,
    from: u32,
    root: u32,
    word: u64,
) -> Result<(), Fail> {
    for k in from..=device.event_count() {
        for seed in 0..3 {
            is_tidied_behind(rt, alloc, device, k, seed, root, word)?;
        }
    }
    Ok(())
}

// Key 7 gets the word 1, and then the word 5. Within the `fill` of that the stage's block is left. Behind the event by which the
// root of its `publish` is durable the map has the word 5, and what is left is the block of the word 1.
fn cut_put<R: Abort>(rt: &R, alloc: Global, dict: &mut Dict<SimPmem>) -> Result<(), Fail>
    requires { dict.old.phase ≡ Idle }
{
    if !is_new(dict) {
        return Err(Fail::from("a pair or a stale root"));
    }
    put(dict, 7, &[1])?;
    make_ready(dict, 7, &[5])?;
    all_cuts(rt, alloc, dict.arena().pmem(), 0, 0, 1)?;
    dict.publish();
    all_cuts(rt, alloc, dict.arena().pmem(), 6, 1, 5)
}

#[test]
fn a_put_is_cut_off(rt: HostRuntime) -> Result<(), Fail> {
    let mut dict = opened(rt.alloc(), new_arena(rt.alloc())?)?;
    let cut = cut_put(&rt, rt.alloc(), &mut dict);
    drop(dict);
    cut
}
