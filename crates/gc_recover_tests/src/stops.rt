// Recovery is stopped at every event.
ghost use Rattle.std.specs.Prelude.{◌≡◌, ◌≤◌, ◌%◌, IfOk, length};
ghost use Rattle.pmem_lines.specs.Pmem.{words_of};

use crate::outcomes::device_of;
use check_tests::{image, put};
use gc_search_tests::ONE_BLOCK;
use pmem_lines::{OutOfMemory, Pmem, SimPmem};
use rand_core::SeedableRng;
use rand_xoshiro::SplitMix64;
use std::alloc::Global;
use std::process::Abort;
use std::test::Fail;

// Puts entries into the first chunk from the third place on: a large extent at granule 10 comes and goes until the chunk is full.
fn fill_chunk(words: &mut [u64]) {
    for entry in 2..120usize {
        let place = 6152 + 8 * (entry % 15) + entry / 15;
        let word = if entry % 2 == 0 { 33556993 } else { 2563 };
        put(words, &[(place, word)]);
    }
}

// The arena with one block whose root has none, and a large extent at granule 8, which no root names. The only chunk of its log is
// full.
fn full_log(alloc: Global) -> Result<Vec<u64>, OutOfMemory>
    ensures whole { IfOk result (λ words. length words.items % 8 ≡ 0) }
    ensures some { IfOk result (λ words. 8 ≤ length words.items) }
    ensures few { IfOk result (λ words. length words.items ≤ 8388608) }
{
    let mut words = image(alloc, &ONE_BLOCK, &[(2053, 0), (6160, 33556481)])?;
    fill_chunk(&mut words);
    Ok(words)
}

// The roots and the heap of a device are those of these words.
fn has_same_heap(device: &SimPmem, words: &[u64]) -> bool {
    let now = device.words(0, device.size_words());
    now.len() == words.len()
        && now.len() > 8192
        && now[2048..6144] == words[2048..6144]
        && now[8192..] == words[8192..]
}

// What a crash leaves after the first events is recovered, and then nothing is loose any more.
fn goes_on(alloc: Global, words: &[u64], left: &[u64]) -> Result<bool, OutOfMemory>
    requires whole { length left.now % 8 ≡ 0 }
    requires some { 8 ≤ length left.now }
    requires few { length left.now ≤ 8388608 }
{
    match device_of(alloc, left)? {
        None => Ok(false),
        Some(device) => Ok(has_same_heap(&device, words)),
    }
}

// The same of a crash after the first k events of a device.
fn is_left_well(alloc: Global, words: &[u64], device: &SimPmem, k: u32) -> Result<bool, OutOfMemory>
    requires whole { length (words_of device.now) % 8 ≡ 0 }
    requires some { 8 ≤ length (words_of device.now) }
    requires few { length (words_of device.now) ≤ 8388608 }
    requires below { k ≤ length device.now.events }
{
    let mut picks = SplitMix64::seed_from_u64(u64::from(k));
    let left = device.image(alloc, k, &mut picks)?;
    goes_on(alloc, words, &left)
}

#[test]
fn at_every_event(rt: HostRuntime) -> Result<(), Fail> {
    let words = full_log(rt.alloc())?;
    recover_and_stop(&rt, rt.alloc(), &words)
}

// The device of these words is recovered, and its recovery is stopped at every event.
fn recover_and_stop<R: Abort>(rt: &R, alloc: Global, words: &[u64]) -> Result<(), Fail>
    requires whole { length words.now % 8 ≡ 0 }
    requires some { 8 ≤ length words.now }
    requires few { length words.now ≤ 8388608 }
{
    match device_of(alloc, words)? {
        None => {
            assert!(rt; false);
            Ok(())
        }
        Some(device) => stop_at_every_event(rt, alloc, words, &device),
    }
}

// The same of a device that was recovered.
fn stop_at_every_event<R: Abort>(
    rt: &R,
    alloc: Global,
    words: &[u64],
    device: &SimPmem,
) -> Result<(), Fail>
    requires whole { length (words_of device.now) % 8 ≡ 0 }
    requires some { 8 ≤ length (words_of device.now) }
    requires few { length (words_of device.now) ≤ 8388608 }
{
    assert!(rt; has_same_heap(device, words));
    assert!(rt; device.event_count() > 6);
    for k in 0..device.event_count() {
        assert!(rt; is_left_well(alloc, words, device, k)?);
    }
    assert!(rt; is_left_well(alloc, words, device, device.event_count())?);
    Ok(())
}
