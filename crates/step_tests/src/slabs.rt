// Words of a slab's header, and a slab that is made on a simulated memory of 16 granules. `morphs` has slabs that take another
// class.
mod morphs;

ghost use Rattle.pmem_lines.specs.Pmem.{IsZeroed};

use crate::steps::events::{flush, has_events, store};
use crate::values::same;
use durable_steps::write_word;
use pmem_lines::{Event, Pmem, SimPmem};
use slab_header::{
    IndexEntry, SlabState, index_of, index_word, make_slab, put_bit, put_index, state_of,
    state_word,
};
use std::process::Abort;
use std::test::Fail;

#[test]
fn state_words(rt: HostRuntime) {
    let morphing = SlabState::Morphing {
        class: 6,
        old: 7,
        entries: 1,
    };
    let morphed = SlabState::Morphed {
        class: 0,
        old: 35,
        entries: 64,
    };
    let table = [
        (0x0601, Some(SlabState::Normal { class: 6 })),
        (0x0107_0602, Some(morphing)),
        (0x4023_0003, Some(morphed)),
    ];
    for (word, expected) in table {
        let state = state_of(word);
        assert_eq!(rt; state, expected, "of {word}");
        if let Some(s) = state {
            same(&rt, &state_word(s), &word);
        }
    }
}

#[test]
fn index_words(rt: HostRuntime) {
    let table = [
        (0, Some((false, 0))),
        (0x0005_0001, Some((true, 5))),
        (0xffff_0000, Some((false, 65535))),
    ];
    for (word, expected) in table {
        let entry = index_of(word);
        assert_eq!(rt; entry.map(|e| (e.live, e.number)), expected, "of {word}");
        if let Some(e) = entry {
            same(&rt, &index_word(e), &word);
        }
    }
}

#[test]
fn words_that_say_nothing(rt: HostRuntime) {
    let no_states = [
        0x0600,
        0x0604,
        0x2401,
        0x0106_0602,
        0x0124_0602,
        0x0007_0602,
        0x4107_0603,
        0x0001_0000_0601,
        0x0007_0601,
        0x0100_0601,
    ];
    for word in no_states {
        assert_eq!(rt; state_of(word), None, "of {word}");
    }
    for word in [
        0x0005_0002,
        0x0005_8001,
        0x0001_0005_0001,
        0x8000_0000_0005_0001,
    ] {
        assert!(rt; index_of(word).is_none(), "of {word}");
    }
}

#[test]
fn slab_of_class_6(rt: HostRuntime) -> Result<(), Fail> {
    let mut device = SimPmem::zeroed(rt.alloc(), 4096, 75)?;
    make_one_of_class_6(&rt, &mut device);
    Ok(())
}

fn make_one_of_class_6<R: Abort>(rt: &R, device: &mut SimPmem)
    requires { IsZeroed device.old 4096 75 }
{
    write_word(device, 65664, 7);
    device.begin();
    make_slab(device, 65536, 6);
    same(rt, &device.event_count(), &75);
    let events = [
        (0, store(65600, 0)),
        (63, store(66104, 0)),
        (64, store(65536, 0x0601)),
        (65, flush(1024)),
        (73, flush(1032)),
        (74, Event::Fence),
    ];
    has_events(rt, device, &events);
    same(rt, &(device.load(65536), device.load(65664)), &(0x0601, 0));
}

#[test]
fn bits_and_index_of_a_slab(rt: HostRuntime) -> Result<(), Fail> {
    let mut device = SimPmem::zeroed(rt.alloc(), 4096, 10)?;
    put_bits_and_index(&rt, &mut device);
    Ok(())
}

fn put_bits_and_index<R: Abort>(rt: &R, device: &mut SimPmem)
    requires { IsZeroed device.old 4096 10 }
{
    put_bit(device, 65536, 0, true);
    put_bit(device, 65536, 1, true);
    put_bit(device, 65536, 8, true);
    put_bit(device, 65536, 0, false);
    let entry = IndexEntry {
        live: true,
        number: 5,
    };
    put_index(device, 65536, 9, entry);
    let words = [device.load(65600), device.load(65664), device.load(66184)];
    same(rt, &words, &[2, 1, 0x0005_0001]);
    same(rt, &device.left(), &0);
}
