// What is printed, byte by byte.
use crate::values::same;
use heap_model::{Block, Call, Entry, Reply};
use pool_layout::Defect;
use std::alloc::Global;
use std::process::Abort;
use std::test::Fail;
use trace_text::{
    CrashSide, Refusal, write_arena, write_crash, write_defect, write_entry, write_heap,
    write_recovered, write_refusal, write_summary,
};

// The first seat asks for a block.
fn asked(root: u32, size: u64, reply: Reply) -> Entry {
    Entry {
        seat: 0,
        call: Call::Malloc { root, size },
        reply,
    }
}

// A block of two granules.
fn block(root: u32, at: u32) -> Block {
    Block {
        root,
        at,
        size: 32768,
    }
}

#[test]
fn prints_an_arena(rt: HostRuntime) {
    let mut out = Vec::new(rt.alloc());
    print_an_arena(&rt, &mut out);
}

fn print_an_arena<R: Abort>(rt: &R, out: &mut Vec<u8>) {
    let size = 32768;
    let journal = [
        asked(5, 1, Reply::Placed { at: 65536, size }),
        asked(7, 64, Reply::Placed { at: 98304, size }),
        asked(5, 3, Reply::Occupied { at: 65536 }),
    ];
    let blocks = [block(5, 65536), block(7, 98304)];
    assert!(rt; write_arena(out, 0, 3).is_ok());
    for entry in journal {
        assert!(rt; write_entry(out, entry).is_ok());
    }
    assert!(rt; write_heap(out, &blocks).is_ok());
    let want =
        b"arena 0 calls 3\n0 m 5 1 placed 65536 32768\n0 m 7 64 placed 98304 32768\n0 m 5 3 occupied 65536\nheap 2\n5 65536 32768\n7 98304 32768\n";
    same(rt, &out.as_slice(), &&want[..]);
}

#[test]
fn prints_crashes_and_refusals(rt: HostRuntime) {
    let mut out = Vec::new(rt.alloc());
    print_crashes_and_refusals(&rt, &mut out);
}

fn print_crashes_and_refusals<R: Abort>(rt: &R, out: &mut Vec<u8>) {
    let blocks = [block(4095, 65536)];
    assert!(rt; write_crash(out, 3, CrashSide::Before, &blocks).is_ok());
    assert!(rt; write_crash(out, 0, CrashSide::Same, &[]).is_ok());
    assert!(rt; write_refusal(out, Refusal::BadLine { line: 2 }).is_ok());
    assert!(rt;
        write_refusal(
            out,
            Refusal::NoArena {
                arena: 1,
                arenas: 1
            }
        )
        .is_ok()
    );
    assert!(rt;
        write_refusal(
            out,
            Refusal::NoEvent {
                event: 9,
                events: 8
            }
        )
        .is_ok()
    );
    let want =
        b"call 3 before\nheap 1\n4095 65536 32768\ncall 0 same\nheap 0\nbad line 2\nno arena 1 of 1\nno event 9 of 8\n";
    same(rt, &out.as_slice(), &&want[..]);
}

// Each call, and each answer that only some other call gets.
#[test]
fn prints_calls_and_answers(rt: HostRuntime) -> Result<(), Fail> {
    let [at, size] = [67584, 112];
    let free = Call::Free { root: 4095 };
    let write = Call::Write {
        root: 1,
        index: 13,
        value: u64::MAX,
    };
    let read = Call::Read { root: 1, index: 0 };
    let moved = Call::Move { from: 5, to: 9 };
    let rows: [(Call, Reply, &[u8]); 11] = [
        (free, Reply::Freed { at, size }, b"f 4095 freed 67584 112\n"),
        (free, Reply::NoRoot, b"f 4095 no root\n"),
        (free, Reply::Empty, b"f 4095 empty\n"),
        (write, Reply::Wrote, b"w 1 13 18446744073709551615 wrote\n"),
        (
            write,
            Reply::OutOfRange,
            b"w 1 13 18446744073709551615 out of range\n",
        ),
        (read, Reply::Value { word: 7 }, b"r 1 0 value 7\n"),
        (moved, Reply::Moved { at, size }, b"v 5 9 moved 67584 112\n"),
        (moved, Reply::Occupied { at }, b"v 5 9 occupied 67584\n"),
        (
            asked(5, 0, Reply::ZeroSize).call,
            Reply::ZeroSize,
            b"m 5 0 zero size\n",
        ),
        (
            asked(5, 1, Reply::NoSpace).call,
            Reply::NoSpace,
            b"m 5 1 no space\n",
        ),
        (
            asked(5, u64::MAX, Reply::TooLarge).call,
            Reply::TooLarge,
            b"m 5 18446744073709551615 too large\n",
        ),
    ];
    for (call, reply, text) in rows {
        print_call(&rt, rt.alloc(), call, reply, text)?;
    }
    Ok(())
}

// The last seat makes a call, and gets this answer.
fn print_call<R: Abort>(
    rt: &R,
    alloc: Global,
    call: Call,
    reply: Reply,
    text: &[u8],
) -> Result<(), Fail> {
    let mut out = Vec::new(alloc);
    write_entry(
        &mut out,
        Entry {
            seat: 63,
            call,
            reply,
        },
    )?;
    assert!(rt; out.as_slice().strip_prefix(b"63 ") == Some(text));
    Ok(())
}

#[test]
fn prints_images(rt: HostRuntime) -> Result<(), Fail> {
    let mut out = Vec::new(rt.alloc());
    print_images(&rt, &mut out)
}

fn print_images<R: Abort>(rt: &R, out: &mut Vec<u8>) -> Result<(), Fail> {
    write_summary(out, 15, 510, 255, 4096, 3)?;
    write_recovered(out, 0, &[])?;
    write_recovered(out, 15, &[block(5, 65536), block(4095, 98304)])?;
    write_defect(out, 3, &Defect::BadLength { have: 1, need: 64 })?;
    write_defect(out, 3, &Defect::StrayBit { at: 67584 })?;
    let want =
        b"arena 15 large 510 slabs 255 blocks 4096 loose 3\narena 0 heap 0\narena 15 heap 2\n5 65536 32768\n4095 98304 32768\nbad length 1 64\narena 3 stray bit 67584\n";
    same(rt, &out.as_slice(), &&want[..]);
    Ok(())
}
