// Generated work: what it prints, and what it leaves.
use crate::runs::{all_tell, ends, ends_with};
use crate::values::same;
use nvheap::{KeptShelf, MemSink, MemSource, OpenGate, Status};
use pmem_lines::Pmem;
use std::process::Abort;
use std::test::Fail;

// The one call of `gen 1 0` is `0 0 m 431 1892`. The numbers of the others were worked by a model of the calls alone: no arena
// comes to its end, so that the places of blocks do not show, nor which slab takes another class.
const WORKS: [(&str, u8, &str); 3] = [
    (
        "gen 1 0",
        0,
        "arena 0 calls 1 placed 1 freed 0 refused 0 live 1 bytes 2048
arena 1 calls 0 placed 0 freed 0 refused 0 live 0 bytes 0
arena 2 calls 0 placed 0 freed 0 refused 0 live 0 bytes 0
arena 3 calls 0 placed 0 freed 0 refused 0 live 0 bytes 0
",
    ),
    (
        "gen 7 18446744073709551615",
        0,
        "arena 0 calls 2 placed 2 freed 0 refused 0 live 2 bytes 1664
arena 1 calls 2 placed 1 freed 0 refused 1 live 1 bytes 896
arena 2 calls 2 placed 1 freed 0 refused 1 live 1 bytes 1792
arena 3 calls 1 placed 1 freed 0 refused 0 live 1 bytes 384
",
    ),
    (
        "gen 200 7",
        0,
        "arena 0 calls 50 placed 27 freed 1 refused 22 live 26 bytes 75760
arena 1 calls 50 placed 27 freed 0 refused 23 live 27 bytes 131760
arena 2 calls 50 placed 20 freed 0 refused 30 live 20 bytes 120160
arena 3 calls 50 placed 24 freed 0 refused 26 live 24 bytes 78272
",
    ),
];

// Words that say no generated work.
const NO_WORKS: [(&str, u8, &str); 10] = [
    ("gen", 1, ""),
    ("gen 1", 1, ""),
    ("gen 1 0 0", 1, ""),
    ("gen 0 1", 1, ""),
    ("gen 01 1", 1, ""),
    ("gen 1 01", 1, ""),
    ("gen 1000001 1", 1, ""),
    ("gen 1 18446744073709551616", 1, ""),
    ("gen -1 1", 1, ""),
    ("Gen 1 1", 1, ""),
];

// The numbers were worked by a model of calls and places, in which each arena's slabs take other classes more than 70 times,
// and some blocks find no space.
const MUCH: &str = "arena 0 calls 50000 placed 8837 freed 8169 refused 24955 live 668 bytes 2672720
arena 1 calls 50000 placed 8914 freed 8226 refused 24900 live 688 bytes 2542672
arena 2 calls 50000 placed 8777 freed 8083 refused 25067 live 694 bytes 2274464
arena 3 calls 50000 placed 8762 freed 8057 refused 25094 live 705 bytes 2445920
";

// Whatever the input is; and much comes out the same twice.
#[test]
fn works(rt: HostRuntime) -> Result<(), Fail> {
    all_tell(&rt, rt.alloc(), b"no trace", &WORKS)?;
    all_tell(&rt, rt.alloc(), b"", &NO_WORKS)?;
    let rows = [("gen 200000 7", 0, MUCH), ("gen 200000 7", 0, MUCH)];
    all_tell(&rt, rt.alloc(), b"", &rows)
}

#[test]
fn nothing_is_read(rt: HostRuntime) -> Result<(), Fail> {
    let alloc = rt.alloc();
    let mut source = MemSource::new(b"", &[0]);
    let mut sink = MemSink::new(alloc, &[], usize::MAX);
    same(
        &rt,
        &ends(&rt, alloc, "gen 5 5", &mut source, &mut sink)?,
        &Status::Done,
    );
    Ok(())
}

// The word of a root on the device in a place of a shelf, where it stands there.
fn root_at(shelf: &KeptShelf, arena: u32, root: u32) -> Option<u64> {
    match shelf.device(arena % 16) {
        Some(device) if root < 4096 && device.size_words() >= 32_768 => {
            Some(device.load(16384 + 8 * root))
        }
        _ => None,
    }
}

#[test]
fn devices_stay(rt: HostRuntime) -> Result<(), Fail> {
    let alloc = rt.alloc();
    let mut shelf = KeptShelf::new(alloc)?;
    let (status, _) = ends_with(&rt, alloc, "gen 1 0", b"", &OpenGate, &mut shelf)?;
    same(&rt, &status, &Status::Done);
    same(&rt, &root_at(&shelf, 0, 431), &Some(67584));
    same(&rt, &root_at(&shelf, 1, 431), &Some(0));
    same(&rt, &root_at(&shelf, 3, 431), &Some(0));
    same(&rt, &root_at(&shelf, 4, 431), &None);
    Ok(())
}
