// Texts of defects.
use pool_layout::Defect;
use std::alloc::Global;
use std::process::Abort;
use std::test::Fail;

const TEXTS: [(Defect, &[u8]); 11] = [
    (Defect::BadLength { have: 8, need: 64 }, b"bad length 8 64"),
    (
        Defect::BadHeader {
            word: 1,
            value: 281543696187395,
        },
        b"bad header 1 281543696187395",
    ),
    (Defect::BadDirectory { value: 17 }, b"bad directory 17"),
    (
        Defect::BadEntry {
            chunk: 3,
            entry: 119,
            value: u64::MAX,
        },
        b"bad entry 3 119 18446744073709551615",
    ),
    (
        Defect::Overlap {
            first: 4,
            second: 1022,
        },
        b"overlap 4 1022",
    ),
    (
        Defect::BadSlab {
            start: 1020,
            value: 0,
        },
        b"bad slab 1020 0",
    ),
    (Defect::BadWal { line: 7, value: 2 }, b"bad wal 7 2"),
    (
        Defect::StrayRoot {
            root: 4095,
            at: 67600,
        },
        b"stray root 4095 67600",
    ),
    (
        Defect::SharedBlock {
            first: 5,
            second: 6,
        },
        b"shared block 5 6",
    ),
    (Defect::StrayBit { at: 67584 }, b"stray bit 67584"),
    (
        Defect::TooManyLoose {
            large: 2,
            empty: 0,
            morphing: 0,
            done: 1,
        },
        b"too many loose 2 0 0 1",
    ),
];

#[test]
fn texts_of_defects(rt: HostRuntime) -> Result<(), Fail> {
    for &(defect, text) in &TEXTS {
        has_text(&rt, rt.alloc(), defect, text)?;
    }
    Ok(())
}

fn has_text<R: Abort>(rt: &R, alloc: Global, defect: Defect, text: &[u8]) -> Result<(), Fail> {
    let mut line = Vec::new(alloc);
    defect.append_text(&mut line)?;
    assert!(rt; line.as_slice() == text);
    Ok(())
}
