// How full a slab may be that takes another class: at most 64 blocks live in it, and at most a fifth of what it holds.
use crate::shorthand::expanded;
use std::alloc::{AllocError, Global};

/// So many blocks of a size, and the size that is given for it; the size that is asked for then, and the answer; and how many
/// events all these calls have. Sizes are in bytes.
pub type Filling = (u32, u32, u32, u32, &'static str, u32);

/// A slab holds 992 blocks of class 3, 62 of class 19, 330 of class 9, 165 of class 13, 70 of class 18, 49 of class 20, 35
/// of class 22, 20 of class 25, 15 of class 27, ten of class 29 and five of class 33. Of each class there are as many as may
/// live, and one more. The block that is given is the first behind them. The large block has 6 events, the first small one
/// 89, and any other one 11; where the slab takes a class, the last malloc has 80 more, one for each block, and one for each
/// of up to eight lines.
pub const FILLINGS: [Filling; 22] = [
    (64, 64, 64, 1000, "placed 202752 1024", 951),
    (65, 64, 64, 1000, "no space", 799),
    (12, 1000, 1024, 64, "placed 210944 64", 327),
    (13, 1000, 1024, 64, "no space", 227),
    (64, 192, 192, 64, "placed 210944 64", 951),
    (65, 192, 192, 64, "no space", 799),
    (33, 384, 384, 64, "placed 211328 64", 579),
    (34, 384, 384, 64, "no space", 458),
    (14, 896, 896, 64, "placed 211200 64", 351),
    (15, 896, 896, 64, "no space", 249),
    (9, 1280, 1280, 64, "placed 210176 64", 291),
    (10, 1280, 1280, 64, "no space", 194),
    (7, 1792, 1792, 64, "placed 211200 64", 266),
    (8, 1792, 1792, 64, "no space", 172),
    (4, 3072, 3072, 64, "placed 210944 64", 227),
    (5, 3072, 3072, 64, "no space", 139),
    (3, 4096, 4096, 64, "placed 210944 64", 214),
    (4, 4096, 4096, 64, "no space", 128),
    (2, 6144, 6144, 64, "placed 210944 64", 201),
    (3, 6144, 6144, 64, "no space", 117),
    (1, 12288, 12288, 64, "placed 210944 64", 188),
    (2, 12288, 12288, 64, "no space", 106),
];

/// The trace of a row, and the report that `replay` writes of it.
pub fn filled(alloc: Global, row: &Filling) -> Result<(String, String), AllocError> {
    let trace = trace_of(alloc, row)?;
    Ok((trace, report_of(alloc, row)?))
}

fn trace_of(alloc: Global, row: &Filling) -> Result<String, AllocError> {
    let (held, size, _, asked, _, _) = *row;
    let text = format!(in alloc;
        "pool 1 16\n0 0 m 0 131072\n0 0 m {{1..{held}}} {size}\n0 0 m 2000 {asked}\n"
    )?;
    expanded(alloc, &text)
}

fn report_of(alloc: Global, row: &Filling) -> Result<String, AllocError> {
    let mut report = journal_of(alloc, row)?;
    add_heap(&mut report, alloc, row)?;
    Ok(report)
}

fn journal_of(alloc: Global, row: &Filling) -> Result<String, AllocError> {
    let (held, size, block, asked, reply, _) = *row;
    let made = held.saturating_add(2);
    let text = format!(in alloc;
        "arena 0 calls {made}\n0 m 0 131072 placed 65536 131072\n\
         0 m {{1..{held}}} {size} placed {{198656 by {block}}} {block}\n\
         0 m 2000 {asked} {reply}\n"
    )?;
    expanded(alloc, &text)
}

// The block that the last malloc is given, if it is given one, is the last of the heap.
fn add_heap(report: &mut String, alloc: Global, row: &Filling) -> Result<(), AllocError> {
    let (held, _, block, _, reply, _) = *row;
    match reply.strip_prefix("placed ") {
        Some(place) => {
            add_blocks(report, alloc, held, block, 2)?;
            let last = format!(in alloc; "2000 {place}\n")?;
            report.push_str(&last)
        }
        None => add_blocks(report, alloc, held, block, 1),
    }
}

// How many blocks the heap has, with so many besides those of one class, and the blocks but the last one.
fn add_blocks(
    report: &mut String,
    alloc: Global,
    held: u32,
    block: u32,
    besides: u32,
) -> Result<(), AllocError> {
    let left = held.saturating_add(besides);
    let text = format!(in alloc;
        "heap {left}\n0 65536 131072\n{{1..{held}}} {{198656 by {block}}} {block}\n"
    )?;
    report.push_str(&expanded(alloc, &text)?)
}
