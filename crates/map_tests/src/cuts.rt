// Images that a power cut leaves of a trace: what each word says of them, and what is repaired of them.
use crate::cut_rows::{
    CLASSES, CLASSES_2, COMING, COMING_2, Case, Cut, LEAVING, LEAVING_2, ROLLS, ROLLS_2, SLABS,
    SLABS_2,
};
use crate::pictures::makes;
use crate::runs::{says, tells_of, written};
use crate::table::{Form, LOG, LOG_2, is_mended, is_told, lacks};
use std::alloc::Global;
use std::process::Abort;
use std::test::Fail;
use worked_runs::expanded;

/// The first lines of pools of one arena, of either version.
const FIRST: &str = "pool 1 16";

const SECOND: &str = "pool2 1 25";

/// The blocks of a cut have these words, before it is repaired and after.
fn has_blocks<R: Abort>(rt: &R, alloc: Global, image: &[u8], case: &Case) -> Result<(), Fail> {
    for (root, weight) in case.cut.blocks.iter().zip(case.words.iter()) {
        let dump = format!(in alloc; "dump 0 {root}")?;
        makes(rt, alloc, &dump, image, weight.0, weight.1)?;
    }
    lacks(rt, alloc, image, case.cut.none)
}

/// What a cut leaves of a pool.
fn cut_off(alloc: Global, pool: &str, cut: &Cut) -> Result<Vec<u8>, Fail> {
    let calls = expanded(alloc, cut.calls)?;
    let trace = format!(in alloc; "{pool}\n{calls}")?;
    let words = format!(in alloc; "cut 0 {} 1", cut.event)?;
    written(alloc, &words, trace.as_bytes())
}

/// Each word says what a cut leaves of a pool, and it is repaired.
fn mends<R: Abort>(
    rt: &R,
    alloc: Global,
    pool: &str,
    form: &Form,
    case: &Case,
) -> Result<(), Fail> {
    let image = cut_off(alloc, pool, &case.cut)?;
    is_told(rt, alloc, &image, form, case.cut.shown)?;
    makes(rt, alloc, "map", &image, case.page.0, case.page.1)?;
    has_blocks(rt, alloc, &image, case)?;
    let mended = is_mended(rt, alloc, &image, form, case.cut.mended)?;
    has_blocks(rt, alloc, &mended, case)
}

/// So it is with each of these.
fn all_mend<R: Abort>(
    rt: &R,
    alloc: Global,
    pool: &str,
    form: &Form,
    cases: &[Case],
) -> Result<(), Fail> {
    for case in cases {
        mends(rt, alloc, pool, form, case)?;
    }
    Ok(())
}

/// A block that was coming, one that was leaving, a slab that was taking a class, one that was coming or going, and a log that was
/// rolling.
const SETS: [&[Case]; 5] = [&COMING, &LEAVING, &CLASSES, &SLABS, &ROLLS];

const SETS_2: [&[Case]; 5] = [&COMING_2, &LEAVING_2, &CLASSES_2, &SLABS_2, &ROLLS_2];

#[test]
fn what_a_cut_leaves_is_mended(rt: HostRuntime) -> Result<(), Fail> {
    for cases in SETS {
        all_mend(&rt, rt.alloc(), FIRST, &LOG, cases)?;
    }
    Ok(())
}

#[test]
fn what_a_cut_leaves_is_mended_in_version_2(rt: HostRuntime) -> Result<(), Fail> {
    for cases in SETS_2 {
        all_mend(&rt, rt.alloc(), SECOND, &LOG_2, cases)?;
    }
    Ok(())
}

/// A block of 112 bytes comes and goes in one arena, and one stays in the other.
const TWO_ARENAS: &[u8] = b"pool 2 16
0 0 m 5 100
0 0 f 5
0 1 m 6 100
";

const ONE_ARENA: &[u8] = b"pool 1 16
0 0 m 5 100
";

const CHECKED: &str = "arena 0 large 0 slabs 1 blocks 0 loose 3
arena 1 large 0 slabs 1 blocks 1 loose 0
";

const MENDED: &str = "arena 0 large 0 slabs 0 blocks 0 loose 0
arena 1 large 0 slabs 1 blocks 1 loose 0
";

const HEAPS: &str = "arena 0 heap 0
arena 1 heap 1
6 67584 112
";

#[test]
fn a_cut_has_the_other_arenas_whole_and_each_is_mended(rt: HostRuntime) -> Result<(), Fail> {
    let alloc = rt.alloc();
    let image = written(alloc, "cut 0 82 1", TWO_ARENAS)?;
    says(&rt, alloc, "check", &image, CHECKED)?;
    says(&rt, alloc, "recover", &image, HEAPS)?;
    let mended = written(alloc, "repair", &image)?;
    says(&rt, alloc, "check", &mended, MENDED)?;
    says(&rt, alloc, "recover", &mended, HEAPS)
}

#[test]
fn a_trace_that_is_refused_has_no_cut(rt: HostRuntime) -> Result<(), Fail> {
    let alloc = rt.alloc();
    tells_of(
        &rt,
        alloc,
        "cut 0 82 1",
        b"pool 1 16\n0 0 x 5\n",
        2,
        "bad line 2\n",
    )?;
    tells_of(&rt, alloc, "cut 1 0 1", ONE_ARENA, 2, "no arena 1 of 1\n")?;
    tells_of(
        &rt,
        alloc,
        "cut 1 1 1",
        b"pool 2 16\n",
        2,
        "no event 1 of 0\n",
    )
}

#[test]
fn words_of_no_cut_are_usage(rt: HostRuntime) -> Result<(), Fail> {
    let alloc = rt.alloc();
    tells_of(&rt, alloc, "cut 16 0 1", ONE_ARENA, 1, "")?;
    tells_of(&rt, alloc, "cut 0 00 1", ONE_ARENA, 1, "")?;
    tells_of(&rt, alloc, "cut 0 0", ONE_ARENA, 1, "")
}
