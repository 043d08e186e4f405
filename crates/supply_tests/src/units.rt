// The map of units: rows that were worked by hand.
ghost use Rattle.std.specs.Prelude.{◌≡◌, ◌+◌, ◌<◌, ◌≤◌, IsTrue, IfOk};

use crate::values::same;
use pmem_lines::OutOfMemory;
use std::alloc::Global;
use std::process::Abort;
use std::test::Fail;
use unit_map::UnitMap;

// The units of 16 granules.
const UNITS: u32 = 16384;

// The first unit of the blocks of the slab at granule 4.
const FIRST: u32 = 4224;

// So many units from one on.
#[derive(Clone, Copy, Debug, PartialEq, Eq)]
struct Span(u32, u32);

// Whether the units lie among 16 granules.
fn is_inside(span: Span) -> bool
    ensures { IsTrue result → span.0 + span.1 ≤ 16384 }
{
    span.0 <= UNITS && span.1 <= UNITS - span.0
}

// A map of 16 granules of which units were marked, and then others cleared. Those that lie in no granule are left out.
fn made(alloc: Global, marks: &[Span], clears: &[Span]) -> Result<UnitMap, OutOfMemory>
    ensures { IfOk result (λ units. units.granules ≡ 16) }
{
    let mut units = UnitMap::new(alloc, 16)?;
    for span in marks {
        if is_inside(*span) {
            units.mark(span.0, span.1);
        }
    }
    for span in clears {
        if is_inside(*span) {
            units.clear(span.0, span.1);
        }
    }
    Ok(units)
}

// The used units, in spans, as `is_clear` tells of each.
fn used(alloc: Global, units: &UnitMap) -> Result<Vec<Span>, OutOfMemory>
    requires { units.now.granules ≡ 16 }
{
    let mut spans = Vec::new(alloc);
    let mut begun = None;
    for k in 0..UNITS {
        match (begun, units.is_clear(k, 1)) {
            (None, false) => begun = Some(k),
            (Some(from), true) => {
                spans.push(Span(from, k.saturating_sub(from)))?;
                begun = None;
            }
            _ => {}
        }
    }
    if let Some(from) = begun {
        spans.push(Span(from, UNITS.saturating_sub(from)))?;
    }
    Ok(spans)
}

// What is used where units were marked, and then others cleared.
fn used_of(alloc: Global, marks: &[Span], clears: &[Span]) -> Result<Vec<Span>, OutOfMemory> {
    let units = made(alloc, marks, clears)?;
    used(alloc, &units)
}

const SPANS: [(&[Span], &[Span], &[Span]); 12] = [
    (&[], &[Span(0, 16384)], &[]),
    (&[Span(70, 0)], &[], &[]),
    (&[Span(5, 3)], &[], &[Span(5, 3)]),
    (&[Span(60, 10)], &[], &[Span(60, 10)]),
    (&[Span(64, 128)], &[], &[Span(64, 128)]),
    (
        &[Span(0, 1), Span(63, 1), Span(64, 1)],
        &[],
        &[Span(0, 1), Span(63, 2)],
    ),
    (&[Span(16383, 1)], &[], &[Span(16383, 1)]),
    (&[Span(4234, 1024)], &[], &[Span(4234, 1024)]),
    (
        &[Span(0, 256)],
        &[Span(10, 100)],
        &[Span(0, 10), Span(110, 146)],
    ),
    (
        &[Span(128, 192)],
        &[Span(128, 64), Span(319, 1)],
        &[Span(192, 127)],
    ),
    (
        &[Span(100, 50), Span(120, 100)],
        &[Span(90, 20)],
        &[Span(110, 110)],
    ),
    (&[Span(0, 16384)], &[Span(64, 0)], &[Span(0, 16384)]),
];

// Marked, cleared, and what is used then: within a word, over the ends of words, whole words, and the first and last units.
#[test]
fn exactly_these(rt: HostRuntime) -> Result<(), Fail> {
    for &(marks, clears, want) in &SPANS {
        let spans = used_of(rt.alloc(), marks, clears)?;
        assert_eq!(rt; spans.as_slice(), want, "of {marks:?} without {clears:?}");
    }
    Ok(())
}

// Whether ranges beside and over the used units 100 to 299 are clear.
#[test]
fn clear_ranges(rt: HostRuntime) -> Result<(), Fail> {
    let units = made(rt.alloc(), &[Span(100, 200)], &[])?;
    are_clear_or_not(&rt, &units);
    Ok(())
}

fn are_clear_or_not<R: Abort>(rt: &R, units: &UnitMap)
    requires { units.now.granules ≡ 16 }
{
    for (span, want) in [
        (Span(0, 100), true),
        (Span(0, 101), false),
        (Span(300, 16084), true),
        (Span(299, 1), false),
        (Span(64, 36), true),
        (Span(128, 64), false),
        (Span(0, 16384), false),
        (Span(200, 0), true),
    ] {
        let clear = is_inside(span) && units.is_clear(span.0, span.1);
        assert_eq!(rt; clear, want, "of {span:?}");
    }
}

// The lowest clear block of a class in the slab at granule 4.
fn first_clear(units: &UnitMap, class: u8, from: u32) -> Option<u32>
    requires { units.now.granules ≡ 16 }
{
    if class < 36 {
        units.first_clear(4, class, from)
    } else {
        None
    }
}

// Two live blocks in the slab at granule 4: block 5 of 64 bytes, with its units 20 to 23, and block 1 of 16384 bytes, with
// those from 1024 to 2047. The last block of 16384 bytes has the units 2048 to 3071.
fn of_two_blocks(alloc: Global) -> Result<UnitMap, OutOfMemory>
    ensures { IfOk result (λ units. units.granules ≡ 16) }
{
    made(alloc, &[Span(FIRST + 20, 4), Span(FIRST + 1024, 1024)], &[])
}

#[test]
fn first_clear_blocks(rt: HostRuntime) -> Result<(), Fail> {
    let units = of_two_blocks(rt.alloc())?;
    are_first_clear(&rt, &units);
    Ok(())
}

fn are_first_clear<R: Abort>(rt: &R, units: &UnitMap)
    requires { units.now.granules ≡ 16 }
{
    for (class, from, want) in [
        (0, 0, Some(0)),
        (0, 20, Some(24)),
        (0, 1024, Some(2048)),
        (0, 3967, Some(3967)),
        (0, 3968, None),
        (2, 6, Some(8)),
        (3, 5, Some(6)),
        (3, 4, Some(4)),
        (7, 2, Some(3)),
        (7, 128, Some(256)),
        (31, 0, Some(1)),
        (31, 2, Some(4)),
        (31, 6, Some(6)),
        (31, 7, None),
        (34, 0, Some(3)),
        (35, 0, Some(2)),
        (35, 3, None),
        (35, 4_000_000_000, None),
    ] {
        assert_eq!(rt;
            first_clear(units, class, from),
            want,
            "of {class} from {from}"
        );
    }
}

// The blocks of each class that those two overlap, by the words of the set that are not 0.
#[test]
fn overlapped_blocks(rt: HostRuntime) -> Result<(), Fail> {
    let units = of_two_blocks(rt.alloc())?;
    are_overlapped(&rt, &units);
    Ok(())
}

fn are_overlapped<R: Abort>(rt: &R, units: &UnitMap)
    requires { units.now.granules ≡ 16 }
{
    same(rt, &units.used_blocks(4, 35)[0], &0b011);
    same(rt, &units.used_blocks(4, 34)[0], &0b0111);
    same(rt, &units.used_blocks(4, 31)[0], &0b000_1101);
    let quarters = units.used_blocks(4, 3);
    for (word, want) in [
        (0, 1 << 5),
        (1, 0),
        (3, 0),
        (4, u64::MAX),
        (7, u64::MAX),
        (8, 0),
        (63, 0),
    ] {
        assert_eq!(rt; quarters.get(word).copied(), Some(want), "word {word}");
    }
    same(rt, &units.used_blocks(8, 0)[0], &0);
}

// All 3968 blocks of 16 bytes live, and then the last one not.
#[test]
fn last_block_of_a_slab(rt: HostRuntime) -> Result<(), Fail> {
    let mut units = made(rt.alloc(), &[Span(FIRST, 3968)], &[])?;
    clears_the_last_block(&rt, &mut units);
    Ok(())
}

fn clears_the_last_block<R: Abort>(rt: &R, units: &mut UnitMap)
    requires { units.old.granules ≡ 16 }
{
    same(
        rt,
        &(first_clear(units, 0, 0), first_clear(units, 35, 0)),
        &(None, None),
    );
    same(rt, &units.used_blocks(4, 0)[61], &u64::MAX);
    units.clear(FIRST + 3967, 1);
    same(
        rt,
        &(first_clear(units, 0, 0), first_clear(units, 1, 0)),
        &(Some(3967), None),
    );
    same(rt, &units.used_blocks(4, 0)[61], &(u64::MAX >> 1));
    assert!(rt; units.is_clear(FIRST - 1, 1) && units.is_clear(FIRST + 3967, 1));
}
