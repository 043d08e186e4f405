// What is said of a sound image under each word. All images here are of arenas whose heaps have 12 granules.
use crate::pictures::makes;
use crate::runs::{tells_of, written};
use std::alloc::{AllocError, Global};
use std::process::Abort;
use std::test::Fail;
use worked_runs::{Run, image_of};

/// The length of an output, and its sum, as examples/pictures.sh prints them.
pub(crate) type Weight = (usize, u32);

/// What all arenas of a variant and a version have: how the variant is named, the letters of their own granules behind the first one,
/// and what stands behind three letters of the heap.
pub(crate) struct Form {
    variant: &'static [&'static str],
    version: u32,
    granules: u32,
    own: &'static str,
    gap: &'static str,
}

pub(crate) const LOG: Form = Form {
    variant: &[],
    version: 1,
    granules: 16,
    own: "rrl",
    gap: "",
};

pub(crate) const LOG_2: Form = Form {
    variant: &[],
    version: 2,
    granules: 25,
    own: "rrrrrrrrllll",
    gap: " ",
};

pub(crate) const GC: Form = Form {
    variant: &["variant gc"],
    version: 1,
    granules: 16,
    own: "rrl",
    gap: "",
};

/// What is told of an arena: the letters of the first granule and of the heap, its numbers, by `NAMES`, and its classes.
pub(crate) struct Shown {
    pub(crate) first: &'static str,
    pub(crate) heap: (&'static str, &'static str),
    pub(crate) numbers: [u32; 8],
    pub(crate) classes: &'static [&'static str],
}

const NAMES: [&str; 8] = [
    "free",
    "longest",
    "request",
    "large",
    "slabs",
    "transition",
    "live",
    "loose",
];

const LEGEND: &str =
    "h header, r roots, l log, . free, #= large block, S7 slab and tenths of it live, T7 slab in transition, ! loose\n";

/// An arena that has nothing.
pub(crate) const NOTHING: Shown = Shown {
    first: "h",
    heap: ("...", "........."),
    numbers: [12, 12, 196608, 0, 0, 0, 0, 0],
    classes: &[],
};

/// One large block of all granules.
pub(crate) const ALL: Shown = Shown {
    first: "h",
    heap: ("#==", "========="),
    numbers: [0, 0, 0, 1, 0, 0, 1, 0],
    classes: &[],
};

/// A slab with one block of 112 bytes.
pub(crate) const ONE_SMALL: Shown = Shown {
    first: "h",
    heap: ("S00", "0........"),
    numbers: [8, 8, 131072, 0, 1, 0, 1, 0],
    classes: &["112 slabs 1 live 1 of 566 old 0"],
};

/// One large block of two granules, at the beginning.
pub(crate) const ONE_LARGE: Shown = Shown {
    first: "h",
    heap: ("#=.", "........."),
    numbers: [10, 10, 163840, 1, 0, 0, 1, 0],
    classes: &[],
};

/// A sound image, what is told of its arenas, the page of it, the dumps of blocks, the roots of arena 0 without one, and what is told of its arenas
/// once it is repaired: of none where nothing is loose, since that stays as it is.
pub(crate) struct Row {
    pub(crate) size: usize,
    pub(crate) image: &'static [Run],
    pub(crate) form: Form,
    pub(crate) arenas: &'static [Shown],
    pub(crate) page: Weight,
    pub(crate) dumps: &'static [(&'static str, Weight)],
    pub(crate) none: &'static [u32],
    pub(crate) mended: &'static [Shown],
}

// The numbers of an arena.
fn numbers_of(
    alloc: Global,
    form: &Form,
    arena: usize,
    shown: &Shown,
) -> Result<String, AllocError> {
    let mut text = String::new(alloc);
    for name in form.variant {
        add_fact(&mut text, alloc, arena, name)?;
    }
    add_number(&mut text, alloc, arena, "version", form.version)?;
    add_number(&mut text, alloc, arena, "granules", form.granules)?;
    for (name, number) in NAMES.iter().zip(shown.numbers.iter()) {
        add_number(&mut text, alloc, arena, name, *number)?;
    }
    for class in shown.classes {
        add_class(&mut text, alloc, arena, class)?;
    }
    Ok(text)
}

fn add_fact(text: &mut String, alloc: Global, arena: usize, fact: &str) -> Result<(), AllocError> {
    let line = format!(in alloc; "arena {arena} {fact}\n")?;
    text.push_str(&line)
}

fn add_number(
    text: &mut String,
    alloc: Global,
    arena: usize,
    name: &str,
    number: u32,
) -> Result<(), AllocError> {
    let fact = format!(in alloc; "{name} {number}")?;
    add_fact(text, alloc, arena, &fact)
}

fn add_class(
    text: &mut String,
    alloc: Global,
    arena: usize,
    class: &str,
) -> Result<(), AllocError> {
    let fact = format!(in alloc; "class {class}")?;
    add_fact(text, alloc, arena, &fact)
}

// The granules of an arena.
fn granules_of(
    alloc: Global,
    form: &Form,
    arena: usize,
    shown: &Shown,
) -> Result<String, AllocError> {
    let (first, own, gap) = (shown.first, form.own, form.gap);
    let (front, back) = shown.heap;
    format!(in alloc; "arena {arena}\n   0  {first}{own}{front}{gap}{back}\n")
}

// What `info` writes of arenas.
fn info_of(alloc: Global, form: &Form, arenas: &[Shown]) -> Result<String, AllocError> {
    let mut text = String::new(alloc);
    for (i, shown) in arenas.iter().enumerate() {
        let numbers = numbers_of(alloc, form, i, shown)?;
        text.push_str(&numbers)?;
    }
    Ok(text)
}

// What `text` writes of them.
fn text_of(alloc: Global, form: &Form, arenas: &[Shown]) -> Result<String, AllocError> {
    let mut text = String::from_str(alloc, LEGEND)?;
    for (i, shown) in arenas.iter().enumerate() {
        let granules = granules_of(alloc, form, i, shown)?;
        text.push_str(&granules)?;
        let numbers = numbers_of(alloc, form, i, shown)?;
        text.push_str(&numbers)?;
    }
    Ok(text)
}

/// Of the bytes of an image this is told in letters and numbers.
pub(crate) fn is_told<R: Abort>(
    rt: &R,
    alloc: Global,
    image: &[u8],
    form: &Form,
    arenas: &[Shown],
) -> Result<(), Fail> {
    let text = text_of(alloc, form, arenas)?;
    tells_of(rt, alloc, "text", image, 0, &text)?;
    let info = info_of(alloc, form, arenas)?;
    tells_of(rt, alloc, "info", image, 0, &info)
}

/// These roots of arena 0 have no block.
pub(crate) fn lacks<R: Abort>(
    rt: &R,
    alloc: Global,
    image: &[u8],
    roots: &[u32],
) -> Result<(), Fail> {
    for root in roots {
        let words = format!(in alloc; "dump 0 {root}")?;
        let line = format!(in alloc; "arena 0 no block {root}\n")?;
        tells_of(rt, alloc, &words, image, 2, &line)?;
    }
    Ok(())
}

/// What is repaired of the image is told so, and a second repair changes nothing.
pub(crate) fn is_mended<R: Abort>(
    rt: &R,
    alloc: Global,
    image: &[u8],
    form: &Form,
    arenas: &[Shown],
) -> Result<Vec<u8>, Fail> {
    let mended = written(alloc, "repair", image)?;
    is_told(rt, alloc, &mended, form, arenas)?;
    let again = written(alloc, "repair", &mended)?;
    assert!(rt; again == mended);
    Ok(mended)
}

// The blocks of an image have these words.
fn are_dumped<R: Abort>(rt: &R, alloc: Global, image: &[u8], row: &Row) -> Result<(), Fail> {
    for (words, weight) in row.dumps {
        makes(rt, alloc, words, image, weight.0, weight.1)?;
    }
    lacks(rt, alloc, image, row.none)
}

// What is repaired of an image has the same blocks; it is the image itself where nothing is loose.
fn is_repaired<R: Abort>(rt: &R, alloc: Global, image: &[u8], row: &Row) -> Result<(), Fail> {
    if row.mended.is_empty() {
        let mended = written(alloc, "repair", image)?;
        assert!(rt; mended.as_slice() == image);
        return Ok(());
    }
    let mended = is_mended(rt, alloc, image, &row.form, row.mended)?;
    are_dumped(rt, alloc, &mended, row)
}

/// A row is what each word says of its image.
pub(crate) fn holds<R: Abort>(rt: &R, alloc: Global, row: &Row) -> Result<(), Fail> {
    let image = image_of(alloc, row.size, row.image)?;
    is_told(rt, alloc, &image, &row.form, row.arenas)?;
    makes(rt, alloc, "map", &image, row.page.0, row.page.1)?;
    are_dumped(rt, alloc, &image, row)?;
    is_repaired(rt, alloc, &image, row)
}

/// So is each of these.
pub(crate) fn all_hold<R: Abort>(rt: &R, alloc: Global, rows: &[Row]) -> Result<(), Fail> {
    for row in rows {
        holds(rt, alloc, row)?;
    }
    Ok(())
}
