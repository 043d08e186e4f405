// Header lines: none, one of zeros, one of the format, and one of another version; and the images of pools.
use crate::values::same;
use pool_layout::{Defect, ImageFault, PoolHeader, header_of, image_words};
use std::alloc::Global;
use std::process::Abort;
use std::test::Fail;

// The first word of a header line.
const TEXT: u64 = 3550894020320384590;

#[test]
fn headers_of_images(rt: HostRuntime) {
    let mut words = [0; 8];
    same(
        &rt,
        &header_of(&words[..0]),
        &Err(Defect::BadLength { have: 0, need: 64 }),
    );
    same(
        &rt,
        &header_of(&words),
        &Err(Defect::BadHeader { word: 0, value: 0 }),
    );
    words[0] = TEXT;
    words[1] = 281543696187393;
    same(
        &rt,
        &header_of(&words),
        &Ok(PoolHeader {
            version: 1,
            number: 0,
            arenas: 1,
            granules: 16,
        }),
    );
    words[1] = 281543696187395;
    same(
        &rt,
        &header_of(&words),
        &Err(Defect::BadHeader {
            word: 1,
            value: 281543696187395,
        }),
    );
}

// The second word of a header line that says these fields.
fn fields(version: u16, number: u16, granules: u16, arenas: u16) -> u64 {
    u64::from(version)
        | u64::from(number) << 16
        | u64::from(granules) << 32
        | u64::from(arenas) << 48
}

const HEADERS: [(u16, u16, u16, u16, bool); 23] = [
    (0, 0, 16, 1, false),
    (1, 0, 15, 1, false),
    (1, 0, 16, 1, true),
    (1, 15, 1024, 16, true),
    (1, 16, 1024, 16, false),
    (1, 0, 1025, 1, false),
    (1, 0, 16, 0, false),
    (1, 0, 16, 17, false),
    (2, 0, 24, 1, false),
    (2, 0, 25, 1, true),
    (2, 15, 25, 16, true),
    (2, 16, 25, 16, false),
    (2, 0, 25, 17, false),
    (2, 0, 4096, 1, true),
    (2, 3, 4096, 4, true),
    (2, 0, 4097, 1, false),
    (2, 0, 4096, 5, false),
    (2, 15, 1033, 16, true),
    (2, 0, 1034, 16, false),
    (2, 4, 3305, 5, true),
    (2, 4, 3306, 5, false),
    (3, 0, 25, 1, false),
    (258, 0, 25, 1, false),
];

// Whether a pool may have this version, this arena, so many granules in each, and so many arenas.
#[test]
fn headers_of_both_versions(rt: HostRuntime) {
    for &(version, number, granules, arenas, is_good) in &HEADERS {
        let value = fields(version, number, granules, arenas);
        let header = PoolHeader {
            version: u32::from(version),
            number: u32::from(number),
            arenas: u32::from(arenas),
            granules: u32::from(granules),
        };
        let wanted = if is_good {
            Ok(header)
        } else {
            Err(Defect::BadHeader { word: 1, value })
        };
        let words = [TEXT, value, 1, 0, 0, 0, 0, 0];
        assert_eq!(rt; header_of(&words), wanted, "of {value}");
    }
}

// Arenas of 16 granules with the header lines of a pool of 16: the text, and the word that says the arena's number.
fn pool(alloc: Global, arenas: usize) -> Result<Vec<u8>, Fail> {
    let mut bytes = vec![in alloc; 0u8; arenas.min(16) * 262_144]?;
    put_headers(&mut bytes);
    Ok(bytes)
}

fn put_headers(bytes: &mut [u8]) {
    let mut number = 0;
    for arena in bytes.chunks_mut(262_144) {
        if arena.len() >= 64 {
            arena[..8].copy_from_slice(b"NVALLOG1");
            arena[8..16].copy_from_slice(&[1, 0, number, 0, 16, 0, 16, 0]);
            number = number.saturating_add(1);
        }
    }
}

// Sixteen arenas are the most; one byte less is too short, for the whole.
#[test]
fn images_of_sixteen_arenas(rt: HostRuntime) -> Result<(), Fail> {
    read_sixteen(&rt, rt.alloc())?;
    read_fifteen(&rt, rt.alloc())
}

fn read_sixteen<R: Abort>(rt: &R, alloc: Global) -> Result<(), Fail> {
    let bytes = pool(alloc, 16)?;
    are_read(rt, alloc, &bytes);
    Ok(())
}

fn are_read<R: Abort>(rt: &R, alloc: Global, bytes: &[u8]) {
    let Ok(words) = image_words(alloc, bytes) else {
        panic!(rt; "no image");
    };
    are_those_of_sixteen(rt, &words);
}

fn are_those_of_sixteen<R: Abort>(rt: &R, words: &[u64]) {
    same(rt, &words.len(), &524_288);
    let last = (words.get(491_520).copied(), words.get(491_521).copied());
    same(rt, &last, &(Some(TEXT), Some(0x0010_0010_000f_0001)));
}

fn read_fifteen<R: Abort>(rt: &R, alloc: Global) -> Result<(), Fail> {
    let short = pool(alloc, 15)?;
    assert!(rt; image_words(alloc, &short).is_err_and(is_short));
    Ok(())
}

// It is a fault of a length below that of 16 arenas.
fn is_short(fault: ImageFault) -> bool {
    match fault {
        ImageFault::Defect {
            arena: 0,
            defect: Defect::BadLength { have, need },
        } => have == 3_932_160 && need == 4_194_304,
        _ => false,
    }
}
