// Images of pools, by their bytes that are not 0.
use std::alloc::{AllocError, Global};

/// Bytes of an image: where they begin, and what they are.
pub type Run = (usize, &'static [u8]);

/// An arena of 16 granules with a large block of 8 granules, of root 0, and a slab at granule 12 that took class 19 and was of class 3
/// before: root 1 holds block 0 of class 3, and root 2 block 1 of class 19. No granule is free.
pub const IN_TRANSITION: [Run; 11] = [
    (0, b"NVALLOG1"),
    (8, &[1, 0, 0, 0, 16, 0, 1, 0]),
    (16, &[1]),
    (16386, &[1]),
    (16393, &[8, 3]),
    (16401, &[12, 3]),
    (49216, &[1, 4, 0, 8]),
    (49280, &[2, 12]),
    (196608, &[3, 19, 3, 1]),
    (196736, &[1]),
    (197184, &[1]),
];

/// So many bytes, of which those of a row are not 0.
pub fn image_of(alloc: Global, size: usize, runs: &[Run]) -> Result<Vec<u8>, AllocError> {
    let mut bytes = vec![in alloc; 0u8; size]?;
    lay(&mut bytes, runs);
    Ok(bytes)
}

/// Puts the runs of a row into an image.
pub fn lay(bytes: &mut [u8], runs: &[Run]) {
    for (at, run) in runs {
        put(bytes, *at, run);
    }
}

/// Puts a run into an image, as far as it lies inside.
pub fn put(bytes: &mut [u8], at: usize, run: &[u8]) {
    for (i, byte) in run.iter().enumerate() {
        if let Some(place) = at.checked_add(i) {
            if place < bytes.len() {
                bytes[place] = *byte;
            }
        }
    }
}
