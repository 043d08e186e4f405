// Ranges of bytes, slabs, and the sizes of small blocks. A class goes by the size of its blocks.

/// The bytes of a granule.
pub(crate) const GRANULE: u64 = 16384;

// The sizes of small blocks: up to 128 in steps of 16, and then four for each doubling.
const SIZES: [u64; 36] = [
    16, 32, 48, 64, 80, 96, 112, 128, 160, 192, 224, 256, 320, 384, 448, 512, 640, 768, 896, 1024,
    1280, 1536, 1792, 2048, 2560, 3072, 3584, 4096, 5120, 6144, 7168, 8192, 10240, 12288, 14336,
    16384,
];

/// The least size of small blocks that holds a request, if one does.
pub(crate) fn least_size(request: u64) -> Option<u64> {
    for size in SIZES {
        if request <= size {
            return Some(size);
        }
    }
    None
}

/// A range of bytes of an arena.
#[derive(Clone, Copy, Debug, PartialEq, Eq)]
pub(crate) struct Range {
    /// The address of its first byte.
    pub(crate) at: u64,
    /// How many bytes it has.
    pub(crate) size: u64,
}

impl Range {
    /// Both have a byte in common.
    pub(crate) fn meets(self, other: Range) -> bool {
        self.at < other.at.saturating_add(other.size)
            && other.at < self.at.saturating_add(self.size)
    }
}

/// A slab: four granules with blocks of one size.
#[derive(Clone, Copy, Debug, PartialEq, Eq)]
pub(crate) struct Slab {
    /// The address of its first byte.
    pub(crate) at: u64,
    /// The bytes of each of its blocks.
    pub(crate) size: u64,
}

impl Slab {
    /// Its four granules.
    pub(crate) fn range(self) -> Range {
        Range {
            at: self.at,
            size: 4 * GRANULE,
        }
    }

    /// How many blocks it holds behind its header of 2048 bytes.
    pub(crate) fn capacity(self) -> u64 {
        63488u64.checked_div(self.size).unwrap_or(0)
    }

    /// The block of this number.
    pub(crate) fn block(self, number: u64) -> Range {
        let before = number.saturating_mul(self.size).saturating_add(2048);
        Range {
            at: self.at.saturating_add(before),
            size: self.size,
        }
    }
}
