// How much higher the heap of version 2 begins, and what that makes of a header and an address.
ghost use Rattle.std.specs.Prelude.{◌≡◌, ◌≤◌, ◌<◌, ◌^◌};
ghost use Rattle.image_raise.specs.Rise.{rise, raised_at, raised_header};

use pool_layout::{GRANULE_BYTES, PoolHeader, layout_of};

/// How many granules the heap of version 2 begins higher than that of version 1.
pub fn rise() -> u32
    ensures { result ≡ rise }
{
    layout_of(2).first_granule - layout_of(1).first_granule
}

/// The header of the arena of version 2 that has what one of version 1 with this header has.
pub fn raised_header(header: &PoolHeader) -> PoolHeader
    requires { header.now.granules ≤ 4096 }
    ensures { result ≡ raised_header header.now }
{
    PoolHeader {
        version: 2,
        number: header.number,
        arenas: header.arenas,
        granules: header.granules + rise(),
    }
}

/// The word of a root whose block lies so much higher: that of a root without a block stays 0.
pub(crate) fn raised_root(word: u64) -> u64
    requires { word < 2 ^ 32 }
    ensures { result ≡ raised_at rise word }
{
    if word == 0 {
        0
    } else {
        word + u64::from(GRANULE_BYTES * rise())
    }
}
