// Granules, in which large blocks are measured.

ghost use Rattle.std.specs.Prelude.{◌≡◌};
ghost use Rattle.size_classes.specs.Classes.{granules_of};

/// How many granules of 16384 bytes hold this many bytes.
pub fn granules(size: u64) -> u64
    ensures { result ≡ granules_of size }
{
    size.div_ceil(16384)
}
