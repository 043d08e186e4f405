// The least of what was found.
ghost use Rattle.std.specs.Prelude.{◌≡◌};
ghost use Rattle.image_defects.specs.Least.{lesser};

/// The lesser of two numbers, where there are any.
pub(crate) fn lesser(a: Option<u32>, b: Option<u32>) -> Option<u32>
    ensures { result ≡ lesser a b }
{
    match a {
        None => b,
        Some(first) => match b {
            None => a,
            Some(second) => { if second < first { b } else { a } }
        },
    }
}
