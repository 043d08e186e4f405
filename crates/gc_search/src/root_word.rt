// The word of a root, and what it says.
ghost use Rattle.std.specs.Prelude.{◌≡◌, ◌↔◌, ◌^◌, ◌<◌, IsTrue};
ghost use Rattle.gc_check.specs.Heap.{address_field, class_field, IsGcRootWord};

/// The address that a word has.
pub fn address_of(word: u64) -> u64
    ensures field { result ≡ address_field word }
    ensures few { result < 2 ^ 32 }
{
    word % (1 << 32)
}

/// The class and one, 0 for a large block.
pub fn class_field_of(word: u64) -> u8
    ensures { result ≡ class_field word }
{
    ((word >> 32) % 256) as u8
}

/// A word has nothing but these two, and the class is one of 36.
pub(crate) fn is_root_word(word: u64) -> bool
    ensures { IsTrue result ↔ IsGcRootWord word }
{
    word < 1 << 40 && class_field_of(word) <= 36
}
