// The classes of small blocks.

ghost use Rattle.std.specs.Prelude.{◌≡◌, ◌<◌, ◌≤◌, ◌^◌, ◌↔◌, ◌⊎◌, nat_le, IfSome, IsNone};
ghost use Rattle.size_classes.specs.Classes.{class_size, class_capacity, IsClassOf, IsSpaced};

/// How many bytes of a slab are for blocks: four granules without the header.
const BLOCK_BYTES: u32 = 63488;

/// The least class whose blocks hold this many bytes. There is none for 0 bytes and for more than 16384.
pub fn class_of(size: u64) -> Option<u8>
    ensures class { IfSome result (IsClassOf size) }
    ensures none { IsNone result ↔ ((size ≡ 0) ⊎ (16384 < size)) }
{
    if size == 0 || size > 16384 {
        return None;
    }
    if size <= 128 {
        return Some(((size - 1) / 16) as u8);
    }
    // Between one power of two and the next there are four sizes, so the two bits below the highest tell them apart.
    let last = size - 1;
    let top = last.ilog2();
    Some((4 * (top - 6) + (last >> (top - 2)) as u32) as u8)
}

/// The size of a block, in bytes.
pub fn size_of_class(class: u8) -> u32
    requires { class < 36 }
    ensures size { result ≡ class_size class }
    ensures spaced { IsSpaced class result }
{
    if class < 8 {
        return 16 * (u32::from(class) + 1);
    }
    (5 + u32::from(class % 4)) << (class / 4 + 3)
}

/// Whether a slab of the class has at least so many blocks, which are asked for without dividing.
pub fn has_at_least(class: u8, blocks: u32) -> bool
    requires class { class < 36 }
    requires few { blocks < 2 ^ 16 }
    ensures { result ≡ nat_le blocks (class_capacity class) }
{
    blocks * size_of_class(class) <= BLOCK_BYTES
}

/// How many blocks a slab of the class has.
pub fn capacity(class: u8) -> u32
    requires { class < 36 }
    ensures count { result ≡ class_capacity class }
    ensures least { 3 ≤ result }
    ensures most { result ≤ 3968 }
{
    BLOCK_BYTES / size_of_class(class)
}
