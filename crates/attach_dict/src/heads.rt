// What blocks of pairs begin with, in rows: by key, and of a key by number.
ghost use Rattle.std.specs.Prelude.{◌≡◌, ◌<◌, ◌↔◌, IsTrue, length, IsPermutation};
ghost use Rattle.image_defects.specs.Least.{IsLeastOf};
ghost use Rattle.attach_dict.specs.declared.heads.Head.{Head};
ghost use Rattle.attach_dict.specs.Heads.{AreApart, AreInOrder, IsAt, IsTwice, EndsKey, lower_of};

/// The key and the number of a pair, and the root whose block it is. One comes before another by its key, among equals by its
/// number, and then by its root.
#[derive(Clone, Copy, PartialEq, Eq, PartialOrd, Ord)]
pub(crate) struct Head {
    pub(crate) key: u64,
    pub(crate) number: u64,
    pub(crate) root: u32,
}

/// Sorts a row of heads, of which no root has two. It takes no memory.
pub(crate) fn sort(heads: &mut Vec<Head>)
    requires { AreApart heads.old.items }
    ensures order { AreInOrder heads.new.items }
    ensures same { IsPermutation heads.old.items heads.new.items }
{
    heads.sort_unstable();
}

/// The lowest root of a sorted row that has the key and the number of a lower one.
pub(crate) fn first_twice(heads: &[Head]) -> Option<u32>
    requires { AreInOrder heads.now }
    ensures { IsLeastOf (IsTwice heads.now) result }
{
    let mut first = None;
    for i in 1..heads.len() {
        if is_alike(heads[i - 1], heads[i]) {
            first = Some(lower_of(first, heads[i].root));
        }
    }
    first
}

// Whether two heads have one key and one number.
fn is_alike(a: Head, b: Head) -> bool
    ensures { IsTrue result ↔ ((a.key ≡ b.key) × (a.number ≡ b.number)) }
{
    a.key == b.key && a.number == b.number
}

// The lower one of a root, if there is one, and another.
fn lower_of(root: Option<u32>, other: u32) -> u32
    ensures { result ≡ lower_of root other }
{
    match root {
        Some(root) => root.min(other),
        None => other,
    }
}

/// Whether the head at a place of a sorted row is the last one of its key.
pub(crate) fn ends_key(heads: &[Head], place: usize) -> bool
    requires order { AreInOrder heads.now }
    requires inside { place < length heads.now }
    ensures { (h : Head) → IsAt heads.now place h → EndsKey heads.now h result }
{
    place + 1 == heads.len() || heads[place + 1].key != heads[place].key
}
