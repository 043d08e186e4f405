// Slots and rows of them: what a slot has, the place of a key, and what a slot that comes or goes does to the others.
ghost use Rattle.std.specs.Prelude.{◌≡◌, ◌<◌, ◌≤◌, length, IfSome};
ghost use Rattle.dict_index.specs.Kept.{AreKeyed, IsCutAt, IsTurned, IsSlotOf};

/// What is no root.
pub(crate) const NO_ROOT: u16 = u16::MAX;

/// The root that stands in a slot, where a key stands there with one.
pub(crate) fn root_of(keys: &[u64], roots: &[u16], slot: u16, key: u64) -> Option<u16>
    requires { length roots.now ≡ length keys.now }
    ensures { IfSome result (IsSlotOf keys.now roots.now slot key) }
{
    let at = slot as usize;
    if at >= keys.len() || keys[at] != key || roots[at] == NO_ROOT {
        return None;
    }
    Some(roots[at])
}

/// How many of the keys of the first slots of a row, which rise, are below one. It looks at one of them for each doubling of how
/// many there are.
pub(crate) fn place_among(row: &[u16], count: usize, keys: &[u64], key: u64) -> usize
    requires { AreKeyed row.now count keys.now }
    ensures { IsCutAt row.now count keys.now key result }
{
    let mut low = 0;
    let mut high = count;
    while low < high {
        let middle = low + (high - low) / 2;
        if keys[row[middle] as usize] < key {
            low = middle + 1;
        } else {
            high = middle;
        }
    }
    low
}

/// The slot of a later place comes to an earlier one, and those from there on move up by one.
pub(crate) fn turn_up(row: &mut [u16], place: usize, last: usize)
    requires order { place ≤ last }
    requires inside { last < length row.old }
    ensures { IsTurned row.old place last row.new }
{
    let slot = row[last];
    let mut i = last;
    while place < i {
        row[i] = row[i - 1];
        i -= 1;
    }
    row[place] = slot;
}

/// The slot of an earlier place goes to a later one, and those behind it up to there move down by one.
pub(crate) fn turn_down(row: &mut [u16], place: usize, last: usize)
    requires order { place ≤ last }
    requires inside { last < length row.old }
    ensures { IsTurned row.new place last row.old }
{
    let slot = row[place];
    for i in place..last {
        row[i] = row[i + 1];
    }
    row[last] = slot;
}
