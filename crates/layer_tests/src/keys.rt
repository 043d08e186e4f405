// Maps from keys to roots.
ghost use Rattle.std.specs.Prelude.{◌≡◌, ◌≤◌, ◌<◌, ◌^◌, length};
ghost use Rattle.dict_index.specs.declared.key_map.Keyed.{Keyed};
ghost use Rattle.dict_index.specs.KeyRoots.{IsKeyed, IsKeyMap, LacksRoot};

use crate::values::same;
use dict_index::{KeyMap, Keyed};
use pmem_lines::OutOfMemory;
use std::alloc::{AllocError, Global};
use std::process::Abort;
use std::test::Fail;

// A map in which these keys have roots 0, 1 and so on. Where one comes twice its last root counts.
fn map_of(alloc: Global, keys: &[u64]) -> Result<KeyMap, OutOfMemory>
    requires { length keys.now < 2 ^ 16 }
{
    let mut map = KeyMap::with_room(alloc, keys.len() as u32)?;
    put_each(&mut map, keys);
    Ok(map)
}

#[tactic(auto, using(crate::proofs::Maps::put_roots, crate::proofs::Maps::put_below))]
fn put_each(map: &mut KeyMap, keys: &[u64])
    requires few { length keys.now < 2 ^ 16 }
    requires roots { map.old.roots ≡ length keys.now }
    requires none { (row : Keyed) → ¬ (IsKeyed map.old row) }
{
    for (i, key) in keys.iter().enumerate() {
        let root = i as u32;
        let _ = map.put(Keyed { key: *key, root });
    }
}

// A map of the most roots, with keys that rise.
fn map_of_most(alloc: Global) -> Result<KeyMap, OutOfMemory> {
    let mut map = KeyMap::with_room(alloc, 65535)?;
    push_the_most(&mut map);
    Ok(map)
}

fn push_the_most(map: &mut KeyMap)
    requires roots { map.old.roots ≡ 65535 }
    requires none { (row : Keyed) → ¬ (IsKeyed map.old row) }
{
    for root in 0..65535u32 {
        let key = u64::from(root) * STRIDE;
        map.push(Keyed { key, root });
    }
}

const STRIDE: u64 = 1_000_003;

// A key's root goes to another key, and that one's root, if it has one, to the first key.
fn swap(map: &mut KeyMap, from: u64, to: u64) -> Option<u32> {
    let root = map.remove(from)?;
    let was = map.put(Keyed { key: to, root });
    if let Some(root) = was {
        let _ = map.put(Keyed { key: from, root });
    }
    was
}

// All keys with their roots, from the least on. They go from the map.
fn drain(alloc: Global, map: &mut KeyMap) -> Result<Vec<(u64, u32)>, AllocError> {
    let mut rows = Vec::new(alloc);
    while let Some(next) = map.next_from(0) {
        match map.remove(next.key) {
            Some(root) => rows.push((next.key, root))?,
            None => break,
        }
    }
    Ok(rows)
}

// All keys with their roots, from the least on, are these.
fn drains_to<R: Abort>(
    rt: &R,
    alloc: Global,
    map: &mut KeyMap,
    wanted: &[(u64, u32)],
) -> Result<(), Fail> {
    let rows = drain(alloc, map)?;
    same(rt, &rows.as_slice(), &wanted);
    Ok(())
}

fn pair_of(found: Option<Keyed>) -> Option<(u64, u32)> {
    let next = found?;
    Some((next.key, next.root))
}

// By hand: the keys stand as 0, 3, 5, 8 with the roots 3, 1, 0, 2.
const KEYS: [u64; 4] = [5, 3, 8, 0];

// A key with its root, if it has one, and the first key that is not below it, with its root.
type Found = (u64, Option<u32>, Option<(u64, u32)>);

const FOUND: [Found; 9] = [
    (0, Some(3), Some((0, 3))),
    (1, None, Some((3, 1))),
    (3, Some(1), Some((3, 1))),
    (4, None, Some((5, 0))),
    (5, Some(0), Some((5, 0))),
    (6, None, Some((8, 2))),
    (8, Some(2), Some((8, 2))),
    (9, None, None),
    (u64::MAX, None, None),
];

#[test]
fn searches_by_hand(rt: HostRuntime) -> Result<(), Fail> {
    let map = map_of(rt.alloc(), &KEYS)?;
    are_found_by_hand(&rt, &map);
    Ok(())
}

fn are_found_by_hand<R: Abort>(rt: &R, map: &KeyMap) {
    same(rt, &map.len(), &4);
    for (key, root, next) in FOUND {
        same(rt, &(key, map.get(key)), &(key, root));
        same(rt, &(key, pair_of(map.next_from(key))), &(key, next));
    }
}

#[test]
fn keys_go_and_come_by_hand(rt: HostRuntime) -> Result<(), Fail> {
    let mut map = map_of(rt.alloc(), &KEYS)?;
    go_and_come(&rt, rt.alloc(), &mut map)
}

fn go_and_come<R: Abort>(rt: &R, alloc: Global, map: &mut KeyMap) -> Result<(), Fail> {
    // Roots 0 and 3 are changed, key 8 goes for key 4 at once, and what is not there stays so.
    same(rt, &(swap(map, 5, 0), map.len()), &(Some(3), 4));
    same(rt, &(map.get(0), map.get(5)), &(Some(0), Some(3)));
    same(rt, &(swap(map, 8, 4), map.len()), &(None, 4));
    same(rt, &(map.get(8), map.get(4)), &(None, Some(2)));
    same(rt, &(map.remove(8), map.len()), &(None, 4));
    // The first of all, and the last.
    same(rt, &(map.remove(0), map.remove(5)), &(Some(0), Some(3)));
    same(rt, &(map.get(0), map.get(5), map.len()), &(None, None, 2));
    drains_to(rt, alloc, map, &[(3, 1), (4, 2)])
}

// By how the keys came.
#[test]
fn drained_maps(rt: HostRuntime) -> Result<(), Fail> {
    map_drains_to(&rt, rt.alloc(), &[1, 2, 3], &[(1, 0), (2, 1), (3, 2)])?;
    map_drains_to(&rt, rt.alloc(), &[3, 2, 1], &[(1, 2), (2, 1), (3, 0)])?;
    map_drains_to(&rt, rt.alloc(), &[7, 9, 7, 7], &[(7, 3), (9, 1)])
}

fn map_drains_to<R: Abort>(
    rt: &R,
    alloc: Global,
    keys: &[u64],
    wanted: &[(u64, u32)],
) -> Result<(), Fail>
    requires { length keys.now < 2 ^ 16 }
{
    let mut map = map_of(alloc, keys)?;
    drains_to(rt, alloc, &mut map, wanted)
}

// The ends of the type, and a map to no root.
#[test]
fn searches_at_the_ends(rt: HostRuntime) -> Result<(), Fail> {
    find_the_ends(&rt, rt.alloc())?;
    find_no_root(&rt, rt.alloc())
}

fn find_the_ends<R: Abort>(rt: &R, alloc: Global) -> Result<(), Fail> {
    let map = map_of(alloc, &[u64::MAX, 0])?;
    are_found_at_the_ends(rt, &map);
    Ok(())
}

fn are_found_at_the_ends<R: Abort>(rt: &R, map: &KeyMap) {
    let most = u64::MAX;
    same(rt, &(map.get(0), map.get(most)), &(Some(1), Some(0)));
    same(
        rt,
        &(pair_of(map.next_from(1)), pair_of(map.next_from(most))),
        &(Some((most, 0)), Some((most, 0))),
    );
}

fn find_no_root<R: Abort>(rt: &R, alloc: Global) -> Result<(), Fail> {
    let none = map_of(alloc, &[])?;
    same(
        rt,
        &(none.len(), none.get(0), none.next_from(0)),
        &(0, None, None),
    );
    Ok(())
}

#[test]
fn the_most_roots(rt: HostRuntime) -> Result<(), Fail> {
    let map = map_of_most(rt.alloc())?;
    are_the_most(&rt, &map);
    Ok(())
}

fn are_the_most<R: Abort>(rt: &R, map: &KeyMap) {
    same(rt, &map.len(), &65535);
    for root in [0u32, 1, 255, 32767, 32768, 65533, 65534] {
        let key = u64::from(root) * STRIDE;
        same(rt, &(map.get(key), map.get(key + 1)), &(Some(root), None));
        same(rt, &pair_of(map.next_from(key)), &Some((key, root)));
    }
    same(rt, &map.next_from(65535 * STRIDE), &None);
}
