// Slabs in transition.
ghost use Rattle.std.specs.Prelude.{◌↔◌, ◌<◌, ◌≤◌, IsTrue, length};
ghost use Rattle.image_defects.specs.Count.{IsCount};
ghost use Rattle.heap_map.specs.Cells.{IsTurningCell};

use crate::cell::{Cell, Kind};
use defect_search::counted;

// A slab in transition begins at a granule.
fn is_turning(cells: &[Cell], granule: u32) -> bool
    requires { granule < length cells.now }
    ensures { IsTrue result ↔ IsTurningCell cells.now granule }
{
    let cell = cells[granule as usize];
    match cell.kind {
        Kind::Slab { fill } => fill.slab.start == granule && fill.turns,
        _ => false,
    }
}

/// How many slabs of a row of cells are in transition.
pub fn count_transitions(cells: &[Cell]) -> u32
    requires { length cells.now ≤ 4096 }
    ensures { IsCount (IsTurningCell cells.now) (length cells.now) result }
{
    let mut count = 0;
    for granule in 0..cells.len() as u32 {
        count = counted(count, is_turning(cells, granule));
    }
    count
}
