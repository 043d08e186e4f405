// Free granules, and the most of them in a row.
ghost use Rattle.std.specs.Prelude.{◌↔◌, ◌+◌, ◌<◌, ◌≤◌, ◌^◌, IsTrue, length};
ghost use Rattle.image_defects.specs.Count.{IsCount};
ghost use Rattle.heap_map.specs.Cells.{IsFreeCell};
ghost use Rattle.heap_map.specs.Facts.{IsLongestRow};
ghost use Rattle.heap_map.specs.Scans.{AreRuns};

use crate::cell::{Cell, Kind};
use defect_search::counted;

// How long the row of free granules is that ends here, and the longest one so far.
#[derive(Clone, Copy)]
struct Runs {
    run: u32,
    longest: u32,
}

/// How many granules are free, and the most of them in a row.
#[derive(Clone, Copy)]
pub struct FreeCounts {
    pub free: u32,
    pub longest: u32,
}

// A granule is free.
fn is_free(cells: &[Cell], granule: u32) -> bool
    requires { granule < length cells.now }
    ensures { IsTrue result ↔ IsFreeCell cells.now granule }
{
    let cell = cells[granule as usize];
    match cell.kind {
        Kind::Free => true,
        _ => false,
    }
}

// One granule more, which is free or not.
fn longer(cells: &[Cell], runs: Runs, granule: u32, free: bool) -> Runs
    requires granule { granule < 2 ^ 31 }
    requires free { IsTrue free ↔ IsFreeCell cells.now granule }
    requires runs { AreRuns (IsFreeCell cells.now) granule runs }
    ensures { AreRuns (IsFreeCell cells.now) (granule + 1) result }
{
    let _ = cells;
    if !free {
        return Runs {
            run: 0,
            longest: runs.longest,
        };
    }
    let run = runs.run + 1;
    Runs {
        run,
        longest: runs.longest.max(run),
    }
}

/// How many granules of a row of cells are free, and the most of them in a row.
pub fn free_counts(cells: &[Cell]) -> FreeCounts
    requires { length cells.now ≤ 4096 }
    ensures free { IsCount (IsFreeCell cells.now) (length cells.now) result.free }
    ensures longest { IsLongestRow (IsFreeCell cells.now) result.longest }
{
    let mut free = 0;
    let mut runs = Runs { run: 0, longest: 0 };
    for granule in 0..cells.len() as u32 {
        let here = is_free(cells, granule);
        free = counted(free, here);
        runs = longer(cells, runs, granule, here);
    }
    FreeCounts {
        free,
        longest: runs.longest,
    }
}
