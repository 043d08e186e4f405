// The memory of a search, and what was read of a sound image.
ghost use Rattle.std.specs.Prelude.{◌≡◌, ◌≤◌, IfOk, MatchResult};
ghost use Rattle.gc_check.specs.Defects.{IsFirstGcDefect};
ghost use Rattle.gc_search.specs.Image.{IsRoomFor, IsSoundWith};

use crate::GcNames;
use crate::checking::find_defect;
use book_log::BookLog;
use defect_search::Claim;
use pmem_lines::OutOfMemory;
use pool_layout::Defect;
use std::alloc::Global;
use std::marker::Model;

// How many roots an arena of this variant has.
const ROOTS: usize = 4096;

/// All the memory that a search takes in an arena of 16 to 1024 granules. In contracts it is how many they are.
#[derive(Drop)]
pub struct GcSearch {
    log: BookLog,
    names: GcNames,
    claims: Vec<Claim>,
}

impl Model for GcSearch {
    ghost use Rattle.std.specs.Prelude.{ℕ, ◌≤◌};
    ghost use Rattle.std.specs.Vec.{vec_capacity};
    ghost use Rattle.gc_search.specs.Names.{AreBlankNames};

    ghost Value = { ℕ };

    ghost view = { λ search. search.log.granules };

    ghost invariant = { λ search. AreBlankNames search.log.granules search.names × ((4096 ≤ vec_capacity search.claims) × (search.log.granules ≤ 1024)) };
}

/// What was read of a sound image.
#[derive(Drop)]
pub struct GcImage {
    /// The log.
    pub log: BookLog,
    /// Which granules the roots' blocks begin in.
    pub names: GcNames,
}

// How many granules the header line of an arena says, or, where no arena has so many, the least number.
fn granules_of(words: &[u64]) -> u32
    ensures room { IsRoomFor words.now result }
    ensures least { 16 ≤ result }
    ensures most { result ≤ 1024 }
{
    if words.len() < 2 {
        return 16;
    }
    let granules = ((words[1] >> 32) % 65536) as u32;
    if granules < 16 || granules > 1024 {
        return 16;
    }
    granules
}

impl GcSearch {
    /// Takes all the memory of a search in these words. It looks at their header line alone, whatever it says.
    pub fn new(alloc: Global, words: &[u64]) -> Result<GcSearch, OutOfMemory>
        ensures { IfOk result (IsRoomFor words.now) }
    {
        let granules = granules_of(words);
        let log = BookLog::new(alloc, granules)?;
        let names = GcNames::new(alloc, granules)?;
        let claims = Vec::with_capacity(alloc, ROOTS)?;
        Ok(GcSearch { log, names, claims })
    }

    /// For how many granules it has memory: 16 to 1024.
    pub fn granules(&self) -> u32
        ensures granules { result ≡ self.now }
        ensures least { 16 ≤ result }
        ensures most { result ≤ 1024 }
    {
        self.log.granules()
    }

    /// Searches the words for which the memory was taken. Ok comes exactly where they are a sound image, with what was read of it;
    /// else the defect is the first in the order of the format. It takes no memory.
    pub fn judge(self, words: &[u64]) -> Result<GcImage, Defect>
        requires { IsRoomFor words.now self }
        ensures { MatchResult result (IsSoundWith words.now) (IsFirstGcDefect words.now) }
    {
        let GcSearch {
            mut log,
            mut names,
            mut claims,
        } = self;
        find_defect(words, &mut log, &mut names, &mut claims)?;
        Ok(GcImage { log, names })
    }
}
