// The numbers that depend on the version of a pool.

ghost use Rattle.std.specs.Prelude.{◌≡◌, ◌↔◌, ◌≤◌, IsTrue};
ghost use Rattle.pool_layout.specs.Layout.{layout_of, all_granules, IsVersion, IsLayout};

/// The numbers of one version of the layout. Places are in bytes from the arena's first one.
#[derive(Clone, Copy, Debug, PartialEq, Eq)]
pub struct Layout {
    /// How many root words there are.
    pub roots: u32,
    /// Where the log begins.
    pub log_at: u32,
    /// The bytes of a chunk of the log, of which there are 16.
    pub chunk_bytes: u32,
    /// The entries of a chunk.
    pub chunk_entries: u32,
    /// The granule that the heap begins with.
    pub first_granule: u32,
    /// The least number of granules of an arena.
    pub least_granules: u32,
    /// The greatest number of granules of an arena.
    pub most_granules: u32,
    /// How many events an entry that is put into the log has at most, where a chunk at most is written for it.
    pub roll_events: u32,
    /// How many events an entry that is put into the log has at most, with those that make room for it.
    pub entry_events: u32,
    /// How many events a slab that is opened has at most, with those of its entry.
    pub slab_events: u32,
    /// How many events recovery has at most.
    pub recovery_events: u32,
    /// How many events a device must have room for.
    pub room: u32,
}

const VERSION_1: Layout = Layout {
    roots: 4096,
    log_at: 49152,
    chunk_bytes: 1024,
    chunk_entries: 120,
    first_granule: 4,
    least_granules: 16,
    most_granules: 1024,
    roll_events: 142,
    entry_events: 682,
    slab_events: 757,
    recovery_events: 909,
    room: 2048,
};

const VERSION_2: Layout = Layout {
    roots: 16384,
    log_at: 147_456,
    chunk_bytes: 4096,
    chunk_entries: 504,
    first_granule: 13,
    least_granules: 25,
    most_granules: 4096,
    roll_events: 574,
    entry_events: 2842,
    slab_events: 2917,
    recovery_events: 3501,
    room: 4096,
};

/// How many granules all arenas of a pool have together at most.
pub const POOL_GRANULES: u32 = 16528;

/// How many granules so many arenas have together, each of so many.
#[tactic(auto, unfolding(crate::specs::Layout::all_granules))]
pub fn all_granules(arenas: u32, granules: u32) -> u32
    requires arenas { arenas ≤ 16 }
    requires granules { granules ≤ 4096 }
    ensures { result ≡ all_granules arenas granules }
{
    arenas * granules
}

/// A pool may have this version.
pub fn is_version(version: u32) -> bool
    ensures { IsTrue result ↔ IsVersion version }
{
    version == 1 || version == 2
}

/// The row of the table for this version. A version that no pool has is read as the first.
pub fn layout_of(version: u32) -> Layout
    ensures row { result ≡ layout_of version }
    ensures rules { IsLayout result }
{
    if version == 2 { VERSION_2 } else { VERSION_1 }
}
