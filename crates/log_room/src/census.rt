// Which chunks the live extents need: one pass over the log.

ghost use Rattle.std.specs.Prelude.{◌≡◌, ◌≢◌, ◌==◌, ℕ, ◌<◌, ◌≤◌, not, length, slice_index_or, true, if◌then◌else◌};
ghost use Rattle.std.specs.List.{All};
ghost use Rattle.pmem_lines.specs.Pmem.{words_of};
ghost use Rattle.pool_layout.specs.Places.{heap_word};
ghost use Rattle.image_tables.specs.Log.{entry_or_none, chunk_log};
ghost use Rattle.book_log.specs.declared.entry.LogEntry.{LogEntry};
ghost use Rattle.book_log.specs.Entry.{start_of, extent_of, IsEntryWord};
ghost use Rattle.book_log.specs.Log.{IsChunk};
ghost use Rattle.book_log.specs.Book.{chunks_of};
ghost use Rattle.log_room.specs.Needless.{same_extent, first_of, first_needless};
ghost use Rattle.log_room.specs.Census.{blank_slot, slot_at, slot_noted, slot_behind, slot_over, all_spare, HasWholeLog};

use crate::chunks::{active_of, version_of};
use book_log::{LogEntry, log_entry_of};
use image_tables::Extent;
use pmem_lines::Pmem;
use pool_layout::{entry_at, layout_of};

// How many starts most arenas have at most, and how many an arena of any version.
const FEW_STARTS: usize = 1024;

const STARTS: usize = 4096;

// How many chunks a log has; it is the number of none.
const CHUNKS: usize = 16;

// What the entries so far say of a start: what the last one says, what the last one of another chunk says, and the chunk
// of the last one.
#[derive(Clone, Copy)]
struct Slot {
    last: Option<Extent>,
    other: Option<Extent>,
    owner: u32,
}

/// The first needless chunk in the order of the directory: without its entries the log has the same live extents.
pub(crate) fn first_needless<P: Pmem>(device: &P, granules: u32) -> Option<u8>
    requires log { HasWholeLog granules (words_of (P.state device.now)) }
    requires few { granules ≤ 4096 }
    ensures { result ≡ first_needless granules (words_of (P.state device.now)) (chunks_of (words_of (P.state device.now))) }
{
    if granules <= FEW_STARTS as u32 {
        needless_among::<P, FEW_STARTS>(device, granules)
    } else {
        needless_among::<P, STARTS>(device, granules)
    }
}

// The same by a table of so many starts: a smaller one takes less to be made blank.
#[inline(never)]
fn needless_among<P: Pmem, const N: usize>(device: &P, granules: u32) -> Option<u8>
    requires log { HasWholeLog granules (words_of (P.state device.now)) }
    requires few { granules ≤ N }
    requires small { N ≤ 4096 }
    ensures { result ≡ first_needless granules (words_of (P.state device.now)) (chunks_of (words_of (P.state device.now))) }
{
    let mut slots = blank_slots::<N>();
    first_noted(&mut slots, device, granules)
}

// The same by slots in which nothing is noted, one for each granule at least.
fn first_noted<P: Pmem>(slots: &mut [Slot], device: &P, granules: u32) -> Option<u8>
    requires log { HasWholeLog granules (words_of (P.state device.now)) }
    requires starts { granules ≤ length slots.old }
    requires blank { (start : ℕ) → slot_at slots.old start ≡ blank_slot }
    ensures { result ≡ first_needless granules (words_of (P.state device.now)) (chunks_of (words_of (P.state device.now))) }
{
    let active = active_of(device);
    note_log(
        slots,
        device,
        version_of(device),
        granules,
        active.as_slice(),
    );
    let needed = needed_chunks(slots, granules);
    first_spare(active.as_slice(), &needed)
}

// Slots in which nothing is noted.
fn blank_slots<const N: usize>() -> [Slot; N]
    ensures { (start : ℕ) → slot_at result start ≡ blank_slot }
{
    [Slot {
        last: None,
        other: None,
        owner: 16,
    }; N]
}

// Notes the entries of the active chunks, in the order of the directory.
fn note_log<P: Pmem>(slots: &mut [Slot], device: &P, version: u32, granules: u32, active: &[u32])
    requires formed { All (IsChunk version granules (words_of (P.state device.now))) active.now }
    requires small { All (λ chunk. chunk < 16) active.now }
    requires inside { heap_word version ≤ length (words_of (P.state device.now)) }
    requires starts { granules ≤ length slots.old }
    ensures { (start : ℕ) → slot_at slots.new start ≡ slot_over (chunk_log version (words_of (P.state device.now))) active.now start (slot_at slots.old start) }
{
    for chunk in active {
        note_chunk(slots, device, version, granules, *chunk);
    }
}

// Notes the entries of a chunk, by number.
fn note_chunk<P: Pmem>(slots: &mut [Slot], device: &P, version: u32, granules: u32, chunk: u32)
    requires formed { IsChunk version granules (words_of (P.state device.now)) chunk }
    requires small { chunk < 16 }
    requires inside { heap_word version ≤ length (words_of (P.state device.now)) }
    requires starts { granules ≤ length slots.old }
    ensures { (start : ℕ) → slot_at slots.new start ≡ slot_behind chunk (chunk_log version (words_of (P.state device.now)) chunk) start (slot_at slots.old start) }
{
    let layout = layout_of(version);
    for entry in 0..layout.chunk_entries {
        let word = device.load(entry_at(version, chunk, entry));
        note_word(slots, chunk, word, layout.first_granule, granules);
    }
}

// Notes a word of a chunk, where it is an entry.
fn note_word(slots: &mut [Slot], chunk: u32, word: u64, first: u32, granules: u32)
    requires starts { granules ≤ length slots.old }
    requires formed { word ≢ 0 → (entry : LogEntry) × IsEntryWord first granules word entry }
    ensures { (start : ℕ) → slot_at slots.new start ≡ slot_behind chunk (entry_or_none word) start (slot_at slots.old start) }
{
    if let Some(entry) = log_entry_of(word, first, granules) {
        note(slots, chunk, entry);
    }
}

// Notes an entry of a chunk.
fn note(slots: &mut [Slot], chunk: u32, entry: LogEntry)
    requires { start_of entry < length slots.old }
    ensures { (start : ℕ) → slot_at slots.new start ≡ (if start_of entry == start then slot_noted chunk (extent_of entry) (slot_at slots.old start) else slot_at slots.old start) }
{
    let start = entry.start() as usize;
    slots[start] = noted(slots[start], chunk, entry.extent());
}

// What is kept of a start of which an entry of the chunk says this.
fn noted(slot: Slot, chunk: u32, says: Option<Extent>) -> Slot
    ensures { result ≡ slot_noted chunk says slot }
{
    Slot {
        last: says,
        other: if slot.owner == chunk {
            slot.other
        } else {
            slot.last
        },
        owner: chunk,
    }
}

// Which chunks some start needs.
fn needed_chunks(slots: &[Slot], granules: u32) -> [bool; CHUNKS]
    requires { granules ≤ length slots.now }
    ensures { (chunk : ℕ) → chunk < 16 → slice_index_or result chunk true ≡ not (all_spare (slot_at slots.now) chunk granules) }
{
    let mut needed = [false; CHUNKS];
    for start in 0..granules as usize {
        let slot = slots[start];
        let owner = slot.owner as usize;
        if owner < CHUNKS && !same_extent(slot.other, slot.last) {
            needed[owner] = true;
        }
    }
    needed
}

// Two extents, or none, are of one kind and length.
fn same_extent(one: Option<Extent>, other: Option<Extent>) -> bool
    ensures { result ≡ same_extent one other }
{
    match (one, other) {
        (None, None) => true,
        (Some(Extent::Large { granules }), Some(Extent::Large { granules: others })) => {
            granules == others
        }
        (Some(Extent::Slab), Some(Extent::Slab)) => true,
        _ => false,
    }
}

// The first of the chunks that is not needed.
fn first_spare(active: &[u32], needed: &[bool; CHUNKS]) -> Option<u8>
    requires { All (λ chunk. chunk < 16) active.now }
    ensures { result ≡ first_of (λ chunk. not (slice_index_or needed.now chunk true)) active.now }
{
    for chunk in active {
        if !needed[*chunk as usize] {
            return Some(*chunk as u8);
        }
    }
    None
}
