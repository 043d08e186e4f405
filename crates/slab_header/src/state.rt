// The state word of a slab.

ghost use Rattle.std.specs.Prelude.{◌≡◌, ◌↔◌, IsTrue, Some, IfSome, MatchOption};
ghost use Rattle.slab_header.specs.State.{word_of_state, read_state, IsValidState, IsWordOfState, IsNoStateWord, SaysOfState};

// How many classes there are.
const CLASSES: u8 = 36;
// How many places the index table has.
const PLACES: u8 = 64;

/// The state of a slab. A class is below 36. A slab that is not normal had another class before, `old`, and the first
/// `entries` places of its index table are read, from 1 to 64.
#[derive(Clone, Copy, Debug, PartialEq, Eq)]
pub enum SlabState {
    /// All blocks have the slab's class.
    Normal { class: u8 },
    /// The slab is taking its class, and its live blocks have the class before.
    Morphing { class: u8, old: u8, entries: u8 },
    /// The slab has its class, and some blocks of the class before may live.
    Morphed { class: u8, old: u8, entries: u8 },
}

/// The state of a word. There is none exactly where the word is not a state word: where kind, class or number of entries
/// is out of range, both classes are one, a normal slab has an old class or entries, or a bit without a meaning is set.
/// So 0 has none.
pub fn state_of(word: u64) -> Option<SlabState>
    ensures state { MatchOption result (IsNoStateWord word) (IsWordOfState word) }
    ensures says { IfSome result (SaysOfState word) }
{
    let state = read_state(word)?;
    if is_valid(state) && state_word(state) == word {
        Some(state)
    } else {
        None
    }
}

/// The word of a state.
pub fn state_word(s: SlabState) -> u64
    requires { IsValidState s }
    ensures word { result ≡ word_of_state s }
    ensures inverse { read_state result ≡ Some s }
    ensures says { SaysOfState result s }
{
    match s {
        SlabState::Normal { class } => 1 + (u64::from(class) << 8),
        SlabState::Morphing {
            class,
            old,
            entries,
        } => 2 + (u64::from(class) << 8) + (u64::from(old) << 16) + (u64::from(entries) << 24),
        SlabState::Morphed {
            class,
            old,
            entries,
        } => 3 + (u64::from(class) << 8) + (u64::from(old) << 16) + (u64::from(entries) << 24),
    }
}

// What the fields of a word say, whatever the rest of the word is.
fn read_state(word: u64) -> Option<SlabState>
    ensures { result ≡ read_state word }
{
    let class = ((word >> 8) % 256) as u8;
    let old = ((word >> 16) % 256) as u8;
    let entries = ((word >> 24) % 256) as u8;
    match word % 256 {
        1 => Some(SlabState::Normal { class }),
        2 => Some(SlabState::Morphing {
            class,
            old,
            entries,
        }),
        3 => Some(SlabState::Morphed {
            class,
            old,
            entries,
        }),
        _ => None,
    }
}

// The numbers of the state are in range, and its two classes differ.
fn is_valid(s: SlabState) -> bool
    ensures { IsTrue result ↔ IsValidState s }
{
    match s {
        SlabState::Normal { class } => class < CLASSES,
        SlabState::Morphing {
            class,
            old,
            entries,
        }
        | SlabState::Morphed {
            class,
            old,
            entries,
        } => {
            class < CLASSES && old < CLASSES && old != class && 1 <= entries && entries <= PLACES
        }
    }
}
