// The scripts of a dictionary, each with the map that is there behind each of its calls.
use crate::scripts::Amount;
use std::alloc::{AllocError, Global};

/// A call, and the line that its key has in the map behind it: none where the key is not there. The number is the place of the
/// key among those of the script.
type Row = (usize, &'static str, &'static str);

/// A script over an arena of 16 granules.
#[derive(Clone, Copy)]
pub(crate) enum StoreScript {
    /// Puts of several sizes, one of them of what the key has, a removal, and calls that change nothing.
    Store,
    /// Three slabs, of which each takes another class, until there is no space for a pair of one more class, nor for one of a key
    /// that is there. A replaced key makes room, and removals give a slab back.
    FullStore,
}

/// The names of the scripts, in the order in which they run.
pub(crate) const STORES: [&str; 2] = ["store", "full-store"];

// How many places of keys are looked at.
const PLACES: usize = 8;

impl StoreScript {
    /// The script of a name.
    pub(crate) fn of_name(name: &str) -> Option<StoreScript> {
        match name {
            "store" => Some(StoreScript::Store),
            "full-store" => Some(StoreScript::FullStore),
            _ => None,
        }
    }

    /// The first and the last event that is stopped, where the script has so many: behind a call that was refused, or at the
    /// publish of one that replaces a key, up to where what that makes stale is gone.
    pub(crate) fn events_of(self, amount: Amount, count: u64) -> (u64, u64) {
        match (amount, self) {
            (Amount::Whole, _) => (0, count),
            (Amount::Brief, StoreScript::Store) => (209, 233),
            (Amount::Brief, StoreScript::FullStore) => (684, 730),
        }
    }

    /// The text of the script.
    pub(crate) fn text(self, alloc: Global) -> Result<String, AllocError> {
        let mut text = String::from_str(alloc, "dict 16\n")?;
        for (_, call, _) in self.rows() {
            push_line(&mut text, call)?;
        }
        Ok(text)
    }

    /// The map behind so many of its calls, as it is printed.
    pub(crate) fn map_behind(self, alloc: Global, calls: u64) -> Result<String, AllocError> {
        let mut lines = String::new(alloc);
        let mut size = 0u32;
        for place in 0..PLACES {
            let line = line_behind(self.rows(), calls, place);
            if !line.is_empty() {
                size = size.saturating_add(1);
                push_line(&mut lines, line)?;
            }
        }
        format!(in alloc; "size {size}\n{lines}")
    }

    fn rows(self) -> &'static [Row] {
        match self {
            StoreScript::Store => &STORE_ROWS,
            StoreScript::FullStore => &FULL_ROWS,
        }
    }
}

fn push_line(text: &mut String, line: &str) -> Result<(), AllocError> {
    text.push_str(line)?;
    text.push_str("\n")
}

// The line that the key of a place has behind so many calls: that of the last one of the key.
fn line_behind(rows: &'static [Row], calls: u64, place: usize) -> &'static str {
    let made = &rows[..rows.len().min(calls as usize)];
    for (key, _, line) in made.iter().rev() {
        if *key == place {
            return line;
        }
    }
    ""
}

const STORE_ROWS: [Row; 8] = [
    (1, "put 7 1 2", "7 1 2"),
    (1, "put 7 5", "7 5"),
    (0, "put 3", "3"),
    (1, "get 7", "7 5"),
    (1, "put 7 5", "7 5"),
    (2, "del 9", ""),
    (0, "del 3", ""),
    (
        3,
        "put 18446744073709551615 1 2 3",
        "18446744073709551615 1 2 3",
    ),
];

// Keys 1, 3 and 5 have the first block of a slab, and keys 2, 4 and 6 that for which it takes a class. Then two puts are refused.
const FULL_ROWS: [Row; 14] = [
    (1, "put 1 1", "1 1"),
    (2, "put 2 2 2", "2 2 2"),
    (3, "put 3 3 3 3 3", "3 3 3 3 3"),
    (4, "put 4 4 4 4 4 4 4", "4 4 4 4 4 4 4"),
    (5, "put 5 5 5 5 5 5 5 5 5", "5 5 5 5 5 5 5 5 5"),
    (6, "put 6 6 6 6 6 6 6 6 6 6 6", "6 6 6 6 6 6 6 6 6 6 6"),
    (7, "put 7 7 7 7 7 7 7 7 7 7 7 7 7", ""),
    (1, "put 1 8", "1 1"),
    (1, "put 1 8 8 8", "1 8 8 8"),
    (
        7,
        "put 7 7 7 7 7 7 7 7 7 7 7 7 7",
        "7 7 7 7 7 7 7 7 7 7 7 7 7",
    ),
    (4, "del 4", ""),
    (3, "del 3", ""),
    (3, "put 3 9", "3 9"),
    (3, "del 3", ""),
];
