// Rows of words, stored and flushed by loops.

ghost use Rattle.std.specs.Prelude.{◌≡◌, ◌+◌, ◌*◌, ◌/◌, ◌%◌, ◌^◌, ◌<◌, ◌≤◌, [], ◌∷◌, ◌++◌, length};
ghost use Rattle.pmem_lines.specs.Pmem.{words_of, HasRoom, Appends};
ghost use Rattle.pmem_lines.specs.Steps.{IsQuietStep};
ghost use Rattle.pmem_lines.specs.Events.{IsQuiet};
ghost use Rattle.durable_steps.specs.Rows.{IsOldOrNewRow, stores_at, flushes_of, lines_of, row_events};

use pmem_lines::Pmem;

/// Stores words one after another from an address on, an event for each. None of them is durable by that. The words end
/// below 2^32 bytes.
pub fn store_words<P: Pmem>(device: &mut P, from: u32, words: &[u64])
    requires aligned { from % 8 ≡ 0 }
    requires inside { from + 8 * length words.now ≤ 8 * length (words_of (P.state device.old)) }
    requires fits { from + 8 * length words.now < 2 ^ 32 }
    requires room { HasRoom (P.state device.old) (length words.now) }
    ensures appends { Appends (P.state device.old) (P.state device.new) (stores_at from words.now) }
    ensures count { length (P.state device.new).events ≡ length (P.state device.old).events + length words.now }
{
    for (i, word) in words.iter().enumerate() {
        device.store(from + 8 * i as u32, *word);
    }
}

/// Flushes `count` lines from `first` on, an event for each. What was stored to them before is durable once a fence
/// follows.
pub fn flush_lines<P: Pmem>(device: &mut P, first: u32, count: u32)
    requires inside { 8 * (first + count) ≤ length (words_of (P.state device.old)) }
    requires fits { first + count < 2 ^ 32 }
    requires room { HasRoom (P.state device.old) count }
    ensures appends { Appends (P.state device.old) (P.state device.new) (flushes_of first count) }
    ensures count { length (P.state device.new).events ≡ length (P.state device.old).events + count }
{
    for i in 0..count {
        device.flush(first + i);
    }
}

/// Stores words one after another from an address on, at least one, and makes them durable under one fence: an event for
/// each word, one for each line that they touch, and the fence. The words end below 2^32 bytes. After a crash within
/// them each word of the row is old or new, and every other word is as before.
pub fn write_row<P: Pmem>(device: &mut P, from: u32, words: &[u64])
    requires aligned { from % 8 ≡ 0 }
    requires inside { from + 8 * length words.now ≤ 8 * length (words_of (P.state device.old)) }
    requires fits { from + 8 * length words.now < 2 ^ 32 }
    requires lines { length (words_of (P.state device.old)) % 8 ≡ 0 }
    requires some { 0 < length words.now }
    requires quiet { IsQuiet (P.state device.old).events }
    requires room { HasRoom (P.state device.old) (length words.now + lines_of from (length words.now) + 1) }
    ensures step { IsQuietStep (P.state device.old) (P.state device.new) (row_events from words.now) (IsOldOrNewRow (words_of (P.state device.old)) from words.now) }
    ensures count { length (P.state device.new).events ≡ length (P.state device.old).events + (length words.now + lines_of from (length words.now) + 1) }
{
    store_words(device, from, words);
    let first = from / 64;
    let end = (from + 8 * words.len() as u32 - 8) / 64 + 1;
    flush_lines(device, first, end - first);
    device.fence();
}
