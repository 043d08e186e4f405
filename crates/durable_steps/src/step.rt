// One word, or two, made durable.

ghost use Rattle.std.specs.Prelude.{◌≡◌};
ghost use Rattle.pmem_lines.specs.Pmem.{words_of, HasRoom, IsPlace};
ghost use Rattle.pmem_lines.specs.Steps.{IsQuietStep};
ghost use Rattle.pmem_lines.specs.Events.{IsQuiet};
ghost use Rattle.durable_steps.specs.Steps.{word_events, pair_events, IsOldOrNewWord, IsOldOrNewPair};

use pmem_lines::Pmem;

/// Stores a word and makes it durable, in three events: store, flush, fence. After a crash within them the word is old
/// or new, and every other word is as before.
#[inline(always)]
pub fn write_word<P: Pmem>(device: &mut P, at: u32, value: u64)
    requires place { IsPlace (P.state device.old) at }
    requires quiet { IsQuiet (P.state device.old).events }
    requires room { HasRoom (P.state device.old) 3 }
    ensures { IsQuietStep (P.state device.old) (P.state device.new) (word_events at value) (IsOldOrNewWord (words_of (P.state device.old)) at value) }
{
    device.store(at, value);
    device.flush(at / 64);
    device.fence();
}

/// Stores a word and then another, and makes both durable under one fence, in five events: store and flush of the
/// first, store and flush of the second, fence. After a crash within them each of the two is old or new, and every other
/// word is as before: the second may be new without the first. Where both are one word, it ends with the second value.
pub fn write_pair<P: Pmem>(device: &mut P, first: u32, a: u64, second: u32, b: u64)
    requires first { IsPlace (P.state device.old) first }
    requires second { IsPlace (P.state device.old) second }
    requires quiet { IsQuiet (P.state device.old).events }
    requires room { HasRoom (P.state device.old) 5 }
    ensures { IsQuietStep (P.state device.old) (P.state device.new) (pair_events first a second b) (IsOldOrNewPair (words_of (P.state device.old)) first a second b) }
{
    device.store(first, a);
    device.flush(first / 64);
    device.store(second, b);
    device.flush(second / 64);
    device.fence();
}
