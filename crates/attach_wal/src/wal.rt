// Opening an entry, and closing it.
ghost use Rattle.std.specs.Prelude.{◌<◌, ◌*◌, length};
ghost use Rattle.pmem_lines.specs.Pmem.{words_of, HasRoom};
ghost use Rattle.pmem_lines.specs.Events.{IsQuiet};
ghost use Rattle.pmem_lines.specs.Steps.{IsQuietStep};
ghost use Rattle.durable_steps.specs.Steps.{word_events};
ghost use Rattle.pool_layout.specs.Places.{wal_word};
ghost use Rattle.attach_wal.specs.Entry.{entry_word, FitsWord};
ghost use Rattle.attach_wal.specs.Wal.{Opens, OpensOrNot, Closes, ClosesOrNot};

use crate::entry_word;
use durable_steps::write_word;
use image_tables::WalEntry;
use pmem_lines::Pmem;
use pool_layout::wal_at;

/// Opens an entry: its word is stored to a line, from 0 to 7, and made durable, in three events. Where no entry was open
/// before, this one is open now, and nothing else that the words say has changed; after a crash within it is open or not.
pub fn write_entry<P: Pmem>(device: &mut P, line: u32, entry: WalEntry)
    requires line { line < 8 }
    requires entry { FitsWord entry }
    requires inside { wal_word line < length (words_of (P.state device.old)) }
    requires quiet { IsQuiet (P.state device.old).events }
    requires room { HasRoom (P.state device.old) 3 }
    ensures step { IsQuietStep (P.state device.old) (P.state device.new) (word_events (8 * wal_word line) (entry_word entry)) (OpensOrNot (words_of (P.state device.old)) line entry) }
    ensures opens { Opens (words_of (P.state device.old)) line entry (words_of (P.state device.new)) }
{
    write_word(device, wal_at(line), entry_word(entry));
}

/// Closes an entry: 0 is stored to its line, from 0 to 7, and made durable, in three events. Where no other line has an
/// entry, none is open now, and nothing else that the words say has changed; after a crash within it is open or not.
pub fn close_entry<P: Pmem>(device: &mut P, line: u32)
    requires line { line < 8 }
    requires inside { wal_word line < length (words_of (P.state device.old)) }
    requires quiet { IsQuiet (P.state device.old).events }
    requires room { HasRoom (P.state device.old) 3 }
    ensures step { IsQuietStep (P.state device.old) (P.state device.new) (word_events (8 * wal_word line) 0) (ClosesOrNot (words_of (P.state device.old)) line) }
    ensures closes { Closes (words_of (P.state device.old)) line (words_of (P.state device.new)) }
{
    write_word(device, wal_at(line), 0);
}
