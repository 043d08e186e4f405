// The sequence by which a block moves.
ghost use Rattle.std.specs.Prelude.{◌<◌};
ghost use Rattle.pmem_lines.specs.Events.{IsQuiet};
ghost use Rattle.pmem_lines.specs.Steps.{IsQuietStep};
ghost use Rattle.pmem_lines.specs.Pmem.{words_of, HasRoom};
ghost use Rattle.attach_steps.specs.Steps.{move_events};
ghost use Rattle.move_steps.specs.Moves.{IsMovable, IsMoved, IsEitherMoved};

use attach_steps::put_root;
use attach_wal::{WalEntry, close_entry, write_entry};
use pmem_lines::Pmem;

/// Moves the block at `at` from root `from`, which holds it, to root `to`, another one, which holds none, by 12 events: the
/// entry is opened on a write-ahead line, from 0 to 7, `to` gets the address, `from` gets 0, the entry is closed. Every
/// other root keeps its block, and every block its words. After a crash within it the image is steady, and the one root
/// has the block or the other.
pub fn move_root<P: Pmem>(device: &mut P, line: u32, from: u32, to: u32, at: u32)
    requires line { line < 8 }
    requires movable { IsMovable (words_of (P.state device.old)) from to at }
    requires quiet { IsQuiet (P.state device.old).events }
    requires room { HasRoom (P.state device.old) 12 }
    ensures step { IsQuietStep (P.state device.old) (P.state device.new) (move_events line from to at) (IsEitherMoved (words_of (P.state device.old)) (words_of (P.state device.new)) to) }
    ensures moved { IsMoved (words_of (P.state device.old)) line from to at (words_of (P.state device.new)) }
{
    write_entry(device, line, WalEntry::Move { from, to });
    // Each is durable before the next begins: the entry alone says which of two roots with one address holds the block, and
    // a crash that kept neither address would lose it.
    put_root(device, to, at);
    put_root(device, from, 0);
    close_entry(device, line);
}
