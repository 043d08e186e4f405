// The words of a block in hexadecimal.
ghost use Rattle.std.specs.Prelude.{◌≡◌, [], ◌∷◌, ◌+◌, ◌-◌, ◌*◌, ◌/◌, ◌%◌, ◌^◌, ◌<◌, ◌≤◌, ◌++◌, length, OnOk};
ghost use Rattle.pmem_lines.specs.Words.{word_at};
ghost use Rattle.map_text.specs.Dump.{hex_digit, hex, dump_line, dump_text};

use pmem_lines::OutOfMemory;
use trace_text::write_bytes;

// The letter of a digit below 16.
fn hex_digit(digit: u8) -> u8
    requires { digit < 16 }
    ensures { result ≡ hex_digit digit }
{
    if digit < 10 {
        b'0' + digit
    } else {
        b'a' + (digit - 10)
    }
}

// Writes the last so many digits of a number, the highest first.
fn write_hex(out: &mut Vec<u8>, width: u32, number: u64) -> Result<(), OutOfMemory>
    requires { width ≤ 16 }
    ensures { OnOk result (out.new.items ≡ out.old.items ++ hex width number) }
{
    for i in 0..width {
        let digit = ((number >> (4 * (width - 1 - i))) % 16) as u8;
        write_bytes(out, &[hex_digit(digit)])?;
    }
    Ok(())
}

// A word, 0 past the last one.
fn word_at(words: &[u64], word: u64) -> u64
    ensures { result ≡ word_at words.now word }
{
    if word >= words.len() as u64 {
        return 0;
    }
    words[word as usize]
}

// Writes the line of sixteen bytes from an address on.
#[tactic(auto, unfolding(crate::specs::Dump::dump_line))]
fn write_line(out: &mut Vec<u8>, words: &[u64], at: u64) -> Result<(), OutOfMemory>
    requires { at < 2 ^ 32 }
    ensures { OnOk result (out.new.items ≡ out.old.items ++ dump_line words.now at) }
{
    write_hex(out, 8, at)?;
    write_bytes(out, b" ")?;
    write_hex(out, 16, word_at(words, at / 8))?;
    write_bytes(out, b" ")?;
    write_hex(out, 16, word_at(words, at / 8 + 1))?;
    write_bytes(out, b"\n")
}

/// Writes the words of a range of bytes behind what stands in `out`: a line for each sixteen of them, with the address of the
/// first and two words, in hexadecimal.
pub fn write_dump(out: &mut Vec<u8>, words: &[u64], at: u64, size: u64) -> Result<(), OutOfMemory>
    requires begins { at < 2 ^ 31 }
    requires few { size < 2 ^ 31 }
    ensures { OnOk result (out.new.items ≡ out.old.items ++ dump_text words.now (record { at = at; size = size })) }
{
    for i in 0..size / 16 {
        write_line(out, words, at + 16 * i)?;
    }
    Ok(())
}
