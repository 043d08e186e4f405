// Bytes and numbers, written at the end of a buffer.
ghost use Rattle.std.specs.Prelude.{◌≡◌, ◌∷◌, ◌++◌, decimal, OnOk, OnErr};
ghost use Rattle.trace_text.specs.Fronts.{BeginsWith};

use itoa::Buffer;
use pmem_lines::OutOfMemory;

/// Writes these bytes behind what stands in `out`. Where memory runs out, what stood there still stands at the front.
pub fn write_bytes(out: &mut Vec<u8>, bytes: &[u8]) -> Result<(), OutOfMemory>
    ensures text { OnOk result (out.new.items ≡ out.old.items ++ bytes.now) }
    ensures kept { OnErr result (BeginsWith out.new.items out.old.items) }
{
    Ok(out.extend_from_slice(bytes)?)
}

/// Writes a number behind what stands in `out`. Where memory runs out, what stood there still stands at the front.
pub fn write_number(out: &mut Vec<u8>, number: u64) -> Result<(), OutOfMemory>
    ensures text { OnOk result (out.new.items ≡ out.old.items ++ decimal number) }
    ensures kept { OnErr result (BeginsWith out.new.items out.old.items) }
{
    let mut buffer = Buffer::new();
    write_bytes(out, buffer.format(number).as_bytes())
}

/// Writes these bytes and then a number behind what stands in `out`. Where memory runs out, what stood there still stands at
/// the front.
pub fn write_word(out: &mut Vec<u8>, bytes: &[u8], number: u64) -> Result<(), OutOfMemory>
    ensures text { OnOk result (out.new.items ≡ out.old.items ++ (bytes.now ++ decimal number)) }
    ensures kept { OnErr result (BeginsWith out.new.items out.old.items) }
{
    write_bytes(out, bytes)?;
    write_number(out, number)
}

/// Writes these bytes and then two numbers with a space between. What stood there stays.
pub(crate) fn write_pair(
    out: &mut Vec<u8>,
    bytes: &[u8],
    first: u64,
    second: u64,
) -> Result<(), OutOfMemory>
    ensures text { OnOk result (out.new.items ≡ out.old.items ++ (bytes.now ++ decimal first ++ 32 ∷ decimal second)) }
    ensures kept { OnErr result (BeginsWith out.new.items out.old.items) }
{
    write_word(out, bytes, first)?;
    write_word(out, b" ", second)
}
