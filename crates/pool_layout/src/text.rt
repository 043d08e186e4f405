// The texts of the defects.

ghost use Rattle.std.specs.Prelude.{◌≡◌, ◌++◌, OnOk, OnErr};
ghost use Rattle.pool_layout.specs.Defect.{spaced_number, named_numbers, defect_text, IsGrown};

use crate::Defect;
use itoa::Buffer;
use pmem_lines::OutOfMemory;

impl Defect {
    /// Appends the text, with no line feed. For want of memory nothing is appended.
    pub fn append_text(&self, text: &mut Vec<u8>) -> Result<(), OutOfMemory>
        ensures done { OnOk result (text.new.items ≡ text.old.items ++ defect_text self.now) }
        ensures unchanged { OnErr result (text.new.items ≡ text.old.items) }
    {
        match *self {
            Defect::BadLength { have, need } => append(text, b"bad length", &[have, need]),
            Defect::BadHeader { word, value } => append(
                text,
                b"bad header",
                &[u64::from(word), value],
            ),
            Defect::BadDirectory { value } => append(text, b"bad directory", &[value]),
            Defect::BadEntry {
                chunk,
                entry,
                value,
            } => {
                append(
                    text,
                    b"bad entry",
                    &[u64::from(chunk), u64::from(entry), value],
                )
            }
            Defect::Overlap { first, second } => append(
                text,
                b"overlap",
                &[u64::from(first), u64::from(second)],
            ),
            Defect::BadSlab { start, value } => append(
                text,
                b"bad slab",
                &[u64::from(start), value],
            ),
            Defect::BadWal { line, value } => append(text, b"bad wal", &[u64::from(line), value]),
            Defect::StrayRoot { root, at } => append(text, b"stray root", &[u64::from(root), at]),
            Defect::SharedBlock { first, second } => {
                append(
                    text,
                    b"shared block",
                    &[u64::from(first), u64::from(second)],
                )
            }
            Defect::StrayBit { at } => append(text, b"stray bit", &[u64::from(at)]),
            Defect::TooManyLoose {
                large,
                empty,
                morphing,
                done,
            } => {
                let counts = [
                    u64::from(large),
                    u64::from(empty),
                    u64::from(morphing),
                    u64::from(done),
                ];
                append(text, b"too many loose", &counts)
            }
        }
    }
}

// Appends all of a name and numbers, or nothing.
fn append(text: &mut Vec<u8>, name: &[u8], numbers: &[u64]) -> Result<(), OutOfMemory>
    ensures done { OnOk result (text.new.items ≡ text.old.items ++ named_numbers name.now numbers.now) }
    ensures unchanged { OnErr result (text.new.items ≡ text.old.items) }
{
    let before = text.len();
    let result = grow(text, name, numbers);
    if result.is_err() {
        text.truncate(before);
    }
    result
}

fn grow(text: &mut Vec<u8>, name: &[u8], numbers: &[u64]) -> Result<(), OutOfMemory>
    ensures done { OnOk result (text.new.items ≡ text.old.items ++ named_numbers name.now numbers.now) }
    ensures grown { OnErr result (IsGrown text.old.items text.new.items) }
{
    text.extend_from_slice(name)?;
    for number in numbers {
        grow_by_number(text, *number)?;
    }
    Ok(())
}

fn grow_by_number(text: &mut Vec<u8>, number: u64) -> Result<(), OutOfMemory>
    ensures done { OnOk result (text.new.items ≡ text.old.items ++ spaced_number number) }
    ensures grown { OnErr result (IsGrown text.old.items text.new.items) }
{
    let mut buffer = Buffer::new();
    let digits = buffer.format(number).as_bytes();
    text.extend_from_slice(b" ")?;
    text.extend_from_slice(digits)?;
    Ok(())
}
