// The shapes of a picture.
ghost use Rattle.std.specs.Prelude.{◌≡◌, ◌++◌, OnOk};
ghost use Rattle.map_svg.specs.Shapes.{box_text, line_begin, label_begin, count_begin, line_end};

use pmem_lines::OutOfMemory;
use trace_text::{write_bytes, write_word};

/// A rectangle: its tone, its left upper corner, and its width and height.
#[derive(Clone, Copy, Debug)]
pub(crate) struct Shape {
    pub(crate) tone: u32,
    pub(crate) x: u32,
    pub(crate) y: u32,
    pub(crate) width: u32,
    pub(crate) height: u32,
}

/// Writes a rectangle.
#[tactic(auto, unfolding(crate::specs::Shapes::box_text))]
pub(crate) fn write_box(out: &mut Vec<u8>, shape: Shape) -> Result<(), OutOfMemory>
    ensures { OnOk result (out.new.items ≡ out.old.items ++ box_text shape) }
{
    write_word(out, b"<rect class='k", u64::from(shape.tone))?;
    write_word(out, b"' x='", u64::from(shape.x))?;
    write_word(out, b"' y='", u64::from(shape.y))?;
    write_word(out, b"' width='", u64::from(shape.width))?;
    write_word(out, b"' height='", u64::from(shape.height))?;
    write_bytes(out, b"'/>\n")
}

/// Writes where a line of text begins.
#[tactic(auto, unfolding(crate::specs::Shapes::line_begin))]
pub(crate) fn begin_line(out: &mut Vec<u8>, x: u32, y: u32) -> Result<(), OutOfMemory>
    ensures { OnOk result (out.new.items ≡ out.old.items ++ line_begin x y) }
{
    write_word(out, b"<text x='", u64::from(x))?;
    write_word(out, b"' y='", u64::from(y))?;
    write_bytes(out, b"'>")
}

/// Writes where a small line of text begins that stands in a box.
#[tactic(auto, unfolding(crate::specs::Shapes::label_begin))]
pub(crate) fn begin_label(out: &mut Vec<u8>, x: u32, y: u32) -> Result<(), OutOfMemory>
    ensures { OnOk result (out.new.items ≡ out.old.items ++ label_begin x y) }
{
    write_word(out, b"<text class='m' x='", u64::from(x))?;
    write_word(out, b"' y='", u64::from(y))?;
    write_bytes(out, b"'>")
}

/// Writes the head of a small line of text that ends there.
#[tactic(auto, unfolding(crate::specs::Shapes::count_begin))]
pub(crate) fn begin_count(out: &mut Vec<u8>, x: u32, y: u32) -> Result<(), OutOfMemory>
    ensures { OnOk result (out.new.items ≡ out.old.items ++ count_begin x y) }
{
    write_word(out, b"<text class='n' x='", u64::from(x))?;
    write_word(out, b"' y='", u64::from(y))?;
    write_bytes(out, b"'>")
}

/// Writes how any of these ends.
pub(crate) fn end_line(out: &mut Vec<u8>) -> Result<(), OutOfMemory>
    ensures { OnOk result (out.new.items ≡ out.old.items ++ line_end) }
{
    write_bytes(out, b"</text>\n")
}
