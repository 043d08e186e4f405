// The head and the end of the page.
ghost use Rattle.std.specs.Prelude.{◌≡◌, ◌≤◌, ◌++◌, OnOk};
ghost use Rattle.map_svg.specs.Page.{arena_y, page_height, opening, subject, title, description, fixed_tones, class_tone, class_tones, style, ground, key, first_keys, last_keys, row_key, heading_line, head, end_of_page};

use crate::arenas::arena_height;
use crate::shapes::{Shape, begin_line, end_line, write_box};
use pmem_lines::OutOfMemory;
use trace_text::{write_bytes, write_word};

// How high the head is.
const HEAD: u32 = 96;

/// Where the picture of an arena is, of a pool whose arenas have so many granules.
pub fn arena_y(granules: u32, arena: u32) -> u32
    requires granules { granules ≤ 4096 }
    requires arena { arena ≤ 16 }
    ensures { result ≡ arena_y granules arena }
{
    HEAD + arena * arena_height(granules)
}

// Writes the line that opens the picture.
#[tactic(auto, unfolding(crate::specs::Page::opening))]
fn write_opening(out: &mut Vec<u8>, height: u32) -> Result<(), OutOfMemory>
    ensures { OnOk result (out.new.items ≡ out.old.items ++ opening height) }
{
    write_word(
        out,
        b"<svg xmlns='http://www.w3.org/2000/svg' role='img' width='1088' height='",
        u64::from(height),
    )?;
    write_word(out, b"' viewBox='0 0 1088 ", u64::from(height))?;
    write_bytes(out, b"'>\n")
}

// Writes what the picture is of.
#[tactic(auto, unfolding(crate::specs::Page::subject))]
fn write_subject(out: &mut Vec<u8>, arenas: u32, granules: u32) -> Result<(), OutOfMemory>
    ensures { OnOk result (out.new.items ≡ out.old.items ++ subject arenas granules) }
{
    write_word(out, b"Map of a pool. Arenas: ", u64::from(arenas))?;
    write_word(out, b". Granules of 16 KiB in each: ", u64::from(granules))
}

// Writes the title.
#[tactic(auto, unfolding(crate::specs::Page::title))]
fn write_title(out: &mut Vec<u8>, arenas: u32, granules: u32) -> Result<(), OutOfMemory>
    ensures { OnOk result (out.new.items ≡ out.old.items ++ title arenas granules) }
{
    write_bytes(out, b"<title>")?;
    write_subject(out, arenas, granules)?;
    write_bytes(out, b"</title>\n")
}

// Writes the description.
#[tactic(auto, unfolding(crate::specs::Page::description))]
fn write_description(out: &mut Vec<u8>) -> Result<(), OutOfMemory>
    ensures { OnOk result (out.new.items ≡ out.old.items ++ description) }
{
    write_bytes(
        out,
        b"<desc>Each field is a granule of 16 KiB, 64 a row. Its tone says what it is, and its label: h has the header line and the write-ahead lines, r root words, l chunks of the log. ",
    )?;
    write_bytes(
        out,
        b"A dark edge is where a large block, labelled #, or a slab begins, labelled with the size of its blocks in bytes. A dark bar in a slab says how many tenths of it live, a white one how many have old blocks. ",
    )?;
    write_bytes(
        out,
        b"A slab in transition between two classes is hatched. A red frame is around what is loose. A number among free granules is how many stand in the row that ends there, and the longest row is underlined there. ",
    )?;
    write_bytes(
        out,
        b"nvpool text and nvpool info tell the same in letters and numbers.</desc>\n",
    )
}

// Writes the tones that are not of classes.
#[tactic(auto, unfolding(crate::specs::Page::fixed_tones))]
fn write_fixed_tones(out: &mut Vec<u8>) -> Result<(), OutOfMemory>
    ensures { OnOk result (out.new.items ≡ out.old.items ++ fixed_tones) }
{
    write_bytes(
        out,
        b"text{font:12px sans-serif;fill:#111}text.m{font-size:11px;stroke:#fff;stroke-width:2px;paint-order:stroke}text.n{font-size:11px;text-anchor:end}.k0{fill:#334155}.k1{fill:#64748b}.k2{fill:#8b5cf6}",
    )?;
    write_bytes(
        out,
        b".k3{fill:#f8fafc;stroke:#94a3b8;stroke-width:.5}.k4{fill:#f59e0b}.k41{fill:url(#t)}",
    )?;
    write_bytes(
        out,
        b".k42{fill:#000;fill-opacity:.5}.k43{fill:#111}.k44{fill:none;stroke:#c00;stroke-width:3}.k45{fill:#fff;stroke:#111;stroke-width:1}.k46{fill:#111}\n",
    )
}

// Writes the tone of a class.
#[tactic(auto, unfolding(crate::specs::Page::class_tone))]
fn write_class_tone(out: &mut Vec<u8>, class: u32) -> Result<(), OutOfMemory>
    requires { class ≤ 36 }
    ensures { OnOk result (out.new.items ≡ out.old.items ++ class_tone class) }
{
    write_word(out, b".k", u64::from(5 + class))?;
    write_word(out, b"{fill:hsl(", u64::from(10 * class))?;
    write_bytes(out, b",50%,80%)}\n")
}

// Writes the tones of all classes.
fn write_class_tones(out: &mut Vec<u8>) -> Result<(), OutOfMemory>
    ensures { OnOk result (out.new.items ≡ out.old.items ++ class_tones) }
{
    for class in 0..36u32 {
        write_class_tone(out, class)?;
    }
    Ok(())
}

// Writes all tones.
#[tactic(auto, unfolding(crate::specs::Page::style))]
fn write_style(out: &mut Vec<u8>) -> Result<(), OutOfMemory>
    ensures { OnOk result (out.new.items ≡ out.old.items ++ style) }
{
    write_bytes(out, b"<style>")?;
    write_fixed_tones(out)?;
    write_class_tones(out)?;
    write_bytes(out, b"</style>\n")
}

// Writes the hatching, and a white ground.
#[tactic(auto, unfolding(crate::specs::Page::ground))]
fn write_ground(out: &mut Vec<u8>) -> Result<(), OutOfMemory>
    ensures { OnOk result (out.new.items ≡ out.old.items ++ ground) }
{
    write_bytes(
        out,
        b"<pattern id='t' width='6' height='6' patternUnits='userSpaceOnUse' patternTransform='rotate(45)'>",
    )?;
    write_bytes(
        out,
        b"<rect width='2' height='6' fill='#333'/></pattern><rect width='100%' height='100%' fill='#fff'/>\n",
    )
}

// Writes an entry of the legend.
#[tactic(auto, unfolding(crate::specs::Page::key))]
fn write_key(out: &mut Vec<u8>, place: u32, tone: u32, says: &[u8]) -> Result<(), OutOfMemory>
    requires { place ≤ 9 }
    ensures { OnOk result (out.new.items ≡ out.old.items ++ key place tone says.now) }
{
    write_box(
        out,
        Shape {
            tone,
            x: 32 + 104 * place,
            y: 44,
            width: 12,
            height: 12,
        },
    )?;
    begin_line(out, 50 + 104 * place, 55)?;
    write_bytes(out, says)?;
    end_line(out)
}

// Writes what the tones of granules say.
#[tactic(auto, unfolding(crate::specs::Page::first_keys))]
fn write_first_keys(out: &mut Vec<u8>) -> Result<(), OutOfMemory>
    ensures { OnOk result (out.new.items ≡ out.old.items ++ first_keys) }
{
    write_key(out, 0, 0, b"h header")?;
    write_key(out, 1, 1, b"r roots")?;
    write_key(out, 2, 2, b"l log")?;
    write_key(out, 3, 3, b"free")?;
    write_key(out, 4, 4, b"# large block")
}

// Writes what is said of slabs, and what is loose.
#[tactic(auto, unfolding(crate::specs::Page::last_keys))]
fn write_last_keys(out: &mut Vec<u8>) -> Result<(), OutOfMemory>
    ensures { OnOk result (out.new.items ≡ out.old.items ++ last_keys) }
{
    write_key(out, 5, 13, b"slab, by class")?;
    write_key(out, 6, 41, b"in transition")?;
    write_key(out, 7, 42, b"live part")?;
    write_key(out, 8, 45, b"old blocks")?;
    write_key(out, 9, 44, b"loose")
}

// Writes what numbers among free granules say.
#[tactic(auto, unfolding(crate::specs::Page::row_key))]
fn write_row_key(out: &mut Vec<u8>) -> Result<(), OutOfMemory>
    ensures { OnOk result (out.new.items ≡ out.old.items ++ row_key) }
{
    begin_line(out, 32, 77)?;
    write_bytes(
        out,
        b"A number among free granules: so many stand in the row that ends there. Underlined: the longest row.",
    )?;
    end_line(out)
}

// Writes the line that says what the picture is of.
#[tactic(auto, unfolding(crate::specs::Page::heading_line))]
fn write_heading_line(out: &mut Vec<u8>, arenas: u32, granules: u32) -> Result<(), OutOfMemory>
    ensures { OnOk result (out.new.items ≡ out.old.items ++ heading_line arenas granules) }
{
    begin_line(out, 32, 30)?;
    write_subject(out, arenas, granules)?;
    end_line(out)
}

/// Writes the head of the page of a pool of so many arenas of so many granules each.
#[tactic(auto, unfolding(crate::specs::Page::head))]
pub fn write_head(out: &mut Vec<u8>, arenas: u32, granules: u32) -> Result<(), OutOfMemory>
    requires arenas { arenas ≤ 16 }
    requires granules { granules ≤ 4096 }
    ensures { OnOk result (out.new.items ≡ out.old.items ++ head arenas granules) }
{
    write_opening(out, arena_y(granules, arenas))?;
    write_title(out, arenas, granules)?;
    write_description(out)?;
    write_style(out)?;
    write_ground(out)?;
    write_heading_line(out, arenas, granules)?;
    write_first_keys(out)?;
    write_last_keys(out)?;
    write_row_key(out)
}

/// Writes the end of the page.
pub fn write_end(out: &mut Vec<u8>) -> Result<(), OutOfMemory>
    ensures { OnOk result (out.new.items ≡ out.old.items ++ end_of_page) }
{
    write_bytes(out, b"</svg>\n")
}
