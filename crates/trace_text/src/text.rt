// Texts of lines, which traces and scripts are.
ghost use Rattle.std.specs.Prelude.{◌≡◌, ◌↔◌, ◌<◌, ◌∷◌, length, IsTrue};
ghost use Rattle.trace_text.specs.Texts.{lines_of, IsPassedOver};

use memchr::memchr;
use pmem_lines::OutOfMemory;
use thiserror::Error;

/// Why a text is not read.
#[derive(Debug, Drop, Error)]
pub enum TextFault {
    /// There was no memory.
    #[error("Memory")]
    Memory(OutOfMemory),
    /// This line, counted from 1, is the first outside the grammar.
    #[error("BadLine")]
    BadLine { line: u64 },
}

/// The first line of a text that is not empty, without its line feed, and what follows that.
pub fn next_line(text: &[u8]) -> (&[u8], &[u8])
    requires { 0 < length text.now }
    ensures lines { lines_of text.now ≡ result.0.now ∷ lines_of result.1.now }
    ensures shorter { length result.1.now < length text.now }
{
    match memchr(b'\n', text) {
        Some(end) => (&text[..end], &text[end + 1..]),
        None => (text, &text[text.len()..]),
    }
}

/// Whether a line is passed over: it is empty or begins with `#`.
pub fn is_passed_over(line: &[u8]) -> bool
    ensures { IsTrue result ↔ IsPassedOver line.now }
{
    line.is_empty() || line[0] == b'#'
}
