// A line that is put together from its end, in a buffer of its own, so that it is copied once. What puts pieces is inlined
// where their bytes are known, so that each is a move or two.
ghost use Rattle.std.specs.Prelude.{◌≡◌, ◌+◌, ◌≤◌, ◌∷◌, ◌++◌, [], decimal, length};

use itoa::write_digits;
use std::marker::Model;

/// How many bytes a line may have.
const ROOM: usize = 160;

/// The end of a line: what stands before it is put there piece by piece, the last piece first. In contracts it is the text
/// that it has so far, at most 160 bytes.
#[derive(Drop)]
pub(crate) struct LineEnd {
    bytes: [u8; ROOM],
    start: usize,
}

impl Model for LineEnd {
    ghost use Rattle.std.specs.Prelude.{◌≡◌, ◌≤◌, ℕ, List, drop, length};

    ghost Value = { List ℕ };

    ghost view = { λ a. drop a.start a.bytes };

    ghost invariant = { λ a. (length a.bytes ≡ 160) × (a.start ≤ 160) };
}

impl LineEnd {
    /// No text.
    pub(crate) fn new() -> LineEnd
        ensures { result ≡ [] }
    {
        LineEnd {
            bytes: [0; ROOM],
            start: ROOM,
        }
    }

    /// Puts bytes ahead of the text.
    #[inline(always)]
    pub(crate) fn put(&mut self, bytes: &[u8])
        requires { length bytes.now + length self.old ≤ 160 }
        ensures { self.new ≡ bytes.now ++ self.old }
    {
        let start = self.start - bytes.len();
        self.bytes[start..self.start].copy_from_slice(bytes);
        self.start = start;
    }

    // Puts the digits of a number ahead of the text.
    #[inline(always)]
    fn put_digits(&mut self, number: u64)
        requires { 20 + length self.old ≤ 160 }
        ensures text { self.new ≡ decimal number ++ self.old }
        ensures few { length self.new ≤ 20 + length self.old }
    {
        self.start = write_digits(number, &mut self.bytes, self.start);
    }

    /// Puts a number ahead of the text.
    #[inline(always)]
    pub(crate) fn put_number(&mut self, number: u64)
        requires { 20 + length self.old ≤ 160 }
        ensures text { self.new ≡ decimal number ++ self.old }
        ensures few { length self.new ≤ 20 + length self.old }
    {
        if number < 10 {
            self.put(&[b'0' + number as u8]);
        } else {
            self.put_digits(number);
        }
    }

    /// Puts bytes and a number ahead of the text.
    #[inline(always)]
    pub(crate) fn put_word(&mut self, bytes: &[u8], number: u64)
        requires { length bytes.now + 20 + length self.old ≤ 160 }
        ensures text { self.new ≡ (bytes.now ++ decimal number) ++ self.old }
        ensures few { length self.new ≤ length bytes.now + 20 + length self.old }
    {
        self.put_number(number);
        self.put(bytes);
    }

    /// Puts bytes and two numbers with a space between ahead of the text.
    #[inline(always)]
    pub(crate) fn put_pair(&mut self, bytes: &[u8], first: u64, second: u64)
        requires { length bytes.now + 41 + length self.old ≤ 160 }
        ensures text { self.new ≡ (bytes.now ++ decimal first ++ 32 ∷ decimal second) ++ self.old }
        ensures few { length self.new ≤ length bytes.now + 41 + length self.old }
    {
        self.put_word(b" ", second);
        self.put_word(bytes, first);
    }

    /// The text.
    pub(crate) fn text(&self) -> &[u8]
        ensures { result.now ≡ self.now }
    {
        &self.bytes[self.start..]
    }
}
