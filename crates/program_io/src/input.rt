// What a run reads.
ghost use Rattle.std.specs.Prelude.{◌≡◌, ◌+◌, ◌-◌, ◌<◌, ◌≤◌, ◌%◌, ◌^◌, ◌++◌, ℕ, List, [], length, take, Some, IfOk, IfErr, OnOk, OnErr, Err};
ghost use Rattle.program_io.specs.Streams.{Rose, Gives, GivesSome, IsAtEnd};
ghost use Rattle.program_io.specs.Inputs.{longest, limit_of, longest_image, HasBytes, IsInput, IsOfKind, IsRead};
ghost use Rattle.program_io.specs.Ends.{IsUnread};

use crate::source::{Failed, Source};
use crate::status::Status;
use pmem_lines::OutOfMemory;
use pool_layout::{GRANULE_BYTES, POOL_GRANULES, add_words};
use std::alloc::{AllocError, Global};

// The most bytes that a text may have.
const LONGEST_TEXT: usize = 67_108_864;

// How many bytes are read before they are put behind the others: whole words.
const PIECE: usize = 65536;

/// The kinds of input: a text, and the image of a pool.
#[derive(Clone, Copy)]
pub enum Kind {
    Text,
    Image,
}

/// What a command reads: a text, or the image of a pool, as its words and its number of bytes.
#[derive(Drop)]
pub enum Input {
    Text(Vec<u8>),
    Image { words: Vec<u64>, bytes: u64 },
}

/// Why an input was not read.
#[derive(Debug, Drop)]
enum Unread {
    Failed,
    Memory,
    TooLong,
}

impl From<AllocError> for Unread {
    ghost use Rattle.program_io.specs.declared.input.Unread.TheVariants.{Memory};

    ghost from_gives = { λ _ unread. unread ≡ Memory };

    fn from(_error: AllocError) -> Self {
        Unread::Memory
    }
}

impl From<OutOfMemory> for Unread {
    ghost use Rattle.program_io.specs.declared.input.Unread.TheVariants.{Memory};

    ghost from_gives = { λ _ unread. unread ≡ Memory };

    fn from(_error: OutOfMemory) -> Self {
        Unread::Memory
    }
}

impl From<Failed> for Unread {
    ghost use Rattle.program_io.specs.declared.input.Unread.TheVariants as unreads;

    ghost from_gives = { λ _ unread. unread ≡ unreads.Failed };

    fn from(_failed: Failed) -> Self {
        Unread::Failed
    }
}

/// Reads all of a source, as an input of a kind: a text has at most 67,108,864 bytes, an image as many as the granules of a pool
/// have together. An image is read into its words in place. Where there is no input, it says how a run ends without: `ReadFault`
/// where the source failed, `TooLong` where it had more bytes, of which one more than the limit was read and no further, or
/// `Memory`.
pub fn read_input<S: Source>(alloc: Global, kind: Kind, source: &mut S) -> Result<Input, Status>
    ensures read { IfOk result (IsRead (limit_of (Some kind)) (S.left source.old) (S.left source.new)) }
    ensures fits { IfOk result (IsOfKind kind) }
    ensures input { IfOk result IsInput }
    ensures unread { IfErr result (IsUnread (limit_of (Some kind)) (S.left source.old) (S.left source.new)) }
    ensures failed { result ≡ Err Status.ReadFault → Rose (S.faults source.old) (S.faults source.new) }
    ensures unfailed { result ≡ Err Status.TooLong → S.faults source.new ≡ S.faults source.old }
{
    let mut input = empty_input(alloc, kind);
    match read_all(alloc, source, &mut input, longest_of(kind)) {
        Ok(()) => Ok(input),
        Err(Unread::Failed) => Err(Status::ReadFault),
        Err(Unread::Memory) => Err(Status::Memory),
        Err(Unread::TooLong) => Err(Status::TooLong),
    }
}

// The most bytes that an input of a kind may have.
#[tactic(auto, unfolding(crate::specs::Inputs::longest_text))]
fn longest_of(kind: Kind) -> usize
    ensures longest { result ≡ longest kind }
    ensures few { result < 2 ^ 32 - 65536 }
{
    match kind {
        Kind::Text => LONGEST_TEXT,
        Kind::Image => longest_image(),
    }
}

// The most bytes that an image may have.
#[tactic(auto, unfolding(crate::specs::Inputs::longest_image))]
fn longest_image() -> usize
    ensures longest { result ≡ longest_image }
    ensures few { result < 2 ^ 32 - 65536 }
{
    GRANULE_BYTES as usize * POOL_GRANULES as usize
}

// An input of a kind, of which no byte has come.
#[tactic(auto, unfolding(pool_layout::specs::Bytes::words_of_bytes))]
fn empty_input(alloc: Global, kind: Kind) -> Input
    ensures none { HasBytes result [] }
    ensures fits { IsOfKind kind result }
{
    match kind {
        Kind::Text => Input::Text(Vec::new(alloc)),
        Kind::Image => Input::Image {
            words: Vec::new(alloc),
            bytes: 0,
        },
    }
}

// Reads all bytes of a source, which may be `limit` at most, into an input that has none: it is read to its end, or one byte
// past the limit and no further.
fn read_all<S: Source>(
    alloc: Global,
    source: &mut S,
    input: &mut Input,
    limit: usize,
) -> Result<(), Unread>
    requires few { limit < 2 ^ 32 - 65536 }
    requires none { HasBytes input.old [] }
    ensures all { OnOk result (IsRead (Some limit) (S.left source.old) (S.left source.new) input.new) }
    ensures fits { (kind : Kind) → IsOfKind kind input.old → IsOfKind kind input.new }
    ensures too_long { result ≡ Err Unread.TooLong → GivesSome (S.left source.old) (S.left source.new) (λ n. n ≡ limit + 1) }
    ensures few { result ≡ Err Unread.Failed → GivesSome (S.left source.old) (S.left source.new) (λ n. n ≤ limit) }
    ensures failed { result ≡ Err Unread.Failed → Rose (S.faults source.old) (S.faults source.new) }
    ensures unfailed { result ≡ Err Unread.TooLong → S.faults source.new ≡ S.faults source.old }
{
    let mut piece = vec![in alloc; 0u8; PIECE]?;
    let mut size = 0;
    while size <= limit {
        let most = PIECE.min(limit + 1 - size);
        let n = fill(source, &mut piece, most)?;
        input.add(&piece[..n])?;
        size += n;
        if n < most {
            return Ok(());
        }
    }
    Err(Unread::TooLong)
}

// Reads until so many bytes stand in a buffer, or to the source's end, and says how many came.
fn fill<S: Source>(source: &mut S, piece: &mut [u8], most: usize) -> Result<usize, Failed>
    requires { most ≤ length piece.old }
    ensures size { length piece.new ≡ length piece.old }
    ensures count { IfOk result (λ n. n ≤ most) }
    ensures gives { IfOk result (λ n. Gives (S.left source.old) (S.left source.new) (take n piece.new)) }
    ensures end { IfOk result (λ n. n < most → IsAtEnd (S.left source.new)) }
    ensures still { OnOk result (S.faults source.new ≡ S.faults source.old) }
    ensures less { OnErr result (GivesSome (S.left source.old) (S.left source.new) (λ n. n < most)) }
    ensures failed { OnErr result (Rose (S.faults source.old) (S.faults source.new)) }
    ensures later { S.faults source.old ≤ S.faults source.new }
{
    let mut done = 0;
    while done < most {
        let n = source.read(&mut piece[done..most])?;
        if n == 0 {
            return Ok(done);
        }
        done += n;
    }
    Ok(done)
}

impl Input {
    // Puts bytes behind those that came. Of an image these are whole words so far.
    fn add(&mut self, piece: &[u8]) -> Result<(), OutOfMemory>
        requires { IsInput self.old }
        ensures bytes { OnOk result ((bytes : List ℕ) → length bytes % 8 ≡ 0 → HasBytes self.old bytes → HasBytes self.new (bytes ++ piece.now)) }
        ensures fits { (kind : Kind) → IsOfKind kind self.old → IsOfKind kind self.new }
    {
        match self {
            Input::Text(text) => text.extend_from_slice(piece)?,
            Input::Image { words, bytes } => {
                add_words(words, piece)?;
                *bytes += piece.len() as u64;
            }
        }
        Ok(())
    }
}
