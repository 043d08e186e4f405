// Where bytes go.
ghost use Rattle.std.specs.Prelude.{◌≡◌, ℕ, ◌<◌, ◌≤◌, min, List, [], ◌++◌, Option, Some, None, length, take, IfOk, IsErr, OnErr, OnOk, IfSome};
ghost use Rattle.std.specs.List.{Contains};
ghost use Rattle.program_io.specs.Streams.{Rose, Takes, IsCounted};

use crate::source::{Failed, counted};
use std::alloc::Global;

/// Where bytes go.
pub trait Sink {
    /// The bytes taken so far, where the sink tells them.
    ghost taken: { Self → Option (List ℕ) };

    /// How often it failed. The count never falls, and stands still at `2^64 - 1`.
    ghost faults: { Self → ℕ };

    /// Takes the first `Ok(n)` bytes of the piece, at least one of a piece that is not empty. `Failed` comes only
    /// where the count of faults rose, and takes no byte.
    fn write(&mut self, piece: &[u8]) -> Result<usize, Failed>
        ensures count { IfOk result (λ n. n ≤ length piece.now) }
        ensures some { IfOk result (λ n. 0 < length piece.now → 0 < n) }
        ensures bytes { IfOk result (λ n. Takes (taken self.old) (taken self.new) (take n piece.now)) }
        ensures err { OnErr result (Takes (taken self.old) (taken self.new) []) }
        ensures cause { OnErr result (Rose (faults self.old) (faults self.new)) }
        ensures later { faults self.old ≤ faults self.new };
}

/// Takes bytes into memory. The calls fail whose numbers, counted from 0, are listed, and each call takes at most
/// `most` bytes, of which there is at least one.
#[derive(Drop)]
pub struct MemSink<'a> {
    bytes: Vec<u8>,
    failing: &'a [u64],
    most: usize,
    calls: u64,
    failed: u64,
    ghost some: { 0 < most },
}

impl<'a> MemSink<'a> {
    /// An empty sink, with the numbers of the calls that are to fail.
    pub fn new(alloc: Global, failing: &'a [u64], most: usize) -> Self
        requires { 0 < most }
        ensures bytes { result.bytes.items ≡ [] }
        ensures listed { result.failing.now ≡ failing.now }
        ensures calls { result.calls ≡ 0 }
        ensures most { result.most ≡ most }
        ensures failed { result.failed ≡ 0 }
    {
        MemSink {
            bytes: Vec::new(alloc),
            failing,
            most,
            calls: 0,
            failed: 0,
        }
    }

    /// The bytes taken.
    pub fn bytes(&self) -> &[u8]
        ensures { result.now ≡ self.now.bytes.items }
    {
        &self.bytes
    }
}

impl Sink for MemSink<'_> {
    ghost taken = { λ s. Some s.bytes.items };

    ghost faults = { λ s. s.failed };

    /// Takes `most` bytes of the piece, or all where it has fewer. It fails where the number of this call is listed, and else
    /// for want of memory alone.
    fn write(&mut self, piece: &[u8]) -> Result<usize, Failed>
        ensures count { IfOk result (λ n. n ≤ length piece.now) }
        ensures some { IfOk result (λ n. 0 < length piece.now → 0 < n) }
        ensures bytes { IfOk result (λ n. Takes (Some self.old.bytes.items) (Some self.new.bytes.items) (take n piece.now)) }
        ensures err { OnErr result (Takes (Some self.old.bytes.items) (Some self.new.bytes.items) []) }
        ensures cause { OnErr result (Rose self.old.failed self.new.failed) }
        ensures later { self.old.failed ≤ self.new.failed }
        ensures listed { Contains self.old.failing.now self.old.calls → IsErr result }
        ensures most { IfOk result (λ n. n ≡ min (length piece.now) self.old.most) }
        ensures counted { IsCounted self.old.failing.now self.new.failing.now self.old.calls self.new.calls }
        ensures same_most { self.new.most ≡ self.old.most }
    {
        let fails = self.failing.contains(&self.calls);
        self.calls = self.calls.saturating_add(1);
        if fails {
            return Err(counted(&mut self.failed));
        }
        let n = piece.len().min(self.most);
        match self.bytes.extend_from_slice(&piece[..n]) {
            Ok(()) => Ok(n),
            Err(_) => Err(counted(&mut self.failed)),
        }
    }
}

/// Takes all bytes, forgets them and never fails; it knows how many they were, up to `2^64 - 1`.
#[derive(Drop)]
pub struct SureSink {
    pub count: u64,
}

impl SureSink {
    /// A sink that took nothing.
    pub fn new() -> Self
        ensures { result.count ≡ 0 }
    {
        SureSink { count: 0 }
    }
}

impl Sink for SureSink {
    ghost taken = { λ _. None };

    ghost faults = { λ _. 0 };

    fn write(&mut self, piece: &[u8]) -> Result<usize, Failed> {
        self.count = self.count.saturating_add(piece.len() as u64);
        Ok(piece.len())
    }
}
