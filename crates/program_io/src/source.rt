// Where bytes come from.
ghost use Rattle.std.specs.Prelude.{◌≡◌, ◌↔◌, ℕ, ◌<◌, ◌≤◌, min, List, [], Option, Some, None, length, take, drop, IfOk, IsErr, OnErr, OnOk};
ghost use Rattle.std.specs.List.{Contains};
ghost use Rattle.program_io.specs.Streams.{Rose, Gives, IsAtEnd, IsCounted};

/// A source or a sink failed.
#[derive(Debug, Drop)]
pub struct Failed;

// Counts a failure.
pub(crate) fn counted(faults: &mut u64) -> Failed
    ensures cause { Rose faults.old faults.new }
    ensures later { faults.old ≤ faults.new }
{
    *faults = faults.saturating_add(1);
    Failed
}

/// What bytes come from.
pub trait Source {
    /// The bytes left, where the source tells them.
    ghost left: { Self → Option (List ℕ) };

    /// How often it failed. The count never falls, and stands still at `2^64 - 1`.
    ghost faults: { Self → ℕ };

    /// Puts `Ok(n)` bytes at the front of `into`, and leaves the count of faults. `Ok(0)` on a buffer that is not empty is the
    /// end. `Failed` comes only where the count of faults rose, and gives no byte.
    fn read(&mut self, into: &mut [u8]) -> Result<usize, Failed>
        ensures count { IfOk result (λ n. n ≤ length into.old) }
        ensures bytes { IfOk result (λ n. Gives (left self.old) (left self.new) (take n into.new)) }
        ensures end { IfOk result (λ n. n ≡ 0 → 0 < length into.old → IsAtEnd (left self.new)) }
        ensures still { OnOk result (faults self.new ≡ faults self.old) }
        ensures err { OnErr result (Gives (left self.old) (left self.new) []) }
        ensures cause { OnErr result (Rose (faults self.old) (faults self.new)) }
        ensures later { faults self.old ≤ faults self.new };
}

/// Bytes in memory, of which no read fails.
#[derive(Drop)]
pub struct SureSource<'a> {
    bytes: &'a [u8],
}

impl<'a> SureSource<'a> {
    /// A source of these bytes.
    pub fn new(bytes: &'a [u8]) -> Self
        ensures { result.bytes.now ≡ bytes.now }
    {
        SureSource { bytes }
    }
}

impl Source for SureSource<'_> {
    ghost left = { λ s. Some s.bytes.now };

    ghost faults = { λ _. 0 };

    fn read(&mut self, into: &mut [u8]) -> Result<usize, Failed> {
        Ok(give(&mut self.bytes, into))
    }
}

/// Bytes in memory, of which the calls fail whose numbers, counted from 0, are listed.
#[derive(Drop)]
pub struct MemSource<'a> {
    bytes: &'a [u8],
    failing: &'a [u64],
    calls: u64,
    failed: u64,
}

impl<'a> MemSource<'a> {
    /// A source of these bytes, with the numbers of the calls that are to fail.
    pub fn new(bytes: &'a [u8], failing: &'a [u64]) -> Self
        ensures bytes { result.bytes.now ≡ bytes.now }
        ensures listed { result.failing.now ≡ failing.now }
        ensures calls { result.calls ≡ 0 }
        ensures failed { result.failed ≡ 0 }
    {
        MemSource {
            bytes,
            failing,
            calls: 0,
            failed: 0,
        }
    }
}

impl Source for MemSource<'_> {
    ghost left = { λ s. Some s.bytes.now };

    ghost faults = { λ s. s.failed };

    /// Gives as many bytes as there are and as fit. It fails exactly where the number of this call is listed.
    fn read(&mut self, into: &mut [u8]) -> Result<usize, Failed>
        ensures count { IfOk result (λ n. n ≤ length into.old) }
        ensures bytes { IfOk result (λ n. Gives (Some self.old.bytes.now) (Some self.new.bytes.now) (take n into.new)) }
        ensures end { IfOk result (λ n. n ≡ 0 → 0 < length into.old → IsAtEnd (Some self.new.bytes.now)) }
        ensures still { OnOk result (self.new.failed ≡ self.old.failed) }
        ensures err { OnErr result (Gives (Some self.old.bytes.now) (Some self.new.bytes.now) []) }
        ensures cause { OnErr result (Rose self.old.failed self.new.failed) }
        ensures later { self.old.failed ≤ self.new.failed }
        ensures listed { IsErr result ↔ Contains self.old.failing.now self.old.calls }
        ensures most { IfOk result (λ n. n ≡ min (length into.old) (length self.old.bytes.now)) }
        ensures counted { IsCounted self.old.failing.now self.new.failing.now self.old.calls self.new.calls }
    {
        let fails = self.failing.contains(&self.calls);
        self.calls = self.calls.saturating_add(1);
        if fails {
            return Err(counted(&mut self.failed));
        }
        Ok(give(&mut self.bytes, into))
    }
}

// Moves as many bytes as there are and as fit.
fn give(bytes: &mut &[u8], into: &mut [u8]) -> usize
    ensures count { result ≤ length into.old }
    ensures gives { Gives (Some bytes.old.now) (Some bytes.new.now) (take result into.new) }
    ensures end { result ≡ 0 → 0 < length into.old → bytes.new.now ≡ [] }
    ensures most { result ≡ min (length into.old) (length bytes.old.now) }
{
    let n = into.len().min(bytes.len());
    into[..n].copy_from_slice(&bytes[..n]);
    *bytes = &bytes[n..];
    n
}
