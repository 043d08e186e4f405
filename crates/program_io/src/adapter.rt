// Readers and writers of the system, as sources and sinks.
ghost use Rattle.std.specs.Prelude.{◌≡◌};

use crate::sink::Sink;
use crate::source::{Failed, Source, counted};
use std::io::{Read, Write};

/// A reader as a source, or a writer as a sink, which tells the bytes where the reader or writer does. It counts the
/// failures, among them a write of no bytes.
#[derive(Drop)]
pub struct Adapter<T: Drop> {
    end: T,
    failed: u64,
}

impl<T: Drop> Adapter<T> {
    /// An adapter of this reader or writer.
    pub fn new(end: T) -> Self
        ensures end { result.end ≡ end }
        ensures failed { result.failed ≡ 0 }
    {
        Adapter { end, failed: 0 }
    }
}

impl<R: Read + Drop> Source for Adapter<R> {
    ghost left = { λ s. R.remaining s.end };

    ghost faults = { λ s. s.failed };

    fn read(&mut self, into: &mut [u8]) -> Result<usize, Failed> {
        match self.end.read(into) {
            Ok(n) => Ok(n),
            Err(_) => Err(counted(&mut self.failed)),
        }
    }
}

impl<W: Write + Drop> Sink for Adapter<W> {
    ghost taken = { λ s. W.contents s.end };

    ghost faults = { λ s. s.failed };

    fn write(&mut self, piece: &[u8]) -> Result<usize, Failed> {
        match self.end.write(piece) {
            Ok(n) if n > 0 || piece.is_empty() => Ok(n),
            _ => Err(counted(&mut self.failed)),
        }
    }
}
