//! The source and the sink of the system. They tell of the bytes what the reader and the writer
//! tell of theirs, and those of the system tell nothing.

ghost use Rattle.std.specs.Prelude.{◌≡◌};

use stateful_types::{Failed, Faulty, Sink, SinkFault, Source};
use std::io::{Read, Write};

/// A source over a reader of the system.
#[derive(Drop)]
pub struct StdSource<R: Read + Drop> {
    inner: R,
    faults: u64,
}

impl<R: Read + Drop> StdSource<R> {
    /// A source over this reader, which hasn't failed yet.
    pub fn new(inner: R) -> Self
        ensures { result ≡ record { inner = inner; faults = 0 } }
    {
        StdSource { inner, faults: 0 }
    }
}

impl<R: Read + Drop> Faulty for StdSource<R> {
    ghost count = { λ s. s.faults };

    fn faults(&self) -> u64 {
        self.faults
    }
}

impl<R: Read + Drop> Source for StdSource<R> {
    ghost left = { λ s. R.remaining s.inner };

    fn read(&mut self, buf: &mut [u8]) -> Result<usize, Failed> {
        match self.inner.read(buf) {
            Ok(count) => Ok(count),
            Err(_) => {
                self.faults = self.faults.saturating_add(1);
                Err(Failed)
            }
        }
    }
}

/// A sink over a writer of the system.
#[derive(Drop)]
pub struct StdSink<W: Write + Drop> {
    inner: W,
    faults: u64,
}

impl<W: Write + Drop> StdSink<W> {
    /// A sink over this writer, which hasn't failed yet.
    pub fn new(inner: W) -> Self
        ensures { result ≡ record { inner = inner; faults = 0 } }
    {
        StdSink { inner, faults: 0 }
    }
}

impl<W: Write + Drop> Faulty for StdSink<W> {
    ghost count = { λ s. s.faults };

    fn faults(&self) -> u64 {
        self.faults
    }
}

impl<W: Write + Drop> Sink for StdSink<W> {
    ghost written = { λ s. W.contents s.inner };

    fn write(&mut self, piece: &[u8]) -> Result<usize, SinkFault> {
        match self.inner.write(piece) {
            Ok(0) if !piece.is_empty() => {
                self.faults = self.faults.saturating_add(1);
                Err(SinkFault::Failed)
            }
            Ok(count) => Ok(count),
            Err(_) => {
                self.faults = self.faults.saturating_add(1);
                Err(SinkFault::Failed)
            }
        }
    }
}
