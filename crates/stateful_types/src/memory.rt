//! A source and a sink in memory, whose failing calls are listed by their numbers, from 0 on.

ghost use Rattle.std.specs.Prelude.{◌≡◌, ◌↔◌, ◌<◌, ◌≤◌, [], length, drop, Some, IsTrue, IsErrOf};
ghost use Rattle.std.specs.Prelude.{IfOk, is_err};
ghost use Rattle.std.specs.Io.{ReadsAtMost};
ghost use Rattle.std.specs.Io.KnownBytes.{ReadConsumes, WriteAppends};
ghost use Rattle.stateful_base.specs.Causes.{Rose, HasCause, risen, risen_if, is_listed};

use crate::sink::{Sink, SinkFault};
use crate::source::Source;
use stateful_base::{Failed, Faulty};
use std::alloc::Global;

/// A source over bytes in memory. The calls whose numbers it lists fail.
#[derive(Drop)]
pub struct MemorySource {
    bytes: Vec<u8>,
    at: usize,
    failing: Vec<u64>,
    calls: u64,
    faults: u64,
    ghost within: { at ≤ length bytes.items },
}

impl MemorySource {
    /// A source of these bytes, of which the calls of these numbers fail.
    pub fn new(bytes: Vec<u8>, failing: Vec<u64>) -> Self
        ensures left { ⟦<MemorySource as Source>⟧.left result ≡ Some bytes.items }
        ensures faults { ⟦<MemorySource as Faulty>⟧.count result ≡ 0 }
        ensures failing { (result.failing ≡ failing) × (result.calls ≡ 0) }
    {
        MemorySource {
            bytes,
            at: 0,
            failing,
            calls: 0,
            faults: 0,
        }
    }
}

impl Faulty for MemorySource {
    ghost count = { λ s. s.faults };

    fn faults(&self) -> u64 {
        self.faults
    }
}

impl Source for MemorySource {
    ghost left = { λ s. Some (drop s.at s.bytes.items) };

    fn read(&mut self, buf: &mut [u8]) -> Result<usize, Failed>
        ensures bound { ReadsAtMost result buf.new }
        ensures bytes { ReadConsumes (Some (drop self.old.at self.old.bytes.items))
            (Some (drop self.new.at self.new.bytes.items)) result buf.new }
        ensures cause { HasCause self.old.faults self.new.faults result }

        // The listed calls fail, and the count rises by one exactly there.
        ensures failing { is_err result ≡ is_listed self.old.failing.items self.old.calls }
        ensures count { self.new.faults
            ≡ risen_if (is_listed self.old.failing.items self.old.calls) self.old.faults }
        ensures calls { self.new.calls ≡ risen self.old.calls }
        ensures same { self.new.failing ≡ self.old.failing }
    {
        let call = self.calls;
        self.calls = self.calls.saturating_add(1);
        if self.failing.contains(&call) {
            self.faults = self.faults.saturating_add(1);
            return Err(Failed);
        }
        let rest = &self.bytes[self.at..];
        let count = rest.len().min(buf.len());
        buf[..count].copy_from_slice(&rest[..count]);
        self.at += count;
        Ok(count)
    }
}

/// A sink in memory. The calls whose numbers it lists fail.
#[derive(Drop)]
pub struct MemorySink {
    written: Vec<u8>,
    failing: Vec<u64>,
    calls: u64,
    faults: u64,
}

impl MemorySink {
    /// An empty sink, of which the calls of these numbers fail.
    pub fn new(alloc: Global, failing: Vec<u64>) -> Self
        ensures written { ⟦<MemorySink as Sink>⟧.written result ≡ Some [] }
        ensures faults { ⟦<MemorySink as Faulty>⟧.count result ≡ 0 }
        ensures failing { (result.failing ≡ failing) × (result.calls ≡ 0) }
    {
        MemorySink {
            written: Vec::new(alloc),
            failing,
            calls: 0,
            faults: 0,
        }
    }

    /// The bytes that were taken.
    pub fn written(&self) -> &[u8]
        ensures { Some result.now ≡ ⟦<MemorySink as Sink>⟧.written self.now }
    {
        self.written.as_slice()
    }
}

impl Faulty for MemorySink {
    ghost count = { λ s. s.faults };

    fn faults(&self) -> u64 {
        self.faults
    }
}

impl Sink for MemorySink {
    ghost written = { λ s. Some s.written.items };

    fn write(&mut self, piece: &[u8]) -> Result<usize, SinkFault>
        ensures bound { IfOk result (λ n. n ≤ length piece.now) }
        ensures some { IfOk result (λ n. 0 < length piece.now → 0 < n) }
        ensures bytes { WriteAppends (Some self.old.written.items) (Some self.new.written.items)
            result piece.now }
        ensures later { self.old.faults ≤ self.new.faults }
        ensures cause { IsErrOf result SinkFault.Failed → Rose self.old.faults self.new.faults }

        // The listed calls fail so, and the count rises by one exactly there: want of memory leaves
        // it.
        ensures failing { IsTrue (is_listed self.old.failing.items self.old.calls)
            ↔ IsErrOf result SinkFault.Failed }
        ensures count { self.new.faults
            ≡ risen_if (is_listed self.old.failing.items self.old.calls) self.old.faults }
        ensures calls { self.new.calls ≡ risen self.old.calls }
        ensures same { self.new.failing ≡ self.old.failing }
    {
        let call = self.calls;
        self.calls = self.calls.saturating_add(1);
        if self.failing.contains(&call) {
            self.faults = self.faults.saturating_add(1);
            return Err(SinkFault::Failed);
        }
        match self.written.extend_from_slice(piece) {
            Ok(()) => Ok(piece.len()),
            Err(_) => Err(SinkFault::OutOfMemory),
        }
    }
}
