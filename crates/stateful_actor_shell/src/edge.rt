//! Commands on the source and the sink of the system. main.rt has their table.

use stateful_prog_edge::{StdSink, StdSource};
use stateful_shell::{Page, word};
use stateful_types::{Faulty, Sink, Source};
use std::io::{self, Read, Write};

/// Gives one byte at its first call and takes one, and fails at its second.
#[derive(Drop)]
struct Once {
    byte: u8,
    calls: u8,
}

impl Once {
    fn turn(&mut self) -> io::Result<()> {
        self.calls = self.calls.saturating_add(1);
        if self.calls == 2 {
            return Err(io::Error::from(io::ErrorKind::WouldBlock));
        }
        Ok(())
    }
}

impl Read for Once {
    fn read(&mut self, buf: &mut [u8]) -> io::Result<usize> {
        self.turn()?;
        if buf.is_empty() {
            return Ok(0);
        }
        buf[0] = self.byte;
        Ok(1)
    }
}

impl Write for Once {
    fn write(&mut self, buf: &[u8]) -> io::Result<usize> {
        self.turn()?;
        if buf.is_empty() {
            return Ok(0);
        }
        self.byte = buf[0];
        Ok(1)
    }

    fn flush(&mut self) -> io::Result<()> {
        Ok(())
    }
}

/// Takes nothing, and doesn't fail.
#[derive(Drop)]
struct Full;

impl Write for Full {
    fn write(&mut self, _buf: &[u8]) -> io::Result<usize> {
        Ok(0)
    }

    fn flush(&mut self) -> io::Result<()> {
        Ok(())
    }
}

/// A source and a sink whose second call fails, and a sink that takes nothing.
#[derive(Drop)]
pub(crate) struct Edge {
    source: StdSource<Once>,
    sink: StdSink<Once>,
    full: StdSink<Full>,
}

impl Edge {
    /// Nothing is read or written yet. The source gives the byte 7.
    pub(crate) fn new() -> Edge {
        Edge {
            source: StdSource::new(Once { byte: 7, calls: 0 }),
            sink: StdSink::new(Once { byte: 0, calls: 0 }),
            full: StdSink::new(Full),
        }
    }
}

/// Reads into four bytes, and prints them.
fn read(source: &mut StdSource<Once>, page: &mut Page) {
    let mut piece = [0u8; 4];
    match source.read(&mut piece) {
        Ok(count) => {
            page.field("read ", count as u64);
            page.push(" into ");
            page.hex(&piece)
        }
        Err(error) => page.show(&error),
    }
    page.field(", faults ", source.faults());
    page.end()
}

/// Writes a text.
fn write<W: Write + Drop>(sink: &mut StdSink<W>, text: &str, page: &mut Page) {
    match sink.write(text.as_bytes()) {
        Ok(count) => page.field("taken ", count as u64),
        Err(error) => page.show(&error),
    }
    page.field(", faults ", sink.faults());
    page.end()
}

/// Does what a line says to the source or a sink.
pub(crate) fn play(edge: &mut Edge, words: &[&str], page: &mut Page) {
    match word(words, 0) {
        "read" => read(&mut edge.source, page),
        "write" => write(&mut edge.sink, word(words, 1), page),
        "write-full" => write(&mut edge.full, word(words, 1), page),
        _ => page.say("no such command"),
    }
}
