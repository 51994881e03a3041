//! A run of a script, and what is printed of it.

use crate::Scripts;
use stateful_base::OutOfMemory;
use stateful_play::{Outcome, Status, run};
use stateful_shell::{Page, rest};
use stateful_types::{MemorySink, MemorySource};
use std::alloc::Global;
use std::{mem, str};

/// How a run ended, and whether something was played.
fn ended(outcome: Outcome) -> (Status, bool) {
    (outcome.status, outcome.played.is_some())
}

/// The same of a run of a script with these words.
fn end_of(
    alloc: Global,
    words: &[String],
    source: &mut MemorySource,
    sink: &mut MemorySink,
) -> (Status, bool) {
    ended(run(alloc, words, source, sink))
}

/// Prints how a run ended.
fn show_status(status: Status, is_played: bool, page: &mut Page) {
    match status {
        Status::Done => page.push("status 0"),
        Status::Usage => page.push("status 1"),
        Status::Script { line } => page.field("status 2 line ", line),
        Status::Halted { at } => page.field("status 3 event ", at as u64),
        Status::ReadFault => page.push("status 4"),
        Status::WriteFault => page.push("status 5"),
        Status::NoMemory => page.push("status 6"),
    }
    page.say(if is_played { ", played" } else { "" })
}

/// Prints what a run wrote and how it ended, or the last line of it.
fn show_run(written: &[u8], ended: Option<(Status, bool)>, page: &mut Page) {
    let text = str::from_utf8(written).unwrap_or("no text\n");
    match ended {
        Some((status, is_played)) => {
            page.push(text);
            show_status(status, is_played, page)
        }
        None => page.say(text.lines().last().unwrap_or("nothing")),
    }
}

impl Scripts {
    /// A source of the script, which fails as it is said.
    fn source(&mut self, alloc: Global) -> Result<MemorySource, OutOfMemory> {
        if !self.has_words {
            self.set_words(&["play"], alloc)?;
        }
        let bytes = self.bytes.as_slice().to_vec(alloc)?;
        let reads = mem::replace(&mut self.reads, Vec::new(alloc));
        Ok(MemorySource::new(bytes, reads))
    }

    /// Plays the script, and prints what the run wrote and how it ended, or the last line of it.
    pub(crate) fn plays(&mut self, is_short: bool, page: &mut Page) {
        let alloc = page.alloc();
        let Ok(mut source) = self.source(alloc) else {
            return page.lack();
        };
        let writes = mem::replace(&mut self.writes, Vec::new(alloc));
        let mut sink = MemorySink::new(alloc, writes);
        let ended = end_of(alloc, self.words.as_slice(), &mut source, &mut sink);
        show_run(
            sink.written(),
            if is_short { None } else { Some(ended) },
            page,
        )
    }

    /// Plays the script with a line behind it, and prints the last line that the run wrote.
    pub(crate) fn ends(&mut self, words: &[&str], page: &mut Page) {
        let length = self.bytes.len();
        self.put_shown(rest(words, 1), page);
        self.plays(true, page);
        self.bytes.truncate(length);
    }
}
