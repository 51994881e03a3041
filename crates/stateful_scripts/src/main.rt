//! Plays scripts, and prints what each prints. A line that is no command is a line of the script,
//! which is played at the end of its case, and a last line says how the run ended: its status by
//! number, the event or the line that the status names, and whether something was played.
//!
//!     define NAME            the lines of this case are kept under a name, and not played
//!     use NAME               the lines that are kept under this name
//!     \LINE                  this line, whatever it begins with; `\` alone is an empty line
//!     bytes HEX              these bytes, and no LF behind them
//!     repeat N LINE          N lines like this one, in which `%` is the number of the line, from 0
//!     double N               the script so far is doubled N times
//!
//! One blank stands between the words of a line. A `\` before any of them is left out, so there are
//! two blanks where `\` stands alone between two words.
//!
//!     words WORD ..          the words of the run; without this line they are the one word `play`.
//!                            In a word `_` stands for a blank
//!     fail read N            the source's call of this number fails, from 0
//!     fail write N           the sink's call of this number fails
//!     ends LINE              the last line that the script so far prints with this line behind it
//!
//! With one of these the script isn't played at the end:
//!
//!     read                   whether the script so far is read, or which line is refused
//!     read LINE              the same, with this line behind it
//!     last LINE              what the last event says then, or the last block without an event
//!     outline                the world, the names, the blocks and the number of events
//!     number WORD            the number that a word spells
//!     name WORD              the text of a name
//!     mark WORD ..           the transcript of one mark; a block is named by a word, of which its
//!                            digest is taken, and that of the word `n` has the names n1 and n2
//!     shown WORD ..          the transcript of databases: `closed`, `lost`, `away`
//!     laws                   the laws of scripts and of plays are called
//!
//! `refused` is printed for bytes that aren't hex, for a name under which nothing is kept, and for
//! a call, a mark or a database of no such kind.
//!
//! From a line `counter` on, the lines of a file are commands on the counter (`counter.rt`).
#![tactic(auto)]

mod counter;
mod gathered;
mod marks;
mod reading;
mod running;

use crate::counter::CounterShell;
use crate::gathered::Kept;
use stateful_script::Name;
use stateful_shell::{Page, Shell, play_files, word};
use std::alloc::Global;
use std::process::ExitCode;

/// The script of a case so far, how it is to be run, and the scripts of cases that have a name.
#[derive(Drop)]
struct Scripts {
    bytes: Vec<u8>,
    /// The words of the run, where a line says them.
    words: Vec<String>,
    has_words: bool,
    /// The calls of the source and of the sink that fail.
    reads: Vec<u64>,
    writes: Vec<u64>,
    /// Whether something else was asked than to play the script.
    is_asked: bool,
    /// The name under which the script is to be kept. Empty where it is to be played.
    name: String,
    kept: Vec<Kept>,
}

impl Shell for Scripts {
    fn new(alloc: Global) -> Scripts {
        Scripts {
            bytes: Vec::new(alloc),
            words: Vec::new(alloc),
            has_words: false,
            reads: Vec::new(alloc),
            writes: Vec::new(alloc),
            is_asked: false,
            name: String::new(alloc),
            kept: Vec::new(alloc),
        }
    }

    fn play(&mut self, words: &[&str], page: &mut Page) {
        match word(words, 0) {
            "read" | "last" | "outline" => self.read(words, page),
            "number" => {
                page.debug(&stateful_script::number(word(words, 1).as_bytes()));
                page.end()
            }
            "name" => match Name::new(page.alloc(), word(words, 1)) {
                Ok(name) => page.say(name.as_str()),
                Err(_) => page.lack(),
            },
            "mark" => marks::mark(words, page),
            "shown" => marks::shown(words, page),
            "laws" => marks::laws(page),
            "ends" => return self.ends(words, page),
            _ => return self.gather(words, page),
        }
        self.is_asked = true;
    }

    fn end(&mut self, page: &mut Page) {
        let alloc = page.alloc();
        if !self.name.is_empty() {
            page.note(self.keep(alloc));
        } else if !self.is_asked {
            self.plays(false, page);
        }
        self.bytes.clear();
        self.has_words = false;
        self.reads.clear();
        self.writes.clear();
        self.is_asked = false;
    }
}

/// What plays scripts beside what plays the counter, and to which of them the lines go.
#[derive(Drop)]
struct Plays {
    scripts: Scripts,
    counter: CounterShell,
    is_counter: bool,
}

impl Shell for Plays {
    fn new(alloc: Global) -> Plays {
        Plays {
            scripts: Scripts::new(alloc),
            counter: CounterShell::new(alloc),
            is_counter: false,
        }
    }

    fn play(&mut self, words: &[&str], page: &mut Page) {
        if word(words, 0) == "counter" {
            self.is_counter = true;
        }
        if self.is_counter {
            self.counter.play(words, page)
        } else {
            self.scripts.play(words, page)
        }
    }

    fn end(&mut self, page: &mut Page) {
        if !self.is_counter {
            self.scripts.end(page)
        }
    }
}

fn main(rt: HostRuntime) -> Result<ExitCode, anyhow::Error> {
    play_files::<Plays>(&rt)
}
