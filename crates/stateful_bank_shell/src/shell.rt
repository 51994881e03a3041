//! The shell: the lines of a file, which are played again for each case.

use crate::world::replay;
use stateful_bank_pair::Pair;
use stateful_bank_plain::Single;
use stateful_bank_triple::Triple;
use stateful_base::OutOfMemory;
use stateful_shell::{Page, Shell, word};
use std::alloc::Global;

/// The worlds that a file can name.
#[derive(Clone, Copy)]
enum Kind {
    Plain,
    Pair,
    Triple,
}

/// The world of a name.
fn kind_of(name: &str) -> Kind {
    match name {
        "pair" => Kind::Pair,
        "triple" => Kind::Triple,
        _ => Kind::Plain,
    }
}

/// The lines of a file: those whose answers are printed, and those that came since. They are on the
/// world that was named last.
///
/// No databases are kept here. All lines are played from the first on, by a call that is generic in
/// the world, so that no more than that call meets the types of a world: each place that does takes
/// long to prove.
#[derive(Drop)]
pub(crate) struct BankShell {
    printed: String,
    lines: String,
    kind: Kind,
}

/// Appends a line of these words.
fn push_line(lines: &mut String, words: &[&str]) -> Result<(), OutOfMemory> {
    for word in words {
        lines.push_str(word)?;
        lines.push(' ')?;
    }
    lines.push('\n')?;
    Ok(())
}

impl Shell for BankShell {
    fn new(alloc: Global) -> BankShell {
        BankShell {
            printed: String::new(alloc),
            lines: String::new(alloc),
            kind: Kind::Plain,
        }
    }

    fn play(&mut self, words: &[&str], page: &mut Page) {
        if word(words, 0) == "world" {
            self.end(page);
            self.kind = kind_of(word(words, 1));
        }
        page.note(push_line(&mut self.lines, words))
    }

    fn end(&mut self, page: &mut Page) {
        let printed = self.printed.as_str();
        let lines = self.lines.as_str();
        match self.kind {
            Kind::Plain => replay::<Single>(printed, lines, page),
            Kind::Pair => replay::<Pair>(printed, lines, page),
            Kind::Triple => replay::<Triple>(printed, lines, page),
        }
        if self.printed.push_str(lines).is_err() {
            page.lack();
        }
        self.lines = String::new(page.alloc());
    }
}
