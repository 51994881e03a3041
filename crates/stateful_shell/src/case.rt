//! One file of cases, line by line.

use crate::page::Page;
use stateful_base::OutOfMemory;
use std::alloc::Global;
use std::mem;

/// What the commands of one file are played on.
pub trait Shell: Drop {
    /// What a file begins with.
    fn new(alloc: Global) -> Self;

    /// Does what the words of a line say, and prints what it answers.
    fn play(&mut self, words: &[&str], page: &mut Page);

    /// The commands of a case are over: prints what is printed for all of them.
    fn end(&mut self, page: &mut Page);
}

/// How the cases of one file came out.
#[derive(Clone, Copy, Debug, PartialEq, Eq)]
pub struct Tally {
    /// Those that printed what the file says.
    pub same: u64,
    /// Those that didn't.
    pub other: u64,
}

/// Which part of a case a line is in.
#[derive(Clone, Copy, PartialEq, Eq)]
enum Part {
    Commands,
    Answer,
}

/// A file that is being played: its shell, the part that the next line is in, the commands of the
/// case, what they printed, and what the file says of them.
#[derive(Drop)]
pub(crate) struct Cases<S: Shell> {
    shell: S,
    part: Part,
    commands: String,
    page: Page,
    wanted: String,
    /// So far.
    pub(crate) tally: Tally,
}

/// Appends a line.
fn push_line(text: &mut String, line: &str) -> Result<(), OutOfMemory> {
    text.push_str(line)?;
    text.push('\n')?;
    Ok(())
}

/// Appends what a page has.
fn push_page(text: &mut String, page: &Page) -> Result<(), OutOfMemory> {
    match page.text() {
        Ok(printed) => {
            text.push_str(printed)?;
            Ok(())
        }
        Err(OutOfMemory) => Err(OutOfMemory),
    }
}

impl<S: Shell> Cases<S> {
    /// Before the first line.
    pub(crate) fn new(alloc: Global) -> Cases<S> {
        Cases {
            shell: S::new(alloc),
            part: Part::Commands,
            commands: String::new(alloc),
            page: Page::new(alloc),
            wanted: String::new(alloc),
            tally: Tally { same: 0, other: 0 },
        }
    }

    /// Plays a command.
    fn play(&mut self, line: &str) -> Result<(), OutOfMemory> {
        push_line(&mut self.commands, line)?;
        let words: Vec<&str> = line.split_whitespace().collect(self.page.alloc())?;
        self.shell.play(words.as_slice(), &mut self.page);
        Ok(())
    }

    /// Takes a line of the file. What is reported of a case that ends with it, if it isn't the same.
    pub(crate) fn take(&mut self, line: &str) -> Result<Option<String>, OutOfMemory> {
        match self.part {
            Part::Answer if line.is_empty() => self.finish(),
            Part::Answer => {
                push_line(&mut self.wanted, line)?;
                Ok(None)
            }
            Part::Commands if line == "----" => {
                self.shell.end(&mut self.page);
                self.part = Part::Answer;
                Ok(None)
            }
            Part::Commands if line.is_empty() => self.finish(),
            Part::Commands if line.starts_with('#') => Ok(None),
            Part::Commands => {
                self.play(line)?;
                Ok(None)
            }
        }
    }

    /// The case is over, if one was begun. One without a line `----` prints nothing, by its file.
    pub(crate) fn finish(&mut self) -> Result<Option<String>, OutOfMemory> {
        if self.part == Part::Commands && self.commands.is_empty() {
            return Ok(None);
        }
        if self.part == Part::Commands {
            self.shell.end(&mut self.page);
        }
        let alloc = *self.commands.allocator();
        let commands = mem::replace(&mut self.commands, String::new(alloc));
        let printed = self.page.take()?;
        let wanted = mem::replace(&mut self.wanted, String::new(alloc));
        self.part = Part::Commands;
        if printed == wanted {
            self.tally.same = self.tally.same.saturating_add(1);
            return Ok(None);
        }
        self.tally.other = self.tally.other.saturating_add(1);
        Ok(Some(format!(in alloc; "{commands}---- wanted\n{wanted}---- printed\n{printed}")?))
    }

    /// Takes a line of a file that is printed anew, and answers what stands in its place.
    pub(crate) fn take_anew(&mut self, line: &str) -> Result<String, OutOfMemory> {
        let was = self.part;
        let _ = self.take(line)?;
        let alloc = *self.commands.allocator();
        let mut text = String::new(alloc);
        match was {
            Part::Answer if !line.is_empty() => {}
            _ => push_line(&mut text, line)?,
        }
        if was == Part::Commands && self.part == Part::Answer {
            push_page(&mut text, &self.page)?;
        }
        Ok(text)
    }
}
