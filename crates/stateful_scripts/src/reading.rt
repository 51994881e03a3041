//! What a script says, and which line of it is refused.

use crate::Scripts;
use crate::gathered::line_of;
use stateful_base::OutOfMemory;
use stateful_script::{Script, ScriptError, read_script};
use stateful_shell::{Page, rest, word};

/// Prints the last event, or the last block where there is no event.
fn show_last(script: &Script, page: &mut Page) {
    if let Some(event) = script.events.as_slice().last() {
        page.debug(event);
        page.end()
    } else if let Some(block) = script.blocks.as_slice().last() {
        page.debug(block);
        page.end()
    }
}

/// Prints the world and the names, and the parent, the height and the number of operations of each
/// block, and the number of events.
fn show_outline(script: &Script, page: &mut Page) {
    page.debug(&script.world);
    page.field(" with ", script.events.len() as u64);
    page.push(" events:");
    for name in script.names.as_slice() {
        page.push(" ");
        page.push(name.as_str());
    }
    page.end();
    for block in script.blocks.as_slice() {
        page.field("on ", block.parent as u64);
        page.field(" at ", block.height.0);
        page.field(" with ", block.ops.len() as u64);
        page.end();
    }
}

/// Prints what a command asks of a script that was read.
fn show_script(command: &str, script: &Script, page: &mut Page) {
    match command {
        "last" => show_last(script, page),
        "outline" => show_outline(script, page),
        _ => page.say("read"),
    }
}

impl Scripts {
    /// Puts a line behind the script, and prints it.
    pub(crate) fn put_shown(&mut self, words: &[&str], page: &mut Page) {
        match line_of(page.alloc(), words) {
            Ok(line) => {
                page.note(self.put_line(line.as_str()));
                page.push(line.as_str());
                page.push(": ")
            }
            Err(OutOfMemory) => page.lack(),
        }
    }

    /// Reads the script, and prints what a command asks of it, or which line is refused.
    fn show(&self, command: &str, page: &mut Page) {
        match read_script(page.alloc(), self.bytes.as_slice()) {
            Ok(script) => show_script(command, &script, page),
            Err(ScriptError::Line(line)) => {
                page.field("line ", line);
                page.say(" is refused")
            }
            Err(ScriptError::OutOfMemory) => page.lack(),
        }
    }

    /// Reads the script with the line of a command behind it, and prints what it asks.
    pub(crate) fn read(&mut self, words: &[&str], page: &mut Page) {
        let (length, alloc) = (self.bytes.len(), page.alloc());
        let (command, line) = (word(words, 0), rest(words, 1));
        if !line.is_empty() {
            match command {
                "read" => self.put_shown(line, page),
                _ => page.note(self.put_words(line, alloc)),
            }
        }
        self.show(command, page);
        self.bytes.truncate(length);
    }
}
