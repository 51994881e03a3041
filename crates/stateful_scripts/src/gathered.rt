//! What the lines of a case say of a script, and of its run.

use crate::Scripts;
use hex::FromHexError;
use stateful_base::OutOfMemory;
use stateful_shell::{Page, number, rest, word};
use std::alloc::Global;
use std::mem;

/// Lines that are kept under a name.
#[derive(Drop)]
pub(crate) struct Kept {
    name: String,
    bytes: Vec<u8>,
}

/// The line of these words: a `\` that one begins with is left out.
pub(crate) fn line_of(alloc: Global, words: &[&str]) -> Result<String, OutOfMemory> {
    let mut line = String::new(alloc);
    for word in words {
        line.push_str(word.strip_prefix("\\").unwrap_or(word))?;
        line.push(' ')?;
    }
    line.pop();
    Ok(line)
}

/// A line with a number in the place of each `%`.
fn numbered(alloc: Global, line: &str, number: u64) -> Result<String, OutOfMemory> {
    let number = number.to_string(alloc)?;
    Ok(line.replace(alloc, "%", number.as_str())?)
}

impl Scripts {
    /// A line of the script.
    pub(crate) fn put_line(&mut self, line: &str) -> Result<(), OutOfMemory> {
        self.bytes.extend_from_slice(line.as_bytes())?;
        self.bytes.push(b'\n')?;
        Ok(())
    }

    /// The line of these words.
    pub(crate) fn put_words(&mut self, words: &[&str], alloc: Global) -> Result<(), OutOfMemory> {
        self.put_line(line_of(alloc, words)?.as_str())
    }

    /// So many lines like that of these words.
    fn put_repeated(
        &mut self,
        count: u64,
        words: &[&str],
        alloc: Global,
    ) -> Result<(), OutOfMemory> {
        let line = line_of(alloc, words)?;
        for place in 0..count {
            self.put_line(numbered(alloc, line.as_str(), place)?.as_str())?;
        }
        Ok(())
    }

    /// Bytes of the script, in hex. A word that isn't hex is refused.
    fn put_bytes(&mut self, word: &str, page: &mut Page) {
        match hex::decode(page.alloc(), word) {
            Ok(bytes) => {
                if self.bytes.extend_from_slice(bytes.as_slice()).is_err() {
                    page.lack()
                }
            }
            Err(FromHexError::OutOfMemory) => page.lack(),
            Err(_) => page.say("refused"),
        }
    }

    /// The script so far, doubled so many times.
    fn double(&mut self, times: u64, alloc: Global) -> Result<(), OutOfMemory> {
        for _ in 0..times {
            let bytes = self.bytes.as_slice().to_vec(alloc)?;
            self.bytes.extend_from_slice(bytes.as_slice())?;
        }
        Ok(())
    }

    /// The lines that are kept under a name. A name that isn't known is refused.
    fn put_kept(&mut self, name: &str, page: &mut Page) {
        for kept in &self.kept {
            if kept.name.as_str() == name {
                if self.bytes.extend_from_slice(kept.bytes.as_slice()).is_err() {
                    page.lack()
                }
                return;
            }
        }
        page.say("refused")
    }

    /// A call that fails, of the source or of the sink. Another end is refused.
    fn fail(&mut self, end: &str, call: u64, page: &mut Page) {
        let noted = match end {
            "read" => self.reads.push(call),
            "write" => self.writes.push(call),
            _ => return page.say("refused"),
        };
        if noted.is_err() {
            page.lack()
        }
    }

    /// The words of the run. In one `_` stands for a blank.
    pub(crate) fn set_words(&mut self, words: &[&str], alloc: Global) -> Result<(), OutOfMemory> {
        self.has_words = true;
        self.words.clear();
        for word in words {
            self.words.push(word.replace(alloc, "_", " ")?)?;
        }
        Ok(())
    }

    /// Does a command that says what is gathered, and is never refused, or takes a line of the
    /// script.
    fn take(&mut self, words: &[&str], alloc: Global) -> Result<(), OutOfMemory> {
        match word(words, 0) {
            "define" => Ok(self.name.push_str(word(words, 1))?),
            "repeat" => self.put_repeated(number(words, 1), rest(words, 2), alloc),
            "double" => self.double(number(words, 1), alloc),
            "words" => self.set_words(rest(words, 1), alloc),
            _ => self.put_words(words, alloc),
        }
    }

    /// Does a command that says what is gathered, or takes a line of the script.
    pub(crate) fn gather(&mut self, words: &[&str], page: &mut Page) {
        match word(words, 0) {
            "use" => self.put_kept(word(words, 1), page),
            "bytes" => self.put_bytes(word(words, 1), page),
            "fail" => self.fail(word(words, 1), number(words, 2), page),
            _ => {
                let taken = self.take(words, page.alloc());
                page.note(taken)
            }
        }
    }

    /// Keeps the script under its name.
    pub(crate) fn keep(&mut self, alloc: Global) -> Result<(), OutOfMemory> {
        let name = mem::replace(&mut self.name, String::new(alloc));
        let bytes = mem::replace(&mut self.bytes, Vec::new(alloc));
        self.kept.push(Kept { name, bytes })?;
        Ok(())
    }
}
