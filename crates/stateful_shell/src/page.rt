//! What the commands of a case print.

ghost use Rattle.std.specs.Prelude.{if◌then◌else◌, ◌≡◌, ◌++◌, [], true, false, IsTrue};
ghost use Rattle.std.specs.Prelude.{IfOk, OnOk, OnErr, codes, is_err, string_bytes};
ghost use Rattle.std.specs.Fmt.{AppendsText, decimal, with_newline};
ghost use Rattle.hex.specs.Hex.{encode_lower};
ghost use Rattle.stateful_shell.specs.Printed.{Adds};

use stateful_base::OutOfMemory;
use std::alloc::Global;
use std::fmt::{Debug, Display};
use std::marker::Model;
use std::mem;

/// What the commands of a case print. A piece for which memory lacks is left away, and the case
/// then ends with that error: so commands needn't hand it on piece by piece.
#[derive(Drop)]
pub struct Page {
    text: String,
    lacks: bool,
}

impl Model for Page {
    ghost use Rattle.std.specs.Prelude.{string_bytes};
    ghost use Rattle.stateful_shell.specs.Printed.{Printed};

    ghost Value = { Printed };

    ghost view = { λ page. record { text = string_bytes page.text; lacks = page.lacks } };
}

impl Page {
    /// Nothing is printed yet.
    pub fn new(alloc: Global) -> Page
        ensures text { result.text ≡ [] }
        ensures lacks { result.lacks ≡ false }
    {
        Page {
            text: String::new(alloc),
            lacks: false,
        }
    }

    /// Where things that commands make are allocated. No clause says which allocator that is, since
    /// a page has one alone.
    pub fn alloc(&self) -> Global {
        *self.text.allocator()
    }

    /// Memory lacked for a command.
    pub fn lack(&mut self)
        ensures text { self.new.text ≡ self.old.text }
        ensures lacks { self.new.lacks ≡ true }
    {
        self.lacks = true;
    }

    /// The same where a command was refused.
    pub fn note(&mut self, done: Result<(), OutOfMemory>)
        ensures text { self.new.text ≡ self.old.text }
        ensures lacks { self.new.lacks ≡ (if is_err done then true else self.old.lacks) }
    {
        if done.is_err() {
            self.lacks = true;
        }
    }

    /// The same where memory lacked for a piece of another page, which isn't shown.
    pub fn note_page(&mut self, other: &Page)
        ensures text { self.new.text ≡ self.old.text }
        ensures lacks { self.new.lacks ≡ (if other.now.lacks then true else self.old.lacks) }
    {
        if other.lacks {
            self.lacks = true;
        }
    }

    /// Appends text.
    pub fn push(&mut self, text: &str)
        ensures { Adds self.old self.new text.now }
    {
        if self.text.push_str(text).is_err() {
            self.lacks = true;
        }
    }

    /// Appends a value as it is shown. Of a type that doesn't say what it shows, as most errors, no
    /// clause says what is appended.
    pub fn show<T: Display>(&mut self, value: &T)
        ensures kept { IsTrue self.old.lacks → IsTrue self.new.lacks }
        ensures shown { self.new.lacks ≡ false
            → AppendsText self.old.text self.new.text (T.output value.now) }
    {
        match self.text.write(value) {
            Ok(()) => {}
            Err(_) => self.lacks = true,
        }
    }

    /// Appends a value as it is written in code. Of a derived `Debug` no clause says what is
    /// appended.
    pub fn debug<T: Debug>(&mut self, value: &T)
        ensures kept { IsTrue self.old.lacks → IsTrue self.new.lacks }
        ensures shown { self.new.lacks ≡ false
            → AppendsText self.old.text self.new.text (T.debug_output value.now) }
    {
        match write!(self.text, "{value:?}") {
            Ok(()) => {}
            Err(_) => self.lacks = true,
        }
    }

    /// Appends a number.
    pub fn number(&mut self, number: u64)
        ensures { Adds self.old self.new (decimal number) }
    {
        match self.text.write(number) {
            Ok(()) => {}
            Err(_) => self.lacks = true,
        }
    }

    /// Appends text and a number.
    pub fn field(&mut self, name: &str, number: u64)
        ensures { Adds self.old self.new (name.now ++ decimal number) }
    {
        self.push(name);
        self.number(number)
    }

    /// Appends bytes in hex.
    pub fn hex(&mut self, bytes: &[u8])
        ensures { Adds self.old self.new (encode_lower bytes.now) }
    {
        match hex::encode(self.alloc(), bytes) {
            Ok(text) => self.push(text.as_str()),
            Err(_) => self.lacks = true,
        }
    }

    /// Ends the line.
    pub fn end(&mut self)
        ensures { Adds self.old self.new (codes "\n") }
    {
        self.push("\n")
    }

    /// A line.
    pub fn say(&mut self, text: &str)
        ensures { Adds self.old self.new (text.now ++ codes "\n") }
    {
        self.push(text);
        self.end()
    }

    /// A line that shows a value, of which is said what `show` says.
    pub fn line<T: Display>(&mut self, value: &T)
        ensures kept { IsTrue self.old.lacks → IsTrue self.new.lacks }
        ensures shown { self.new.lacks ≡ false
            → AppendsText self.old.text self.new.text (with_newline (T.output value.now)) }
    {
        match self.text.writeln(value) {
            Ok(()) => {}
            Err(_) => self.lacks = true,
        }
    }

    /// What is printed. An error where memory lacked for a piece.
    pub(crate) fn text(&self) -> Result<&str, OutOfMemory>
        ensures ok { IfOk result (λ text. text.now ≡ self.now.text) }
        ensures lacked { is_err result ≡ self.now.lacks }
    {
        if self.lacks {
            return Err(OutOfMemory);
        }
        Ok(self.text.as_str())
    }

    /// What is printed, and nothing is then. An error where memory lacked for a piece, which leaves
    /// the page as it is.
    pub(crate) fn take(&mut self) -> Result<String, OutOfMemory>
        ensures ok { IfOk result (λ text. string_bytes text ≡ self.old.text) }
        ensures emptied { OnOk result (self.new.text ≡ []) }
        ensures left { OnErr result (self.new.text ≡ self.old.text) }
        ensures lacked { is_err result ≡ self.old.lacks }
        ensures lacks { self.new.lacks ≡ self.old.lacks }
    {
        if self.lacks {
            return Err(OutOfMemory);
        }
        let next = String::new(self.alloc());
        Ok(mem::replace(&mut self.text, next))
    }
}
