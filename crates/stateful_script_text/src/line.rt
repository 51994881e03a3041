//! Lines, piece by piece. What a text held before stays in front of what is pushed on it.

ghost use Rattle.std.specs.Prelude.{◌≡◌, ◌++◌, ◌∷◌, [], map, OnOk};
ghost use Rattle.std.specs.Fmt.{decimal};
ghost use Rattle.stateful_script_text.specs.Line.{hex_of, name_of, field_text, line};

use crate::label::Labels;
use stateful_base::{Digest, OutOfMemory};
use std::alloc::Global;

pub fn push(out: &mut Vec<u8>, piece: &[u8]) -> Result<(), OutOfMemory>
    ensures { OnOk result (out.new.items ≡ out.old.items ++ piece.now) }
{
    out.extend_from_slice(piece)?;
    Ok(())
}

pub fn push_number(alloc: Global, out: &mut Vec<u8>, number: u64) -> Result<(), OutOfMemory>
    ensures { OnOk result (out.new.items ≡ out.old.items ++ decimal number) }
{
    let digits = number.to_string(alloc)?;
    push(out, digits.as_bytes())
}

fn push_hex(alloc: Global, out: &mut Vec<u8>, bytes: &[u8]) -> Result<(), OutOfMemory>
    ensures { OnOk result (out.new.items ≡ out.old.items ++ hex_of bytes.now) }
{
    let digits = hex::encode(alloc, bytes)?;
    push(out, digits.as_bytes())
}

fn push_name(
    alloc: Global,
    out: &mut Vec<u8>,
    labels: &Labels<'_>,
    digest: Digest,
) -> Result<(), OutOfMemory>
    ensures { OnOk result (out.new.items ≡ out.old.items ++ name_of labels.now digest) }
{
    match labels.first(digest) {
        Some(label) => push(out, label.name.as_slice()),
        None => {
            push(out, b"?")?;
            push_hex(alloc, out, &digest.0)
        }
    }
}

/// A field of a line: a word as it is, a number in decimal, or a block by its name.
#[derive(Clone, Copy)]
pub enum Field<'a> {
    Word(&'a str),
    Number(u64),
    Block(Digest),
}

/// What lines are written with: memory, and the names of blocks.
#[derive(Clone, Copy)]
pub struct Lines<'a> {
    pub alloc: Global,
    pub labels: &'a Labels<'a>,
}

impl Lines<'_> {
    fn push_field(self, out: &mut Vec<u8>, field: Field<'_>) -> Result<(), OutOfMemory>
        ensures { OnOk result (out.new.items
            ≡ out.old.items ++ field_text self.entry.labels.now field.entry) }
    {
        match field {
            Field::Word(word) => push(out, word.as_bytes()),
            Field::Number(number) => push_number(self.alloc, out, number),
            Field::Block(digest) => push_name(self.alloc, out, self.labels, digest),
        }
    }

    /// Appends a line of this word and these fields.
    pub fn line(
        self,
        out: &mut Vec<u8>,
        word: &str,
        fields: &[Field<'_>],
    ) -> Result<(), OutOfMemory>
        ensures { OnOk result
            (out.new.items ≡ out.old.items
            ++ line word.now (map (field_text self.entry.labels.now) fields.now)) }
    {
        push(out, word.as_bytes())?;
        for field in fields {
            push(out, b" ")?;
            self.push_field(out, *field)?;
        }
        push(out, b"\n")
    }

    /// Appends a line of this word and a number.
    pub fn number(self, out: &mut Vec<u8>, word: &str, number: u64) -> Result<(), OutOfMemory>
        ensures { OnOk result
            (out.new.items ≡ out.old.items ++ line word.now (decimal number ∷ [])) }
    {
        self.line(out, word, &[Field::Number(number)])
    }

    /// Appends a line of this word and two numbers.
    pub fn pair(
        self,
        out: &mut Vec<u8>,
        word: &str,
        first: u64,
        second: u64,
    ) -> Result<(), OutOfMemory>
        ensures { OnOk result
            (out.new.items ≡ out.old.items
            ++ line word.now (decimal first ∷ decimal second ∷ [])) }
    {
        self.line(out, word, &[Field::Number(first), Field::Number(second)])
    }

    /// Appends a line of this word, a number and another word.
    pub fn word(
        self,
        out: &mut Vec<u8>,
        word: &str,
        number: u64,
        last: &str,
    ) -> Result<(), OutOfMemory>
        ensures { OnOk result
            (out.new.items ≡ out.old.items ++ line word.now (decimal number ∷ last.now ∷ [])) }
    {
        self.line(out, word, &[Field::Number(number), Field::Word(last)])
    }

    /// Appends a line of this word, a number and a block.
    pub fn block(
        self,
        out: &mut Vec<u8>,
        word: &str,
        number: u64,
        digest: Digest,
    ) -> Result<(), OutOfMemory>
        ensures { OnOk result
            (out.new.items ≡ out.old.items
            ++ line word.now (decimal number ∷ name_of self.entry.labels.now digest ∷ [])) }
    {
        self.line(out, word, &[Field::Number(number), Field::Block(digest)])
    }
}
