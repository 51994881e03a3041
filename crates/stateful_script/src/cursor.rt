//! Texts cut at a byte, and the fields of a line one by one.

ghost use Rattle.std.specs.Prelude.{◌≡◌, ◌==◌, ◌<◌, List, [], ◌∷◌, MatchOption, IfSome, position};
ghost use Rattle.std.specs.Prelude.{length};
ghost use Rattle.std.specs.List.{slice_split};
ghost use Rattle.stateful_script.specs.Fields.{fields_of};
ghost use Rattle.stateful_script.specs.Cursor.{fields_left};

fn place(text: &[u8], byte: u8) -> Option<usize>
    ensures value { result ≡ position (λ b. b == byte) text.now }
    ensures within { IfSome result (λ i. i < length text.now) }
{
    text.iter().position(|b| *b == byte)
}

/// Cuts a text at the first `byte`, which falls away. None where it has no such byte.
pub fn cut(text: &[u8], byte: u8) -> Option<(&[u8], &[u8])>
    ensures parts { MatchOption result
        (slice_split (λ b. b == byte) text.now ≡ text.now ∷ [])
        (λ cut. slice_split (λ b. b == byte) text.now ≡ cut.0.now
        ∷ slice_split (λ b. b == byte) cut.1.now) }
    ensures shorter { IfSome result (λ cut. length cut.1.now < length text.now) }
{
    let end = place(text, byte)?;
    Some((&text[..end], &text[end + 1..]))
}

/// The fields of a line that are left: what stands between single spaces.
#[derive(Debug, Drop)]
pub struct Cursor<'a> {
    rest: Option<&'a [u8]>,
}

impl<'a> Cursor<'a> {
    pub fn new(line: &'a [u8]) -> Self
        ensures { fields_left result ≡ fields_of line.now }
    {
        Cursor { rest: Some(line) }
    }

    /// The next field. None where none is left.
    pub fn next_field(&mut self) -> Option<&'a [u8]>
        ensures { MatchOption result ((fields_left self.old ≡ []) × (fields_left self.new ≡ []))
            (λ field. fields_left self.old ≡ field.now ∷ fields_left self.new) }
    {
        let rest = self.rest?;
        match cut(rest, b' ') {
            Some((field, after)) => {
                self.rest = Some(after);
                Some(field)
            }
            None => {
                self.rest = None;
                Some(rest)
            }
        }
    }
}
