//! What the words ask for, and the script that a source holds.

ghost use Rattle.std.specs.Prelude.{◌≡◌, IfOk, IfErr, codes, string_bytes};
ghost use Rattle.std.specs.List.{list_all};
ghost use Rattle.std.specs.Str.{bytes_eq};
ghost use Rattle.stateful_base.specs.Causes.{Rose};
ghost use Rattle.stateful_script.specs.Laws.{IsPlan};
ghost use Rattle.stateful_play_edge.specs.Reading.{asks_play, IsLoaded, Stops};

use stateful_script::{Script, ScriptError, read_script};
use stateful_types::{ReadError, Source, read_all};
use std::alloc::Global;

/// The most bytes of a script.
const LIMIT: usize = 16 * 1024 * 1024;

/// Why there was no script.
#[derive(Clone, Copy, Debug, PartialEq, Eq)]
pub enum Stop {
    /// The source failed.
    ReadFault,
    /// No rule reads the line of this number, from 1; or it is 0, and there are too many bytes.
    Refused(u64),
    /// Memory ran out.
    NoMemory,
}

/// Whether each word is `play`.
fn all_play(words: &[String]) -> bool
    ensures { result ≡ list_all (λ word. bytes_eq (string_bytes word) (codes "play")) words.now }
{
    words.iter().all(|word| word.as_str() == "play")
}

/// Whether the words are the one word `play`.
#[tactic(auto, unfolding(crate::specs::Reading::asks_play))]
pub fn asks_play(words: &[String]) -> bool
    ensures { result ≡ asks_play words.now }
{
    if words.len() != 1 {
        return false;
    }
    all_play(words)
}

/// Reads a script of at most 16 MiB from a source, to its end.
pub fn load<S: Source>(alloc: Global, source: &mut S) -> Result<Script, Stop>
    ensures found { IfOk result (λ script. IsLoaded (S.left source.old) (S.left source.new)
        script) }
    ensures plan { IfOk result (λ script. IsPlan script) }
    ensures stopped { IfErr result (λ stop. Stops (S.left source.old) (S.left source.new)
        (Rose (S.count source.old) (S.count source.new)) stop) }
{
    let bytes = match read_all(alloc, LIMIT, source) {
        Ok(bytes) => bytes,
        Err(ReadError::Failed) => return Err(Stop::ReadFault),
        Err(ReadError::TooLong) => return Err(Stop::Refused(0)),
        Err(ReadError::OutOfMemory) => return Err(Stop::NoMemory),
    };
    match read_script(alloc, bytes.as_slice()) {
        Ok(script) => Ok(script),
        Err(ScriptError::Line(line)) => Err(Stop::Refused(line)),
        Err(ScriptError::OutOfMemory) => Err(Stop::NoMemory),
    }
}
