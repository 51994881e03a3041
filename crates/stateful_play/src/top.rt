//! The top call.

ghost use Rattle.std.specs.Prelude.{◌≡◌, ◌⊎◌, ℕ, List, [], true, false, Some};
ghost use Rattle.std.specs.Prelude.{IsNone, IsSome, IsSomeAnd};
ghost use Rattle.std.specs.Io.KnownBytes.{Appends};
ghost use Rattle.stateful_base.specs.Causes.{Rose};
ghost use Rattle.stateful_script_text.specs.Transcript.{usage_line, script_line};
ghost use Rattle.stateful_play_edge.specs.Reading.{asks_play, IsUnread};
ghost use Rattle.stateful_play_edge.specs.Writing.{HoldsPrefix};
ghost use Rattle.stateful_play.specs.Status.{IsPlayed, AsksFor, HoldsPart, IsHaltedAt, IsOrCut};
ghost use Rattle.stateful_play.specs.Status.{IsScript, IsRefused};

use stateful_play_bank::play;
use stateful_play_edge::{
    Outcome, Status, Stop, asks_play, load, refuse_line, refuse_words, without_play,
    write_transcript,
};
use stateful_types::{OutOfMemory, Sink, Source};
use std::alloc::Global;

/// Reads a script of at most 16 MiB, plays it, and writes its transcript. The words are the one
/// word `play`.
pub fn run<S: Source, K: Sink>(
    alloc: Global,
    words: &[String],
    source: &mut S,
    sink: &mut K,
) -> Outcome
    // The script was played to its end, and its transcript is written.
    ensures done { result.status ≡ Status.Done
        → (asks_play words.now ≡ true)
        × IsSomeAnd result.played (λ p. IsNone p.end
        × ((text : List ℕ)
        × IsPlayed (S.left source.old) (S.left source.new) p text
        × Appends (K.written sink.old) (K.written sink.new) text)) }

    // The event of this number was refused. The transcript, whose last line names the error, is
    // written.
    ensures halted { (at : ℕ)
        → result.status ≡ Status.Halted at
        → (asks_play words.now ≡ true)
        × IsSomeAnd result.played (λ p. IsHaltedAt p.end at
        × ((text : List ℕ)
        × IsPlayed (S.left source.old) (S.left source.new) p text
        × Appends (K.written sink.old) (K.written sink.new) text)) }

    // The words aren't the one word `play`. The usage line is written.
    ensures usage { result.status ≡ Status.Usage
        → (asks_play words.now ≡ false)
        × IsNone result.played
        × Appends (K.written sink.old) (K.written sink.new) usage_line }
    ensures other_words { asks_play words.now ≡ false → IsOrCut Status.Usage result.status }

    // All bytes were read, and this is the first line that no rule reads; or it is line 0, and
    // there were more than 16 MiB. The line's number is written.
    ensures script { (line : ℕ)
        → result.status ≡ Status.Script line
        → (asks_play words.now ≡ true)
        × IsNone result.played
        × IsUnread (S.left source.old) (S.left source.new) line
        × Appends (K.written sink.old) (K.written sink.new) (script_line line) }
    ensures refused { (bytes : List ℕ) (line : ℕ)
        → asks_play words.now ≡ true
        → S.left source.old ≡ Some bytes
        → IsRefused bytes line
        → IsOrCut (Status.Script line) result.status ⊎ (result.status ≡ Status.ReadFault) }

    // Bytes that are a script are played.
    ensures played { (bytes : List ℕ)
        → asks_play words.now ≡ true
        → S.left source.old ≡ Some bytes
        → IsScript bytes
        → IsSome result.played
        ⊎ (result.status ≡ Status.ReadFault)
        ⊎ (result.status ≡ Status.NoMemory) }

    // The source failed. Nothing is written.
    ensures read_fault { result.status ≡ Status.ReadFault
        → (asks_play words.now ≡ true)
        × IsNone result.played
        × Rose (S.count source.old) (S.count source.new)
        × Appends (K.written sink.old) (K.written sink.new) [] }

    // The sink failed. A prefix of the text is written.
    ensures write_fault { result.status ≡ Status.WriteFault
        → Rose (K.count sink.old) (K.count sink.new)
        × ((text : List ℕ)
        × AsksFor (S.left source.old) (S.left source.new) (asks_play words.now)
        result.played text
        × HoldsPrefix (K.written sink.old) (K.written sink.new) text) }

    // Memory ran out. Nothing is written, or a prefix of the text.
    ensures memory { result.status ≡ Status.NoMemory
        → IsNone result.played
        × HoldsPart (S.left source.old) (S.left source.new) (asks_play words.now)
        (K.written sink.old) (K.written sink.new) }
{
    if !asks_play(words) {
        return refuse_words(alloc, sink);
    }
    let script = match load(alloc, source) {
        Ok(script) => script,
        Err(Stop::ReadFault) => return without_play(Status::ReadFault),
        Err(Stop::Refused(line)) => return refuse_line(alloc, sink, line),
        Err(Stop::NoMemory) => return without_play(Status::NoMemory),
    };
    match play(alloc, &script) {
        Ok(told) => write_transcript(alloc, sink, told),
        Err(OutOfMemory) => without_play(Status::NoMemory),
    }
}
