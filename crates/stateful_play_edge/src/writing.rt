//! What is written: a transcript, or what stands in its place.

ghost use Rattle.std.specs.Prelude.{◌≡◌, ◌≢◌, ◌⊎◌, None, Some, IsNone};
ghost use Rattle.stateful_base.specs.Causes.{Rose};
ghost use Rattle.stateful_script_text.specs.Transcript.{usage_line, script_line};
ghost use Rattle.stateful_play_bank.specs.Shown.{text_of};
ghost use Rattle.stateful_play_edge.specs.Writing.{status_by, Writes};

use crate::status::{Outcome, Status};
use stateful_actor::Halted;
use stateful_play_bank::{Told, text_of};
use stateful_script_text::{script_line, usage_line};
use stateful_types::{OutOfMemory, Sink, SinkFault, write_all};
use std::alloc::Global;

/// A run without a play.
pub fn without_play(status: Status) -> Outcome
    ensures { result ≡ record { status = status; played = None } }
{
    Outcome {
        status,
        played: None,
    }
}

/// Writes a text that stands in the place of a transcript, and has this status.
fn write_text<K: Sink>(sink: &mut K, text: &[u8], status: Status) -> Outcome
    ensures none { IsNone result.played }
    ensures status { Writes (Rose (K.count sink.old) (K.count sink.new)) (K.written sink.old)
        (K.written sink.new) text.now status result.status }
{
    match write_all(sink, text) {
        Ok(()) => without_play(status),
        Err(SinkFault::Failed) => without_play(Status::WriteFault),
        Err(SinkFault::OutOfMemory) => without_play(Status::NoMemory),
    }
}

/// The status behind a play that ended so, where its transcript is written.
fn status_of(end: &Option<Halted>) -> Status
    ensures { result ≡ status_by end.now }
{
    match end {
        Some(halted) => Status::Halted { at: halted.at },
        None => Status::Done,
    }
}

/// Writes the text of a play, and answers with which status.
fn write_told<K: Sink>(alloc: Global, sink: &mut K, told: &Told) -> Status
    ensures { Writes (Rose (K.count sink.old) (K.count sink.new)) (K.written sink.old)
        (K.written sink.new) (text_of told.now.labels.items told.now.shown.items told.now.played)
        (status_by told.now.played.end) result }
{
    let text = match text_of(alloc, told) {
        Ok(text) => text,
        Err(OutOfMemory) => return Status::NoMemory,
    };
    match write_all(sink, text.as_slice()) {
        Ok(()) => status_of(&told.played.end),
        Err(SinkFault::Failed) => Status::WriteFault,
        Err(SinkFault::OutOfMemory) => Status::NoMemory,
    }
}

/// Writes the transcript of a play. Where memory runs out nothing is told of it.
pub fn write_transcript<K: Sink>(alloc: Global, sink: &mut K, told: Told) -> Outcome
    ensures status { Writes (Rose (K.count sink.old) (K.count sink.new)) (K.written sink.old)
        (K.written sink.new) (text_of told.labels.items told.shown.items told.played)
        (status_by told.played.end) result.status }
    ensures played { ((result.status ≡ Status.NoMemory) × IsNone result.played)
        ⊎ ((result.status ≢ Status.NoMemory) × (result.played ≡ Some told.played)) }
{
    match write_told(alloc, sink, &told) {
        Status::NoMemory => without_play(Status::NoMemory),
        status => Outcome {
            status,
            played: Some(told.played),
        },
    }
}

/// Answers words that aren't the one word `play`.
pub fn refuse_words<K: Sink>(alloc: Global, sink: &mut K) -> Outcome
    ensures none { IsNone result.played }
    ensures status { Writes (Rose (K.count sink.old) (K.count sink.new)) (K.written sink.old)
        (K.written sink.new) usage_line Status.Usage result.status }
{
    match usage_line(alloc) {
        Ok(text) => write_text(sink, text.as_slice(), Status::Usage),
        Err(OutOfMemory) => without_play(Status::NoMemory),
    }
}

/// Answers a script of which no rule reads this line.
pub fn refuse_line<K: Sink>(alloc: Global, sink: &mut K, line: u64) -> Outcome
    ensures none { IsNone result.played }
    ensures status { Writes (Rose (K.count sink.old) (K.count sink.new)) (K.written sink.old)
        (K.written sink.new) (script_line line) (Status.Script line) result.status }
{
    match script_line(alloc, line) {
        Ok(text) => write_text(sink, text.as_slice(), Status::Script { line }),
        Err(OutOfMemory) => without_play(Status::NoMemory),
    }
}
