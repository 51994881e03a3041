//! The text of a play.

ghost use Rattle.std.specs.Prelude.{◌≡◌, IfOk};
ghost use Rattle.stateful_script_text.specs.Transcript.{ending_of};
ghost use Rattle.stateful_play_bank.specs.Shown.{error_name, ending_by, text_of};

use crate::playing::{History, Told};
use stateful_actor::{Halted, StepError};
use stateful_script_text::{End, transcript};
use stateful_types::OutOfMemory;
use std::alloc::Global;

/// The name of an error, as it is written.
fn name_of(error: StepError) -> &'static str
    ensures { result.now ≡ error_name error }
{
    match error {
        StepError::Database { .. } => "Database",
        StepError::TargetMismatch { .. } => "TargetMismatch",
        StepError::SkippedHeight { .. } => "SkippedHeight",
        StepError::NotExtending { .. } => "NotExtending",
        StepError::ConflictAtAnchor { .. } => "ConflictAtAnchor",
        StepError::FinalizedRejected { .. } => "FinalizedRejected",
        StepError::FinalizedMismatch { .. } => "FinalizedMismatch",
        StepError::ProposalMismatch(_) => "ProposalMismatch",
        StepError::ProposalStale { .. } => "ProposalStale",
        StepError::PendingChanged { .. } => "PendingChanged",
        StepError::Application => "Application",
        StepError::MissingBlock { .. } => "MissingBlock",
        StepError::BadEvent => "BadEvent",
        StepError::Failed => "Failed",
        StepError::Exhausted => "Exhausted",
        StepError::DatabaseFault { .. } => "DatabaseFault",
        StepError::OutOfMemory => "OutOfMemory",
    }
}

/// How a play ended, as it is written.
fn end_of(end: &Option<Halted>) -> End<'static>
    ensures { ending_of result ≡ ending_by end.now }
{
    match end {
        Some(halted) => End::Halted {
            at: halted.at as u64,
            name: name_of(halted.error),
        },
        None => End::Done,
    }
}

/// The transcript of a play.
pub fn text_of(alloc: Global, told: &Told) -> Result<Vec<u8>, OutOfMemory>
    ensures { IfOk result (λ text. text.items
        ≡ text_of told.now.labels.items told.now.shown.items told.now.played) }
{
    let history = match &told.played.history {
        History::Plain(history) | History::Pair(history) | History::Triple(history) => history,
    };
    transcript(
        alloc,
        told.labels.as_slice(),
        history.as_slice(),
        told.shown.as_slice(),
        end_of(&told.played.end),
    )
}
