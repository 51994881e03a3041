//! Why an event was refused.

use stateful_base::{Digest, Height, OutOfMemory, Round, Target};
use stateful_db::{DbCall, InitError, SetError, SetInit};
use stateful_exec_pause::ExecutionStep;
use stateful_exec_tables::{ExecError, ProposalFault};
use std::alloc::{AllocError, AllocFailed};
use thiserror::Error;

/// Why an event was refused. After `BadEvent` nothing has changed; after any other error every
/// event but a restart is answered `Failed`.
#[derive(Clone, Copy, Debug, PartialEq, Eq, Error)]
pub enum StepError {
    /// The database of this number failed to open, or keeps no checkpoint with the end that a block
    /// commits to.
    #[error("Database")]
    Database {
        index: usize,
    },
    /// The checkpoint of the database of this number is another than a block commits to.
    #[error("TargetMismatch")]
    TargetMismatch {
        index: usize,
        expected: Target,
        recovered: Target,
    },
    /// A finalized block is above the next height.
    #[error("SkippedHeight")]
    SkippedHeight {
        expected: Height,
        given: Height,
    },
    /// A finalized block of the next height has another parent than the anchor.
    #[error("NotExtending")]
    NotExtending {
        expected: Digest,
        given: Digest,
    },
    /// Another block was finalized at the anchor's height.
    #[error("ConflictAtAnchor")]
    ConflictAtAnchor {
        expected: Digest,
        given: Digest,
    },
    /// The run of a finalized block ended without states.
    #[error("FinalizedRejected")]
    FinalizedRejected {
        digest: Digest,
    },
    /// The run of a finalized block ended with another target at the database of this number.
    #[error("FinalizedMismatch")]
    FinalizedMismatch {
        index: usize,
        expected: Target,
        given: Target,
    },
    /// A built block isn't the one that was asked for.
    #[error("ProposalMismatch")]
    ProposalMismatch(ProposalFault),
    /// A built block isn't later than the anchor.
    #[error("ProposalStale")]
    ProposalStale {
        anchor: Round,
        round: Round,
    },
    /// A block of this digest is cached with another parent or round.
    #[error("PendingChanged")]
    PendingChanged {
        before: ExecutionStep,
        after: ExecutionStep,
    },
    /// The application, or a job of it, failed, and has counted it.
    #[error("Application")]
    Application,
    /// The store has no block at the height that is to be opened.
    #[error("MissingBlock")]
    MissingBlock {
        height: Height,
    },
    /// The event names work that isn't live, or the machine is down.
    #[error("BadEvent")]
    BadEvent,
    /// The machine has answered another error since the last start.
    #[error("Failed")]
    Failed,
    /// A counter stands at its last value.
    #[error("Exhausted")]
    Exhausted,
    /// The database of this number failed at this call, has counted it, and is lost with its
    /// medium.
    #[error("DatabaseFault")]
    DatabaseFault {
        index: usize,
        call: DbCall,
    },
    #[error("OutOfMemory")]
    OutOfMemory,
}

impl From<OutOfMemory> for StepError {
    ghost use Rattle.std.specs.Prelude.{◌≡◌};
    ghost use Rattle.stateful_loop_model.specs.declared.error.StepError.TheVariants.{OutOfMemory};

    ghost from_gives = { λ _ e. e ≡ OutOfMemory };

    fn from(_refused: OutOfMemory) -> StepError {
        StepError::OutOfMemory
    }
}

impl From<AllocError> for StepError {
    ghost use Rattle.std.specs.Prelude.{◌≡◌};
    ghost use Rattle.stateful_loop_model.specs.declared.error.StepError.TheVariants.{OutOfMemory};

    ghost from_gives = { λ _ e. e ≡ OutOfMemory };

    fn from(_refused: AllocError) -> StepError {
        StepError::OutOfMemory
    }
}

impl<T: Drop> From<AllocFailed<T>> for StepError {
    ghost use Rattle.std.specs.Prelude.{◌≡◌};
    ghost use Rattle.stateful_loop_model.specs.declared.error.StepError.TheVariants.{OutOfMemory};

    ghost from_gives = { λ _ e. e ≡ OutOfMemory };

    fn from(_refused: AllocFailed<T>) -> StepError {
        StepError::OutOfMemory
    }
}

impl From<SetError> for StepError {
    ghost use Rattle.std.specs.Prelude.{◌≡◌};
    ghost use Rattle.stateful_loop_model.specs.Errors.{error_of_set};

    ghost from_gives = { λ fault e. e ≡ error_of_set fault };

    // A database that isn't here is met after a failure alone.
    fn from(fault: SetError) -> StepError {
        match fault {
            SetError::Lost => StepError::Failed,
            SetError::Exhausted => StepError::Exhausted,
            SetError::DatabaseFault { index, call } => StepError::DatabaseFault { index, call },
            SetError::OutOfMemory => StepError::OutOfMemory,
        }
    }
}

impl From<SetInit> for StepError {
    ghost use Rattle.std.specs.Prelude.{◌≡◌};
    ghost use Rattle.stateful_loop_model.specs.Errors.{error_of_init};

    ghost from_gives = { λ fault e. e ≡ error_of_init fault };

    fn from(fault: SetInit) -> StepError {
        match fault.why {
            InitError::Database => StepError::Database { index: fault.index },
            InitError::TargetMismatch {
                expected,
                recovered,
            } => StepError::TargetMismatch {
                index: fault.index,
                expected,
                recovered,
            },
            InitError::OutOfMemory => StepError::OutOfMemory,
        }
    }
}

impl From<ExecError> for StepError {
    ghost use Rattle.std.specs.Prelude.{◌≡◌};
    ghost use Rattle.stateful_loop_model.specs.Errors.{error_of_exec};

    ghost from_gives = { λ fault e. e ≡ error_of_exec fault };

    fn from(fault: ExecError) -> StepError {
        match fault {
            ExecError::Lost => StepError::Failed,
            ExecError::SkippedHeight { expected, given } => {
                StepError::SkippedHeight { expected, given }
            }
            ExecError::NotExtending { expected, given } => {
                StepError::NotExtending { expected, given }
            }
            ExecError::ConflictAtAnchor { expected, given } => {
                StepError::ConflictAtAnchor { expected, given }
            }
            ExecError::FinalizedRejected { digest } => StepError::FinalizedRejected { digest },
            ExecError::FinalizedMismatch {
                index,
                expected,
                given,
            } => StepError::FinalizedMismatch {
                index,
                expected,
                given,
            },
            ExecError::ProposalMismatch(fault) => StepError::ProposalMismatch(fault),
            ExecError::ProposalStale { anchor, round } => {
                StepError::ProposalStale { anchor, round }
            }
            ExecError::PendingChanged { before, after } => {
                StepError::PendingChanged { before, after }
            }
            ExecError::Application => StepError::Application,
            ExecError::Exhausted => StepError::Exhausted,
            ExecError::OutOfMemory => StepError::OutOfMemory,
        }
    }
}
