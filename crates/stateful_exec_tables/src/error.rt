//! Why execution refused a call.

use stateful_base::{Digest, Height, OutOfMemory, Round, Target};
use stateful_db::{AppFault, SetError};
use stateful_exec_pause::ExecutionStep;
use std::alloc::{AllocError, AllocFailed};
use thiserror::Error;

/// How a built block differs from what was asked for.
#[derive(Clone, Copy, Debug, PartialEq, Eq)]
pub enum ProposalFault {
    /// Its batch leads to another target at the database of this number.
    Targets {
        index: usize,
        expected: Target,
        given: Target,
    },
    Parent {
        expected: Digest,
        given: Digest,
    },
    Round {
        expected: Round,
        given: Round,
    },
}

/// Why execution refused a call. Behind a refusal nothing is said of its tables but of the numbers
/// that are drawn next.
#[derive(Clone, Copy, Debug, PartialEq, Eq, Error)]
pub enum ExecError {
    /// A database isn't here.
    #[error("Lost")]
    Lost,
    /// A finalized block is above the next height.
    #[error("SkippedHeight")]
    SkippedHeight {
        expected: Height,
        given: Height,
    },
    /// A finalized block of the next height has another parent than the anchor.
    #[error("NotExtending")]
    NotExtending {
        expected: Digest,
        given: Digest,
    },
    /// Another block was finalized at the anchor's height.
    #[error("ConflictAtAnchor")]
    ConflictAtAnchor {
        expected: Digest,
        given: Digest,
    },
    /// A run of a finalized block ended without states.
    #[error("FinalizedRejected")]
    FinalizedRejected {
        digest: Digest,
    },
    /// A run of a finalized block ended with another target at the database of this number.
    #[error("FinalizedMismatch")]
    FinalizedMismatch {
        index: usize,
        expected: Target,
        given: Target,
    },
    /// A built block isn't the one that was asked for.
    #[error("ProposalMismatch")]
    ProposalMismatch(ProposalFault),
    /// A built block isn't later than the anchor.
    #[error("ProposalStale")]
    ProposalStale {
        anchor: Round,
        round: Round,
    },
    /// A block of this digest is cached with another parent or round.
    #[error("PendingChanged")]
    PendingChanged {
        before: ExecutionStep,
        after: ExecutionStep,
    },
    /// The application, or a job of it, failed, and has counted it.
    #[error("Application")]
    Application,
    /// A counter stands at its last value.
    #[error("Exhausted")]
    Exhausted,
    #[error("OutOfMemory")]
    OutOfMemory,
}

impl From<OutOfMemory> for ExecError {
    ghost use Rattle.std.specs.Prelude.{◌≡◌};
    ghost use Rattle.stateful_exec_tables.specs.declared.error.ExecError.TheVariants.{OutOfMemory};

    ghost from_gives = { λ _ e. e ≡ OutOfMemory };

    fn from(_refused: OutOfMemory) -> ExecError {
        ExecError::OutOfMemory
    }
}

impl From<AllocError> for ExecError {
    ghost use Rattle.std.specs.Prelude.{◌≡◌};
    ghost use Rattle.stateful_exec_tables.specs.declared.error.ExecError.TheVariants.{OutOfMemory};

    ghost from_gives = { λ _ e. e ≡ OutOfMemory };

    fn from(_refused: AllocError) -> ExecError {
        ExecError::OutOfMemory
    }
}

impl<T: Drop> From<AllocFailed<T>> for ExecError {
    ghost use Rattle.std.specs.Prelude.{◌≡◌};
    ghost use Rattle.stateful_exec_tables.specs.declared.error.ExecError.TheVariants.{OutOfMemory};

    ghost from_gives = { λ _ e. e ≡ OutOfMemory };

    fn from(_refused: AllocFailed<T>) -> ExecError {
        ExecError::OutOfMemory
    }
}

impl From<AppFault> for ExecError {
    ghost use Rattle.std.specs.Prelude.{◌≡◌};
    ghost use Rattle.stateful_exec_tables.specs.Errors.{error_of_app};

    ghost from_gives = { λ fault e. e ≡ error_of_app fault };

    fn from(fault: AppFault) -> ExecError {
        match fault {
            AppFault::Failed => ExecError::Application,
            AppFault::OutOfMemory => ExecError::OutOfMemory,
        }
    }
}

impl From<SetError> for ExecError {
    ghost use Rattle.std.specs.Prelude.{◌≡◌};
    ghost use Rattle.stateful_exec_tables.specs.Errors.{error_of_set};

    ghost from_gives = { λ fault e. e ≡ error_of_set fault };

    // No call that makes batches fails at a database: one that failed is lost.
    fn from(fault: SetError) -> ExecError {
        match fault {
            SetError::Lost | SetError::DatabaseFault { .. } => ExecError::Lost,
            SetError::Exhausted => ExecError::Exhausted,
            SetError::OutOfMemory => ExecError::OutOfMemory,
        }
    }
}
