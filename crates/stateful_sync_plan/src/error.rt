//! Why a call was refused.

ghost use Rattle.std.specs.Prelude.{◌≡◌};
ghost use Rattle.stateful_sync_plan.specs.declared.error.PlanError.TheVariants as plan;
ghost use Rattle.stateful_sync_plan.specs.declared.error.SyncError.TheVariants as sync;
ghost use Rattle.stateful_sync_plan.specs.Errors.{of_codec, of_store, of_opening};

use crate::store::StoreFault;
use stateful_db::{InitError, SetInit};
use stateful_types::{CodecError, Digest, Height, OutOfMemory, Target};
use std::alloc::{AllocError, AllocFailed};
use thiserror::Error;

/// Why a plan didn't load, or didn't change.
#[derive(Clone, Copy, Debug, PartialEq, Eq, Error)]
pub enum PlanError {
    /// A byte that no case has stands in the stored bytes, or a byte is left over behind a whole
    /// state.
    #[error("InvalidEnum")]
    InvalidEnum(u8),
    /// The stored bytes end inside a state.
    #[error("EndOfBuffer")]
    EndOfBuffer,
    /// The store failed, and has counted it.
    #[error("PlanStore")]
    PlanStore,
    /// A completion below the recorded height.
    #[error("CompletedBackward")]
    CompletedBackward {
        recorded: Height,
        given: Height,
    },
    /// A completion at the recorded height, of another block.
    #[error("CompletedConflict")]
    CompletedConflict {
        height: Height,
        recorded: Digest,
        given: Digest,
    },
    #[error("OutOfMemory")]
    OutOfMemory,
}

impl From<CodecError> for PlanError {
    ghost from_gives = { λ error e. e ≡ of_codec error };

    fn from(error: CodecError) -> PlanError {
        match error {
            CodecError::InvalidEnum(byte) => PlanError::InvalidEnum(byte),
            CodecError::EndOfBuffer => PlanError::EndOfBuffer,
            CodecError::OutOfMemory => PlanError::OutOfMemory,
        }
    }
}

impl From<StoreFault> for PlanError {
    ghost from_gives = { λ fault e. e ≡ of_store fault };

    fn from(fault: StoreFault) -> PlanError {
        match fault {
            StoreFault::Failed => PlanError::PlanStore,
            StoreFault::OutOfMemory => PlanError::OutOfMemory,
        }
    }
}

impl From<OutOfMemory> for PlanError {
    ghost from_gives = { λ _ e. e ≡ plan.OutOfMemory };

    fn from(_refused: OutOfMemory) -> PlanError {
        PlanError::OutOfMemory
    }
}

impl<T: Drop> From<AllocFailed<T>> for PlanError {
    ghost from_gives = { λ _ e. e ≡ plan.OutOfMemory };

    fn from(_refused: AllocFailed<T>) -> PlanError {
        PlanError::OutOfMemory
    }
}

/// Which block isn't there.
#[derive(Clone, Copy, Debug, PartialEq, Eq)]
pub enum Missing {
    /// That of this height, in the block store.
    AtHeight(Height),
    /// The one that was fetched: the fetch was answered none.
    Fetched,
}

/// Why no start of a sync was chosen, why databases weren't opened, or why a sync goes no further.
#[derive(Clone, Copy, Debug, PartialEq, Eq, Error)]
pub enum SyncError {
    /// The database of this number failed to open, or keeps no checkpoint with the end that the
    /// block commits to.
    #[error("Database")]
    Database {
        index: usize,
    },
    /// The checkpoint of the database of this number is another than the block commits to.
    #[error("TargetMismatch")]
    TargetMismatch {
        index: usize,
        expected: Target,
        recovered: Target,
    },
    /// The block that is to be chosen isn't there.
    #[error("MissingBlock")]
    MissingBlock(Missing),
    /// The block that is to be opened isn't the one with which the completion at its height was
    /// recorded.
    #[error("CompletedConflict")]
    CompletedConflict {
        height: Height,
        recorded: Digest,
        given: Digest,
    },
    /// A finalized block is above the next height.
    #[error("SkippedHeight")]
    SkippedHeight {
        expected: Height,
        given: Height,
    },
    /// Two different blocks were finalized at one height, which may be the anchor's.
    #[error("ConflictAtAnchor")]
    ConflictAtAnchor {
        expected: Digest,
        given: Digest,
    },
    #[error("OutOfMemory")]
    OutOfMemory,
}

impl From<OutOfMemory> for SyncError {
    ghost from_gives = { λ _ e. e ≡ sync.OutOfMemory };

    fn from(_refused: OutOfMemory) -> SyncError {
        SyncError::OutOfMemory
    }
}

impl From<AllocError> for SyncError {
    ghost from_gives = { λ _ e. e ≡ sync.OutOfMemory };

    fn from(_refused: AllocError) -> SyncError {
        SyncError::OutOfMemory
    }
}

impl<T: Drop> From<AllocFailed<T>> for SyncError {
    ghost from_gives = { λ _ e. e ≡ sync.OutOfMemory };

    fn from(_refused: AllocFailed<T>) -> SyncError {
        SyncError::OutOfMemory
    }
}

impl From<SetInit> for SyncError {
    ghost from_gives = { λ refused e. e ≡ of_opening refused.index refused.why };

    fn from(refused: SetInit) -> SyncError {
        match refused.why {
            InitError::Database => SyncError::Database {
                index: refused.index,
            },
            InitError::TargetMismatch {
                expected,
                recovered,
            } => SyncError::TargetMismatch {
                index: refused.index,
                expected,
                recovered,
            },
            InitError::OutOfMemory => SyncError::OutOfMemory,
        }
    }
}
