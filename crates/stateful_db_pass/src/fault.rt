//! Why a sync doesn't go on.

use thiserror::Error;

/// Why a sync didn't begin, go on or end.
#[derive(Clone, Copy, Debug, PartialEq, Eq, Error)]
pub enum SyncFault {
    /// No state has this target.
    #[error("InvalidTarget")]
    InvalidTarget,
    /// The source or the medium failed, and has counted it.
    #[error("Failed")]
    Failed,
    #[error("OutOfMemory")]
    OutOfMemory,
}
