//! Why a line wasn't read.

ghost use Rattle.std.specs.Prelude.{◌≡◌};
ghost use Rattle.stateful_script.specs.declared.error.LineError.TheVariants.{OutOfMemory};

use std::alloc::{AllocError, AllocFailed};

/// Why a line wasn't read.
#[derive(Clone, Copy, Debug, PartialEq, Eq)]
pub enum LineError {
    /// No rule reads it.
    Refused,
    OutOfMemory,
}

impl From<AllocError> for LineError {
    ghost from_gives = { λ _ e. e ≡ OutOfMemory };

    fn from(_refused: AllocError) -> Self {
        LineError::OutOfMemory
    }
}

impl<T: Drop> From<AllocFailed<T>> for LineError {
    ghost from_gives = { λ _ e. e ≡ OutOfMemory };

    fn from(_refused: AllocFailed<T>) -> Self {
        LineError::OutOfMemory
    }
}
