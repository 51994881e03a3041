//! Why no further number is drawn.

ghost use Rattle.std.specs.Prelude.{◌≡◌};
ghost use Rattle.stateful_types.specs.declared.draw.DrawError.TheVariants as errors;

use stateful_base::OutOfMemory;
use std::alloc::{AllocError, AllocFailed};
use thiserror::Error;

/// Why a counter gave no number.
#[derive(Clone, Copy, Debug, PartialEq, Eq, Error)]
pub enum DrawError {
    /// The next number would be the last one that there is.
    #[error("Exhausted")]
    Exhausted,
    #[error("OutOfMemory")]
    OutOfMemory,
}

impl From<OutOfMemory> for DrawError {
    ghost from_gives = { λ _ e. e ≡ errors.OutOfMemory };

    fn from(_refused: OutOfMemory) -> DrawError {
        DrawError::OutOfMemory
    }
}

impl From<AllocError> for DrawError {
    ghost from_gives = { λ _ e. e ≡ errors.OutOfMemory };

    fn from(_refused: AllocError) -> DrawError {
        DrawError::OutOfMemory
    }
}

impl<T: Drop> From<AllocFailed<T>> for DrawError {
    ghost from_gives = { λ _ e. e ≡ errors.OutOfMemory };

    fn from(_refused: AllocFailed<T>) -> DrawError {
        DrawError::OutOfMemory
    }
}
