//! Copies that may be refused for want of memory, and that refusal.

ghost use Rattle.std.specs.Prelude.{◌≡◌, IfOk};

use std::alloc::{AllocError, AllocFailed};
use thiserror::Error;

/// Memory ran out. It is the only cause of this refusal.
#[derive(Clone, Copy, Debug, PartialEq, Eq, Error)]
#[error("OutOfMemory")]
pub struct OutOfMemory;

impl From<AllocError> for OutOfMemory {
    ghost from_gives = { λ _ _. Unit {0} };

    fn from(_refused: AllocError) -> OutOfMemory {
        OutOfMemory
    }
}

impl<T: Drop> From<AllocFailed<T>> for OutOfMemory {
    ghost from_gives = { λ _ _. Unit {0} };

    fn from(_refused: AllocFailed<T>) -> OutOfMemory {
        OutOfMemory
    }
}

/// What gives an equal value of itself, where memory allows.
pub trait Share: Sized {
    /// An equal value. It is refused for want of memory alone.
    fn share(&self) -> Result<Self, OutOfMemory>
        ensures { IfOk result (λ copy. copy ≡ self.now) };
}
