//! Why an event was refused.

ghost use Rattle.std.specs.Prelude.{◌≡◌};
ghost use Rattle.stateful_probe.specs.declared.error.ProbeError.TheVariants as errors;

use stateful_types::OutOfMemory;
use std::alloc::{AllocError, AllocFailed};
use thiserror::Error;

/// Why a probe refused an event. After `BadEvent` nothing has changed; after `Exhausted` and
/// `OutOfMemory` every event is answered `Failed`.
#[derive(Clone, Copy, Debug, PartialEq, Eq, Error)]
pub enum ProbeError {
    /// The ticket of a subscription isn't above every earlier one, a cancel names one that doesn't
    /// wait, or the probe was stopped.
    #[error("BadEvent")]
    BadEvent,
    /// The probe answered `Exhausted` or `OutOfMemory` before.
    #[error("Failed")]
    Failed,
    /// The ticket of a subscription is the last number that there is, so that none could be above
    /// it.
    #[error("Exhausted")]
    Exhausted,
    #[error("OutOfMemory")]
    OutOfMemory,
}

impl From<OutOfMemory> for ProbeError {
    ghost from_gives = { λ _ e. e ≡ errors.OutOfMemory };

    fn from(_refused: OutOfMemory) -> ProbeError {
        ProbeError::OutOfMemory
    }
}
