//! Why the resolver and its mailbox refuse.

ghost use Rattle.std.specs.Prelude.{◌≡◌};
ghost use Rattle.stateful_p2p.specs.declared.error.ActorError.TheVariants as errors;

use stateful_types::OutOfMemory;
use thiserror::Error;

/// Why an actor refused an event. After `BadEvent` nothing has changed; after `Exhausted` and
/// `OutOfMemory` every event is answered `Failed`.
#[derive(Clone, Copy, Debug, PartialEq, Eq, Error)]
pub enum ActorError {
    /// A verdict or a departure names a ticket that isn't live, a verdict names one without a
    /// candidate to judge, the number of a delivery or of a production isn't above every earlier
    /// one, or no message waits.
    #[error("BadEvent")]
    BadEvent,
    /// The actor answered `Exhausted` or `OutOfMemory` before.
    #[error("Failed")]
    Failed,
    /// The number of a delivery or of a production is the last one that there is, so that none
    /// could be above it.
    #[error("Exhausted")]
    Exhausted,
    #[error("OutOfMemory")]
    OutOfMemory,
}

impl From<OutOfMemory> for ActorError {
    ghost from_gives = { λ _ e. e ≡ errors.OutOfMemory };

    fn from(_refused: OutOfMemory) -> ActorError {
        ActorError::OutOfMemory
    }
}

/// The ticket was let go before a candidate came for it.
#[derive(Clone, Copy, Debug, PartialEq, Eq, Error)]
#[error("response dropped before completion")]
pub struct ResponseDropped;
