//! What happens to a resolver.

use bytes::Bytes;
use stateful_types::Request;

/// What happened. Deliveries and productions have numbers, each above those of its kind before it.
#[derive(Drop)]
pub enum ActorEvent {
    /// The next message of the mailbox is taken.
    Message,
    /// A peer answered a fetch of this key with these bytes.
    Deliver {
        delivery: u64,
        key: Request,
        value: Bytes,
    },
    /// Who waits under this ticket judged its candidate.
    Judge {
        ticket: u64,
        valid: bool,
    },
    /// Who waits under this ticket no longer does.
    Leave {
        ticket: u64,
    },
    /// A peer asks for what this key names.
    Produce {
        serve: u64,
        key: Request,
    },
}
