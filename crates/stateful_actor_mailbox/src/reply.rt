//! How tickets end.

ghost use Rattle.std.specs.Prelude.{◌≡◌};
ghost use Rattle.stateful_actor_mailbox.specs.Replies.{is_request};

use stateful_types::{Digested, Handoff};
use thiserror::Error;

/// What became of a ticket, over blocks `B`.
#[derive(Drop)]
pub enum Reply<B> {
    /// Whether the block that was to be judged is valid.
    Verdict(bool),
    /// What was built ahead of a proposal.
    Prepared(Handoff<Digested<B>>),
    /// The block that is to be proposed, if one was built.
    Proposed(Option<Digested<B>>),
    /// The block that was reported is durable.
    Acknowledged,
    /// The block that was reported was given up before it was durable.
    Cancelled,
    /// The databases are there.
    Databases,
}

/// The machine has stopped, or was started again, before the ticket was answered.
#[derive(Clone, Copy, Debug, PartialEq, Eq, Error)]
#[error("Stopped")]
pub struct Stopped;

/// By which call a ticket was drawn.
#[derive(Clone, Copy, Debug, PartialEq, Eq)]
pub(crate) enum Kind {
    Prepare,
    Propose,
    Verify,
    Report,
    Subscribe,
}

impl Kind {
    /// Whether it may be cancelled: a receipt may not.
    pub(crate) fn is_request(self) -> bool
        ensures { result ≡ is_request self }
    {
        match self {
            Kind::Prepare | Kind::Propose | Kind::Verify | Kind::Subscribe => true,
            Kind::Report => false,
        }
    }
}
