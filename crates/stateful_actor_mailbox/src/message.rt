//! Messages on their way to the machine, and how they wait.

ghost use Rattle.std.specs.Prelude.{◌≡◌};
ghost use Rattle.stateful_actor_mailbox.specs.Messages.{kind_of, event_of};

use crate::reply::Kind;
use stateful_history::Event;
use stateful_types::{Ancestry, Digested, OutOfMemory, Policy, Predicate};
use std::collections::VecDeque;

/// What a caller asks for, over blocks `B`, contexts `C` and inputs `I`.
#[derive(Drop)]
pub(crate) enum Ask<B, C, I> {
    Prepare {
        context: C,
        ancestry: Ancestry<B>,
        input: I,
    },
    Propose {
        context: C,
        ancestry: Ancestry<B>,
        input: I,
    },
    Verify {
        ancestry: Ancestry<B>,
    },
    Report {
        block: Digested<B>,
    },
    Subscribe,
}

impl<B: Drop, C: Drop, I: Drop> Ask<B, C, I> {
    /// By which call it is asked for.
    pub(crate) fn kind(&self) -> Kind
        ensures { result ≡ kind_of self.now }
    {
        match self {
            Ask::Prepare { .. } => Kind::Prepare,
            Ask::Propose { .. } => Kind::Propose,
            Ask::Verify { .. } => Kind::Verify,
            Ask::Report { .. } => Kind::Report,
            Ask::Subscribe => Kind::Subscribe,
        }
    }
}

/// What is asked for under a ticket.
#[derive(Drop)]
pub(crate) struct Message<B, C, I> {
    pub(crate) ticket: u64,
    pub(crate) ask: Ask<B, C, I>,
}

impl<B: Drop, C: Drop, I: Drop> Message<B, C, I> {
    /// The event that it is to the machine.
    pub(crate) fn into_event(self) -> Event<B, C, I>
        ensures { result ≡ event_of self }
    {
        let Message { ticket, ask } = self;
        match ask {
            Ask::Prepare {
                context,
                ancestry,
                input,
            } => Event::Prepare {
                ticket,
                context,
                ancestry,
                input,
            },
            Ask::Propose {
                context,
                ancestry,
                input,
            } => Event::Propose {
                ticket,
                context,
                ancestry,
                input,
            },
            Ask::Verify { ancestry } => Event::Verify { ticket, ancestry },
            Ask::Report { block } => Event::Finalized { ticket, block },
            Ask::Subscribe => Event::Subscribe { ticket },
        }
    }
}

impl<B: Drop, C: Drop, I: Drop> Policy for Message<B, C, I> {
    ghost use Rattle.stateful_actor_mailbox.specs.Sending.{in_order};

    type Overflow = VecDeque<Message<B, C, I>>;

    ghost kept = { in_order };

    fn handle(
        overflow: &mut VecDeque<Message<B, C, I>>,
        message: Message<B, C, I>,
    ) -> Result<(), OutOfMemory> {
        overflow.push_back(message)?;
        Ok(())
    }
}

/// That a message isn't of this ticket.
#[derive(Drop)]
pub(crate) struct NotOf {
    pub(crate) ticket: u64,
}

impl<B, C, I> Predicate<Message<B, C, I>> for NotOf {
    ghost use Rattle.stateful_actor_mailbox.specs.Messages.{is_not_of};

    ghost holds = { λ not_of message. is_not_of not_of.ticket message };

    fn holds(&self, message: &Message<B, C, I>) -> bool {
        message.ticket != self.ticket
    }
}

/// No message at all.
#[derive(Drop)]
pub(crate) struct NoMessage;

impl<B, C, I> Predicate<Message<B, C, I>> for NoMessage {
    ghost use Rattle.stateful_actor_mailbox.specs.Messages.{is_none_of};

    ghost holds = { λ _ message. is_none_of message };

    fn holds(&self, _message: &Message<B, C, I>) -> bool {
        false
    }
}
