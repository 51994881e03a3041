//! What waits to be taken.

ghost use Rattle.std.specs.Prelude.{◌≡◌};
ghost use Rattle.stateful_loop_model.specs.Message.{asks_of, asks_for, is_verification};

use crate::queue::Asks;
use stateful_base::Digested;
use stateful_exec_walk::Request;

/// What came and waits, over blocks `B`, contexts `C` and inputs `I`.
#[derive(Drop)]
pub enum Message<B, C, I> {
    /// A request to judge a block, or to build one.
    Request(Request<B, C, I>),
    /// A block is final.
    Finalized { ticket: u64, block: Digested<B> },
    /// A request to be told when the databases are there.
    Subscribe { ticket: u64 },
}

/// What is taken before any message of the mailbox.
#[derive(Drop)]
pub enum Action<B, C, I> {
    /// A message that came while a build went on.
    Message(Message<B, C, I>),
    /// The build of the proposal of this ticket, whose parent became known.
    Build { ticket: u64 },
}

impl<B, C: Copy, I> Message<B, C, I> {
    /// Whether it is a request to judge a block.
    pub fn is_verification(&self) -> bool
        ensures { result ≡ is_verification self.now }
    {
        match self {
            Message::Request(Request::Verify { .. }) => true,
            Message::Request(Request::Recover { .. }) => false,
            Message::Finalized { .. } => false,
            Message::Subscribe { .. } => false,
        }
    }
}

impl<B, C: Copy, I> Asks for Message<B, C, I> {
    ghost use Rattle.stateful_loop_model.specs.Message.{asks_of};

    ghost asks = { asks_of };

    fn asks(&self, ticket: u64) -> bool {
        match self {
            Message::Request(request) => request.ticket() == ticket,
            Message::Subscribe { ticket: of } => *of == ticket,
            Message::Finalized { .. } => false,
        }
    }
}

impl<B, C: Copy, I> Asks for Action<B, C, I> {
    ghost use Rattle.stateful_loop_model.specs.Message.{asks_for};

    ghost asks = { asks_for };

    fn asks(&self, ticket: u64) -> bool {
        match self {
            Action::Message(message) => message.asks(ticket),
            Action::Build { ticket: of } => *of == ticket,
        }
    }
}
