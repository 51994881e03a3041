//! Messages on their way to the resolver, and how they wait.

ghost use Rattle.std.specs.Prelude.{◌≡◌, filter};
ghost use Rattle.stateful_p2p.specs.Messages.{attached};

use stateful_types::{OutOfMemory, Overflow, Policy, Predicate, Request};
use std::alloc::Global;
use std::collections::VecDeque;

/// A message to the resolver.
#[derive(Drop)]
pub(crate) enum Message<D> {
    /// Requests of peers are answered from this database, in place of an earlier one.
    AttachDatabase(D),
    /// The answer to a request is to be fetched from peers.
    GetOperations { ticket: u64, request: Request },
}

/// A ticket with its request.
#[derive(Clone, Copy)]
pub(crate) struct Ask {
    ticket: u64,
    request: Request,
}

/// Messages that wait behind a full mailbox: the newest database, and behind it the requests in
/// their order.
#[derive(Drop)]
pub(crate) struct Pending<D> {
    database: Option<D>,
    requests: VecDeque<Ask>,
}

impl<D: Drop> Overflow<Message<D>> for Pending<D> {
    ghost use Rattle.stateful_p2p.specs.Messages.{pending};

    ghost items = { λ p. pending p.database p.requests.items };

    fn empty(alloc: Global) -> Pending<D> {
        Pending {
            database: None,
            requests: VecDeque::new(alloc),
        }
    }

    fn is_empty(&self) -> bool {
        self.database.is_none() && self.requests.len() == 0
    }

    fn pop(&mut self) -> Option<Message<D>> {
        if let Some(database) = self.database.take() {
            return Some(Message::AttachDatabase(database));
        }
        let ask = self.requests.pop_front()?;
        Some(Message::GetOperations {
            ticket: ask.ticket,
            request: ask.request,
        })
    }

    fn retain<P: Predicate<Message<D>>>(&mut self, live: &P) {
        let database = self.database.take();
        self.database = kept(database, live);
        self.requests.retain(|ask| {
            live.holds(&Message::GetOperations {
                ticket: ask.ticket,
                request: ask.request,
            })
        });
    }
}

/// The database, if there is one and the predicate holds of it.
fn kept<D: Drop, P: Predicate<Message<D>>>(database: Option<D>, live: &P) -> Option<D>
    ensures { attached result ≡ filter (P.holds live.now) (attached database) }
{
    let message = Message::AttachDatabase(database?);
    if !live.holds(&message) {
        return None;
    }
    match message {
        Message::AttachDatabase(database) => Some(database),
        Message::GetOperations { .. } => None,
    }
}

impl<D: Drop> Policy for Message<D> {
    ghost use Rattle.stateful_p2p.specs.Messages.{kept};

    type Overflow = Pending<D>;

    ghost kept = { kept };

    fn handle(overflow: &mut Pending<D>, message: Message<D>) -> Result<(), OutOfMemory> {
        match message {
            Message::AttachDatabase(database) => overflow.database = Some(database),
            Message::GetOperations { ticket, request } => {
                overflow.requests.push_back(Ask { ticket, request })?;
            }
        }
        Ok(())
    }
}

/// That a message isn't the request of this ticket.
#[derive(Drop)]
pub(crate) struct NotOf {
    pub(crate) ticket: u64,
}

impl<D> Predicate<Message<D>> for NotOf {
    ghost use Rattle.stateful_p2p.specs.Messages.{is_not_of};

    ghost holds = { λ not_of message. is_not_of not_of.ticket message };

    fn holds(&self, message: &Message<D>) -> bool {
        match message {
            Message::AttachDatabase(_) => true,
            Message::GetOperations { ticket, .. } => *ticket != self.ticket,
        }
    }
}
