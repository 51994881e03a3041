//! The mailbox of a resolver: what is asked of it, and what comes back.
//!
//! `serve` draws a ticket, which is live from then on, and its request waits in `queue` until the
//! resolver takes it. Candidates come back into `candidates`, where a newer one takes the place of
//! one that wasn't polled. `poll` takes the candidate out; whoever polls judges it, and tells the
//! resolver the verdict. A good verdict ends the ticket.
//!
//! `cancel` lets a ticket go at once. Its request is dropped where it waits behind the ready ones.
//! The resolver hears of it by `take_cancelled` at its next event, by ascending tickets. `serve`
//! takes the room for that, so a cancel needs no memory and can't fail.
//!
//! A ticket that was let go before any candidate is kept in mind in `tickets`, so that each later
//! `poll` says so. `specs/Inbox.antt` says what each call does.

ghost use Rattle.std.specs.Prelude.{◌≡◌, ◌≢◌, ◌+◌, ◌-◌, ◌^◌, ◌≤◌, ◌↔◌, ◌∷◌, ◌++◌, [], ℕ, Option};
ghost use Rattle.std.specs.Prelude.{Some, None, true, false, IsNone, IsTrue, IsErr, IfOk, OnOk};
ghost use Rattle.std.specs.Prelude.{OnErr, IsErrOf, length};
ghost use Rattle.std.specs.List.Sorted.{IsPermutation, IsNonDecreasing};
ghost use Rattle.stateful_types.specs.Mailbox.{queues, messages, HandsOut};
ghost use Rattle.stateful_p2p.specs.Tickets.{is_live, is_dropped, ended};
ghost use Rattle.stateful_p2p.specs.Inbox.{empty_inbox, Asks, Attaches, let_go, cancelled, offered};
ghost use Rattle.stateful_p2p.specs.Inbox.{taken_out, waiting_for};

use crate::error::ResponseDropped;
use crate::message::{Message, NotOf, Pending};
use crate::tickets::Tickets;
use stateful_db_source::{AttachableResolver, SyncSource};
use stateful_table::Table;
use stateful_types::{Bounded, DrawError, Feedback, Moved, OutOfMemory, Request, Response};
use std::alloc::Global;
use std::marker::Model;

/// The requests to a resolver and the databases that are attached to it, on their way, and the
/// answers to the requests. It draws a ticket for each request, from 0 on.
#[derive(Drop)]
pub struct Mailbox<D: SyncSource> {
    next_ticket: u64,
    queue: Bounded<Message<D>, Pending<D>>,
    tickets: Tickets,
    candidates: Table<Response<D::Op>>,
    cancelled: Vec<u64>,
}

impl<D: SyncSource> Model for Mailbox<D> {
    ghost use Rattle.std.specs.Prelude.{◌≤◌};
    ghost use Rattle.std.specs.Vec.{vec_capacity};
    ghost use Rattle.stateful_p2p.specs.Inbox.{Inbox, inbox, IsSound};

    ghost Value = { Inbox D D.Op };

    ghost view = { λ a. inbox a.next_ticket a.queue a.tickets a.candidates a.cancelled.items };

    ghost invariant = { λ a. IsSound
        (inbox a.next_ticket a.queue a.tickets a.candidates a.cancelled.items)
        (vec_capacity a.cancelled) };
}

impl<D: SyncSource> Mailbox<D> {
    /// An empty mailbox, in which so many messages are ready at most. Further ones wait behind
    /// them.
    pub(crate) fn new(alloc: Global, capacity: usize) -> Result<Mailbox<D>, OutOfMemory>
        requires { 1 ≤ capacity }
        ensures { IfOk result (λ mailbox. mailbox ≡ empty_inbox capacity) }
    {
        Ok(Mailbox {
            next_ticket: 0,
            queue: Bounded::new(alloc, capacity)?,
            tickets: Tickets::new(alloc),
            candidates: Table::new(alloc),
            cancelled: Vec::new(alloc),
        })
    }

    /// Asks for the answer to a request, and gives the ticket under which it will come.
    pub fn serve(&mut self, request: Request) -> Result<(Feedback, u64), DrawError>
        ensures asks { IfOk result (λ drawn. Asks self.old request drawn.0 drawn.1 self.new) }
        ensures exhausted { IsErrOf result DrawError.Exhausted
            ↔ (self.old.next_ticket ≡ 2 ^ 64 - 1) }
        ensures err { OnErr result (self.new ≡ self.old) }
    {
        let ticket = self.next_ticket;
        if ticket == u64::MAX {
            return Err(DrawError::Exhausted);
        }
        self.cancelled.reserve(self.tickets.len() + 1)?;
        self.tickets.open(ticket)?;
        match self
            .queue
            .enqueue(Message::GetOperations { ticket, request })
        {
            Ok(feedback) => {
                self.next_ticket = ticket + 1;
                Ok((feedback, ticket))
            }
            Err(_refused) => {
                self.tickets.remove(ticket);
                Err(DrawError::OutOfMemory)
            }
        }
    }

    /// Attaches a database, from which requests of peers are answered, in place of an earlier one.
    pub fn attach_database(&mut self, db: D) -> Result<Feedback, OutOfMemory>
        ensures attaches { IfOk result (λ feedback. Attaches self.old db feedback self.new) }
        ensures err { OnErr result (self.new ≡ self.old) }
    {
        self.queue.enqueue(Message::AttachDatabase(db))
    }

    /// Lets a ticket go. A ticket that isn't live stays what it is.
    pub fn cancel(&mut self, ticket: u64)
        ensures { self.new ≡ cancelled self.old ticket }
    {
        if self.tickets.is_live(ticket) {
            self.cancelled.push_reserved(ticket);
            self.tickets.end(ticket);
            self.queue.retain_waiting(&NotOf { ticket });
        }
    }

    /// Takes the candidate that waits for a ticket. It is refused exactly where the ticket was let
    /// go before a candidate, and is pending where none waits.
    pub fn poll(&mut self, ticket: u64) -> Result<Moved<Response<D::Op>>, ResponseDropped>
        ensures dropped { IsErr result ↔ (is_dropped self.old.tickets ticket ≡ true) }
        ensures done { (response : Response D.Op)
            → (result ≡ Ok (Moved.Done response))
            ↔ ((is_dropped self.old.tickets ticket ≡ false)
            × (waiting_for self.old ticket ≡ Some response)) }
        ensures takes { self.new ≡ taken_out self.old ticket }
    {
        if self.tickets.is_dropped(ticket) {
            return Err(ResponseDropped);
        }
        match self.candidates.remove(ticket) {
            Some(response) => Ok(Moved::Done(response)),
            None => Ok(Moved::Pending),
        }
    }

    /// Whether a ticket is live: it was drawn, and neither let go nor ended by a good candidate.
    pub(crate) fn is_live(&self, ticket: u64) -> bool
        ensures { result ≡ is_live self.now.tickets ticket }
    {
        self.tickets.is_live(ticket)
    }

    /// Ends a ticket, if it is live. It is kept in mind only where no candidate came for it.
    pub(crate) fn end(&mut self, ticket: u64)
        ensures { self.new ≡ record self.old { tickets = ended self.old.tickets ticket } }
    {
        self.tickets.end(ticket);
    }

    /// Lets a ticket go, of which the resolver knows.
    pub(crate) fn let_go(&mut self, ticket: u64)
        ensures { self.new ≡ let_go self.old ticket }
    {
        if self.tickets.is_live(ticket) {
            self.tickets.end(ticket);
            self.queue.retain_waiting(&NotOf { ticket });
        }
    }

    /// A candidate waits for a ticket, in place of an earlier one.
    pub(crate) fn offer(
        &mut self,
        ticket: u64,
        response: Response<D::Op>,
    ) -> Result<(), OutOfMemory>
        ensures { OnOk result (self.new ≡ offered self.old ticket response) }
    {
        self.candidates.put(ticket, response)?;
        self.tickets.answer(ticket);
        Ok(())
    }

    /// Takes out the next message.
    pub(crate) fn take(&mut self) -> Option<Message<D>>
        ensures handed { HandsOut self.old.queue self.new.queue result }
        ensures others { self.new ≡ record self.old { queue = self.new.queue } }
        ensures none { IsNone result ↔ (messages self.old.queue ≡ []) }
        ensures nothing { IsNone result → self.new ≡ self.old }
    {
        self.queue.try_recv()
    }

    /// The tickets that were cancelled since the last call, in ascending order.
    pub(crate) fn take_cancelled(&mut self, alloc: Global) -> Result<Vec<u64>, OutOfMemory>
        ensures ascending { IfOk result (λ gone. IsNonDecreasing gone.items) }
        ensures all { IfOk result (λ gone. IsPermutation self.old.cancelled gone.items) }
        ensures taken { OnOk result (self.new ≡ record self.old { cancelled = [] }) }
        ensures err { OnErr result (self.new ≡ self.old) }
    {
        let mut gone = Vec::from_slice(alloc, self.cancelled.as_slice())?;
        gone.sort_unstable();
        self.cancelled.clear();
        Ok(gone)
    }
}

impl<D: SyncSource> AttachableResolver<D> for Mailbox<D> {
    ghost use Rattle.stateful_p2p.specs.Inbox.{Attaches};
    ghost use Rattle.stateful_types.specs.declared.mailbox.Feedback.{Feedback};

    ghost attaches = { λ old db new. (feedback : Feedback) × Attaches old db feedback new };

    fn attach_database(&mut self, db: D) -> Result<(), OutOfMemory> {
        Mailbox::attach_database(self, db)?;
        Ok(())
    }
}
