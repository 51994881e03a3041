//! The mailbox.
//!
//! A call that asks draws `next_ticket`, notes it in `tickets`, and puts its message into `queue`.
//! Whoever drives the machine takes the next event by `take`, does it, and tells the marks of each
//! entry by `answer`. A mark that answers what the ticket's call asked for, or drops it, ends the
//! ticket. `poll` is pending until then, hands the end out once, and is pending again.
//!
//! A request that is cancelled before its message was handed out is never handed out. One that is
//! cancelled later is told to the machine by the next `take`, before any message.
//!
//! The mark that the machine has stopped ends each ticket drawn so far that hasn't ended. Messages
//! of such tickets aren't handed out any more.
//!
//! `specs/Mail.antt` says what each call does, and `specs/Laws.antt` what holds whatever calls
//! come; docs/RULES.md has the rules, "The mailbox of the machine".

ghost use Rattle.std.specs.Prelude.{◌≡◌, ◌-◌, ◌^◌, ◌≤◌, ◌↔◌, [], false, IfOk, OnOk, OnErr, IsErrOf};
ghost use Rattle.stateful_actor_mailbox.specs.declared.message.Ask.TheVariants as asks;
ghost use Rattle.stateful_actor_mailbox.specs.Laws.{KeepsLaws};
ghost use Rattle.stateful_actor_mailbox.specs.Mail.{empty_mail, Asks, cancelled_mail, Takes, HandsOut};
ghost use Rattle.stateful_actor_mailbox.specs.Mail.{noted, answered, polled, taken_mail};

use crate::message::{Ask, Message, NoMessage, NotOf};
use crate::note::{Note, notes};
use crate::reply::{Reply, Stopped};
use crate::tickets::Tickets;
use stateful_history::{Event, Mark};
use stateful_types::{Ancestry, Bounded, Digested, DrawError, Feedback, Moved, OutOfMemory};
use std::alloc::Global;
use std::collections::VecDeque;
use std::marker::Model;

/// What is asked of a machine, on its way there, and what became of it, over blocks `B`, contexts
/// `C` and inputs `I`.
///
/// It draws a ticket for each request and each receipt, from 0 on. A request that is cancelled
/// before its event was taken out is never handed out; behind that the machine is told of it. A
/// mark ends a ticket that no earlier mark has ended, and a stop ends them all.
#[derive(Drop)]
pub struct Mailbox<B: Drop, C: Drop, I: Drop> {
    alloc: Global,
    next_ticket: u64,
    queue: Bounded<Message<B, C, I>, VecDeque<Message<B, C, I>>>,
    tickets: Tickets<B>,
}

impl<B: Drop, C: Drop, I: Drop> Model for Mailbox<B, C, I> {
    ghost use Rattle.stateful_actor_mailbox.specs.Mail.{Mail, mail, IsSound};

    ghost Value = { Mail B C I };

    ghost view = { λ a. mail a.next_ticket a.queue a.tickets };

    ghost invariant = { λ a. IsSound (mail a.next_ticket a.queue a.tickets) };
}

impl<B: Drop, C: Drop, I: Drop> Mailbox<B, C, I> {
    /// An empty mailbox, in which so many messages are ready at most. Further ones wait behind
    /// them.
    pub fn new(alloc: Global, capacity: usize) -> Result<Mailbox<B, C, I>, OutOfMemory>
        requires { 1 ≤ capacity }
        ensures empty { IfOk result (λ mailbox. mailbox ≡ empty_mail capacity) }

        // Whatever calls follow.
        ensures laws { IfOk result KeepsLaws }
    {
        Ok(Mailbox {
            alloc,
            next_ticket: 0,
            queue: Bounded::new(alloc, capacity)?,
            tickets: Tickets::new(alloc),
        })
    }

    /// Asks for a block to be built ahead of its proposal, on the first block of an ancestry.
    pub fn prepare(
        &mut self,
        context: C,
        ancestry: Ancestry<B>,
        input: I,
    ) -> Result<(Feedback, u64), DrawError>
        ensures asks { IfOk result (λ drawn. Asks self.old
            (asks.Prepare context ancestry input) drawn.0 drawn.1 self.new) }
        ensures exhausted { IsErrOf result DrawError.Exhausted
            ↔ (self.old.next_ticket ≡ 2 ^ 64 - 1) }
        ensures err { OnErr result (self.new ≡ self.old) }
    {
        self.ask(Ask::Prepare {
            context,
            ancestry,
            input,
        })
    }

    /// Asks for a block to be built, on the first block of an ancestry.
    pub fn propose(
        &mut self,
        context: C,
        ancestry: Ancestry<B>,
        input: I,
    ) -> Result<(Feedback, u64), DrawError>
        ensures asks { IfOk result (λ drawn. Asks self.old
            (asks.Propose context ancestry input) drawn.0 drawn.1 self.new) }
        ensures exhausted { IsErrOf result DrawError.Exhausted
            ↔ (self.old.next_ticket ≡ 2 ^ 64 - 1) }
        ensures err { OnErr result (self.new ≡ self.old) }
    {
        self.ask(Ask::Propose {
            context,
            ancestry,
            input,
        })
    }

    /// Asks whether the first block of an ancestry is valid.
    pub fn verify(&mut self, ancestry: Ancestry<B>) -> Result<(Feedback, u64), DrawError>
        ensures asks { IfOk result (λ drawn. Asks self.old
            (asks.Verify ancestry) drawn.0 drawn.1 self.new) }
        ensures exhausted { IsErrOf result DrawError.Exhausted
            ↔ (self.old.next_ticket ≡ 2 ^ 64 - 1) }
        ensures err { OnErr result (self.new ≡ self.old) }
    {
        self.ask(Ask::Verify { ancestry })
    }

    /// Reports a block that is final. Its receipt can't be cancelled.
    pub fn report(&mut self, block: Digested<B>) -> Result<(Feedback, u64), DrawError>
        ensures asks { IfOk result (λ drawn. Asks self.old
            (asks.Report block) drawn.0 drawn.1 self.new) }
        ensures exhausted { IsErrOf result DrawError.Exhausted
            ↔ (self.old.next_ticket ≡ 2 ^ 64 - 1) }
        ensures err { OnErr result (self.new ≡ self.old) }
    {
        self.ask(Ask::Report { block })
    }

    /// Asks to be told when the databases are there.
    pub fn subscribe_databases(&mut self) -> Result<(Feedback, u64), DrawError>
        ensures asks { IfOk result (λ drawn. Asks self.old
            asks.Subscribe drawn.0 drawn.1 self.new) }
        ensures exhausted { IsErrOf result DrawError.Exhausted
            ↔ (self.old.next_ticket ≡ 2 ^ 64 - 1) }
        ensures err { OnErr result (self.new ≡ self.old) }
    {
        self.ask(Ask::Subscribe)
    }

    /// Draws a ticket, and sends what is asked for under it on its way.
    fn ask(&mut self, ask: Ask<B, C, I>) -> Result<(Feedback, u64), DrawError>
        ensures asks { IfOk result (λ drawn. Asks self.old ask drawn.0 drawn.1 self.new) }
        ensures exhausted { IsErrOf result DrawError.Exhausted
            ↔ (self.old.next_ticket ≡ 2 ^ 64 - 1) }
        ensures err { OnErr result (self.new ≡ self.old) }
    {
        let ticket = self.next_ticket;
        if ticket == u64::MAX {
            return Err(DrawError::Exhausted);
        }
        self.tickets.open(ticket, ask.kind())?;
        match self.queue.enqueue(Message { ticket, ask }) {
            Ok(feedback) => {
                self.next_ticket = ticket + 1;
                Ok((feedback, ticket))
            }
            Err(_refused) => {
                self.tickets.remove(ticket);
                Err(DrawError::OutOfMemory)
            }
        }
    }

    /// Cancels a request. A receipt, a ticket that has ended and one that wasn't drawn here stay
    /// what they are.
    pub fn cancel(&mut self, ticket: u64)
        ensures { self.new ≡ cancelled_mail self.old ticket }
    {
        if self.tickets.cancel(ticket) {
            self.queue.retain_waiting(&NotOf { ticket });
        }
    }

    /// Takes out the next event: first those that tell of cancels, by ascending tickets, and then
    /// what was asked for, in that order. None exactly where nothing waits.
    pub fn take(&mut self) -> Option<Event<B, C, I>>
        ensures { Takes self.old result self.new }
    {
        if let Some(ticket) = self.tickets.take_due() {
            return Some(Event::Cancel { ticket });
        }
        let message = self.next_queued()?;
        self.tickets.hand_out(message.ticket);
        Some(message.into_event())
    }

    /// Takes out the first message that is still to be handed out. Those before it are dropped.
    fn next_queued(&mut self) -> Option<Message<B, C, I>>
        ensures { HandsOut self.old result self.new }
    {
        'passing: while let Some(message) = self.queue.try_recv() {
            if self.tickets.is_queued(message.ticket) {
                return Some(message);
            }
            drop(message);
        }
        None
    }

    /// Is told what the machine did: the marks of an entry, in their order.
    pub fn answer(&mut self, marks: &[Mark<B>]) -> Result<(), OutOfMemory>
        ensures ok { OnOk result (self.new ≡ answered self.old marks.now) }
        ensures err { OnErr result (self.new ≡ self.old) }
    {
        let notes = notes(self.alloc, marks)?;
        for note in notes {
            self.note(note);
        }
        Ok(())
    }

    /// Is told what a mark tells of tickets.
    fn note(&mut self, note: Note<B>)
        ensures { self.new ≡ noted self.old note }
    {
        match note {
            Note::Ends { ticket, answer } => self.tickets.end(ticket, answer),
            Note::Stops => {
                self.tickets.stop(self.next_ticket);
                self.queue.retain_waiting(&NoMessage);
            }
        }
    }

    /// Hands out what became of a ticket, once. It is pending where no mark has ended it. It is
    /// refused where one did so without an answer, and a verification or a subscription was asked
    /// for.
    pub fn poll(&mut self, ticket: u64) -> Result<Moved<Reply<B>>, Stopped>
        ensures answer { result ≡ polled self.old ticket }
        ensures once { self.new ≡ taken_mail self.old ticket }
    {
        match self.tickets.take_outcome(ticket) {
            Some(Ok(reply)) => Ok(Moved::Done(reply)),
            Some(Err(stopped)) => Err(stopped),
            None => Ok(Moved::Pending),
        }
    }
}
