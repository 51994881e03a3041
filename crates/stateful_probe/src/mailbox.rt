//! The mailbox of a probe.

ghost use Rattle.std.specs.Prelude.{◌≡◌, ◌+◌, ◌-◌, ◌^◌, ◌≤◌, ◌↔◌, ◌++◌, ◌∷◌, [], IsNone, IfOk};
ghost use Rattle.std.specs.Prelude.{OnOk, OnErr, IsErrOf, option_to_list};
ghost use Rattle.stateful_probe.specs.Mailbox.{waiting};
ghost use Rattle.stateful_probe.specs.declared.event.Event.TheVariants as events;

use crate::event::{Event, ProbeEvent};
use stateful_types::{Bounded, DrawError, OutOfMemory, Policy, Scheme};
use std::alloc::Global;
use std::collections::VecDeque;
use std::marker::Model;

impl<K: Drop> Policy for Event<K> {
    ghost use Rattle.std.specs.Prelude.{◌++◌, ◌∷◌, []};

    type Overflow = VecDeque<Event<K>>;

    ghost kept = { λ waiting event. waiting ++ event ∷ [] };

    fn handle(overflow: &mut VecDeque<Event<K>>, message: Event<K>) -> Result<(), OutOfMemory> {
        overflow.push_back(message)?;
        Ok(())
    }
}

/// Subscriptions and attachments on their way to a probe, in the order in which they were made. It
/// draws the tickets of subscriptions, from 0 on.
#[derive(Drop)]
pub struct Mailbox<S: Scheme> {
    next_ticket: u64,
    events: Bounded<ProbeEvent<S>, VecDeque<ProbeEvent<S>>>,
}

impl<S: Scheme> Model for Mailbox<S> {
    ghost use Rattle.std.specs.Prelude.{◌≡◌, false};
    ghost use Rattle.stateful_probe.specs.Mailbox.{Mail};

    ghost Value = { Mail S.Key };

    ghost view = { λ a. record { next_ticket = a.next_ticket; events = a.events } };

    ghost invariant = { λ a. a.events.closed ≡ false };
}

impl<S: Scheme> Mailbox<S> {
    /// An empty mailbox, in which so many events are ready at most. Further ones wait behind them.
    pub fn new(alloc: Global, capacity: usize) -> Result<Mailbox<S>, OutOfMemory>
        requires { 1 ≤ capacity }
        ensures first { IfOk result (λ mailbox. mailbox.next_ticket ≡ 0) }
        ensures empty { IfOk result (λ mailbox. waiting mailbox ≡ []) }
        ensures capacity { IfOk result (λ mailbox. mailbox.events.capacity ≡ capacity) }
    {
        Ok(Mailbox {
            next_ticket: 0,
            events: Bounded::new(alloc, capacity)?,
        })
    }

    /// Subscribes to the floor, and answers the ticket.
    pub fn subscribe(&mut self) -> Result<u64, DrawError>
        ensures drawn { IfOk result (λ ticket. (ticket ≡ self.old.next_ticket)
            × (self.new.next_ticket ≡ ticket + 1)) }
        ensures sent { IfOk result (λ ticket. waiting self.new
            ≡ waiting self.old ++ events.Subscribe ticket ∷ []) }
        ensures exhausted { IsErrOf result DrawError.Exhausted
            ↔ (self.old.next_ticket ≡ 2 ^ 64 - 1) }
        ensures err { OnErr result (self.new ≡ self.old) }
    {
        let ticket = self.next_ticket;
        if ticket == u64::MAX {
            return Err(DrawError::Exhausted);
        }
        self.events.enqueue(Event::Subscribe { ticket })?;
        self.next_ticket = ticket + 1;
        Ok(ticket)
    }

    /// Tells that the node's own finalizations can be served.
    pub fn attach(&mut self) -> Result<(), OutOfMemory>
        ensures sent { OnOk result (waiting self.new
            ≡ waiting self.old ++ events.Attach ∷ []) }
        ensures number { self.new.next_ticket ≡ self.old.next_ticket }
        ensures err { OnErr result (self.new ≡ self.old) }
    {
        self.events.enqueue(Event::Attach)?;
        Ok(())
    }

    /// Takes out the next event. None exactly where there is none.
    pub fn take(&mut self) -> Option<ProbeEvent<S>>
        ensures front { waiting self.old ≡ option_to_list result ++ waiting self.new }
        ensures none { IsNone result ↔ (waiting self.old ≡ []) }
        ensures number { self.new.next_ticket ≡ self.old.next_ticket }
    {
        self.events.try_recv()
    }
}
