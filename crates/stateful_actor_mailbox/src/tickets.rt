//! How the tickets of a mailbox stand.
//!
//! A ticket is `Queued` from its draw on, `Handed` once its message was handed out, and `Ended`
//! once a mark has ended it. A cancel makes a queued one `Cancelled`. One that was handed out is
//! `Due` until the machine was told, and `Cancelled` then. A mark can end a cancelled ticket too,
//! and a stop does.
//!
//! A stop walks through no tickets. It sets `stopped` to the next ticket, and those below it count
//! as ended without an answer, unless a mark ended them before.
//!
//! An end is handed out by taking its entry out of `entries`. So the table has only tickets whose
//! end wasn't handed out yet. `specs/Tickets.antt` says what each call makes of it.

ghost use Rattle.std.specs.Prelude.{◌≡◌, IsSome, OnOk, OnErr};
ghost use Rattle.stateful_table.specs.Table.{at, put, without};
ghost use Rattle.stateful_actor_mailbox.specs.Tickets.{empty_book, ticket_of, opened, is_queued};
ghost use Rattle.stateful_actor_mailbox.specs.Tickets.{handed_out, cancelled, may_withdraw, first_due};
ghost use Rattle.stateful_actor_mailbox.specs.Tickets.{told_due, ended, outcome_of, taken_out};

use crate::note::{Answer, Outcome, gone, outcome};
use crate::reply::Kind;
use stateful_table::Table;
use stateful_types::OutOfMemory;
use std::alloc::Global;
use std::marker::Model;

/// How far a ticket has come.
#[derive(Drop)]
pub(crate) enum Standing<B> {
    /// Its message wasn't handed out yet.
    Queued,
    /// Its message was handed out.
    Handed,
    /// It was cancelled behind that, and the machine is to be told.
    Due,
    /// It was cancelled, and there is nothing more to tell.
    Cancelled,
    /// A mark has ended it.
    Ended(Outcome<B>),
}

/// By which call a ticket was drawn, and how far it has come.
#[derive(Drop)]
pub(crate) struct Ticket<B> {
    pub(crate) kind: Kind,
    pub(crate) standing: Standing<B>,
}

/// The tickets whose end wasn't handed out yet. Those below a number were ended by a stop, unless
/// they had ended before.
#[derive(Drop)]
pub(crate) struct Tickets<B> {
    entries: Table<Ticket<B>>,
    stopped: u64,
}

impl<B> Model for Tickets<B> {
    ghost use Rattle.stateful_actor_mailbox.specs.Tickets.{Book, book};

    ghost Value = { Book B };

    ghost view = { λ a. book a.entries a.stopped };
}

impl<B: Drop> Tickets<B> {
    pub(crate) fn new(alloc: Global) -> Tickets<B>
        ensures { result ≡ empty_book }
    {
        Tickets {
            entries: Table::new(alloc),
            stopped: 0,
        }
    }

    /// A ticket is drawn by a call.
    pub(crate) fn open(&mut self, ticket: u64, kind: Kind) -> Result<(), OutOfMemory>
        ensures ok { OnOk result (self.new ≡ opened self.old ticket kind) }
        ensures err { OnErr result (self.new ≡ self.old) }
    {
        self.entries.put(
            ticket,
            Ticket {
                kind,
                standing: Standing::Queued,
            },
        )
    }

    /// A ticket that was drawn is given back.
    pub(crate) fn remove(&mut self, ticket: u64)
        ensures { self.new ≡ record self.old { entries = without self.old.entries ticket } }
    {
        self.entries.remove(ticket);
    }

    /// Whether the message of a ticket is still to be handed out: it was neither cancelled nor
    /// ended.
    pub(crate) fn is_queued(&self, ticket: u64) -> bool
        ensures { result ≡ is_queued self.now ticket }
    {
        if ticket < self.stopped {
            return false;
        }
        match self.entries.get(ticket) {
            Some(ticket) => matches!(ticket.standing, Standing::Queued),
            None => false,
        }
    }

    /// The message of a ticket is handed out.
    pub(crate) fn hand_out(&mut self, ticket: u64)
        ensures { self.new ≡ handed_out self.old ticket }
    {
        if let Some(Ticket { kind, .. }) = self.entries.get(ticket) {
            let kind = *kind;
            self.set(ticket, kind, Standing::Handed);
        }
    }

    /// Cancels a ticket. A receipt, a ticket that has ended and one that isn't there stay what they
    /// are. Tells whether its message was still to be handed out, and isn't now.
    pub(crate) fn cancel(&mut self, ticket: u64) -> bool
        ensures tickets { self.new ≡ cancelled self.old ticket }
        ensures withdrawn { result ≡ may_withdraw self.old ticket }
    {
        if ticket < self.stopped {
            return false;
        }
        let Some(Ticket { kind, standing }) = self.entries.get(ticket) else {
            return false;
        };
        let kind = *kind;
        if !kind.is_request() {
            return false;
        }
        match standing {
            Standing::Queued => {
                self.set(ticket, kind, Standing::Cancelled);
                true
            }
            Standing::Handed => {
                self.set(ticket, kind, Standing::Due);
                false
            }
            Standing::Due | Standing::Cancelled | Standing::Ended(_) => false,
        }
    }

    /// Takes the least ticket of whose cancelling the machine is to be told.
    pub(crate) fn take_due(&mut self) -> Option<u64>
        ensures least { result ≡ first_due self.old }
        ensures told { self.new ≡ told_due self.old }
    {
        let ticket = self.first_due()?;
        if let Some(Ticket { kind, .. }) = self.entries.get(ticket) {
            let kind = *kind;
            self.set(ticket, kind, Standing::Cancelled);
        }
        Some(ticket)
    }

    /// The least ticket of whose cancelling the machine is to be told.
    fn first_due(&self) -> Option<u64>
        ensures { result ≡ first_due self.now }
    {
        for (number, ticket) in self.entries.entries().iter() {
            if self.stopped <= *number && matches!(ticket.standing, Standing::Due) {
                return Some(*number);
            }
        }
        None
    }

    /// A ticket is answered. That ends it, unless it has ended, or isn't there, or this is no
    /// answer to it.
    pub(crate) fn end(&mut self, ticket: u64, answer: Answer<B>)
        ensures { self.new ≡ ended self.old ticket answer }
    {
        if ticket < self.stopped {
            return;
        }
        let Some(Ticket { kind, standing }) = self.entries.get(ticket) else {
            return;
        };
        if matches!(standing, Standing::Ended(_)) {
            return;
        }
        let kind = *kind;
        if let Some(outcome) = outcome(kind, answer) {
            self.set(ticket, kind, Standing::Ended(outcome));
        }
    }

    /// All tickets below a number are ended, but for those that have ended.
    pub(crate) fn stop(&mut self, below: u64)
        ensures { self.new ≡ record self.old { stopped = below } }
    {
        self.stopped = below;
    }

    /// Takes out how a ticket has ended. None where it hasn't.
    pub(crate) fn take_outcome(&mut self, ticket: u64) -> Option<Outcome<B>>
        ensures outcome { result ≡ outcome_of self.old ticket }
        ensures taken { self.new ≡ taken_out self.old ticket }
    {
        let Some(Ticket { standing, .. }) = self.entries.get(ticket) else {
            return None;
        };
        if !matches!(standing, Standing::Ended(_)) && self.stopped <= ticket {
            return None;
        }
        let Ticket { kind, standing } = self.entries.remove(ticket)?;
        match standing {
            Standing::Ended(outcome) => Some(outcome),
            _ => Some(gone(kind)),
        }
    }

    /// A ticket has come so far.
    fn set(&mut self, ticket: u64, kind: Kind, standing: Standing<B>)
        requires { IsSome (at self.old.entries ticket) }
        ensures { self.new ≡ record self.old {
          entries = put self.old.entries ticket (ticket_of kind standing);
        } }
    {
        self.entries.replace(ticket, Ticket { kind, standing });
    }
}
