//! The mailbox of a sync.
//!
//! An update goes this way. `retarget` notes it in `updates`, and it is the one that is `waiting`,
//! in place of any other. The sync takes it by `next`, and says two things of it in either order:
//! `respond` gives an answer, and `observed` whether it was recorded. One that was dropped unread
//! waits again, unless a newer one does.
//!
//! A ticket is polled until it is done. It gives None once its update was answered with nothing and
//! recorded. Else it gives `artifact`, once there is one: the anchor to which the databases have
//! converged. An update that was replaced before it was taken waits for that.
//!
//! `specs/Mailbox.antt` says what each call does, and `specs/MailboxLaws.antt` what holds over all
//! of them.

ghost use Rattle.std.specs.Prelude.{◌≡◌, ◌-◌, ◌^◌, ◌<◌, ◌↔◌, ◌&&◌, [], None, length, IfOk, OnErr};
ghost use Rattle.std.specs.Prelude.{IsErrOf};
ghost use Rattle.stateful_sync.specs.Mailbox.{Draws, HandsOut, Responds, Observes, Polls};
ghost use Rattle.stateful_sync.specs.Mailbox.{once_answered, once_recorded};
ghost use Rattle.stateful_sync.specs.MailboxLaws.{KeepsLaws};

use crate::tip::{Tip, TipUpdate};
use stateful_types::{Anchor, DrawError, Moved};
use std::alloc::Global;
use std::marker::Model;

/// An update, whether the sync has answered it with nothing, and whether it was recorded.
#[derive(Clone, Copy)]
pub(crate) struct Update<T> {
    pub(crate) tip: Tip<T>,
    pub(crate) answered: bool,
    pub(crate) recorded: bool,
}

impl<T: Copy> Update<T> {
    /// It was answered with nothing.
    fn once_answered(self) -> Update<T>
        ensures { result ≡ once_answered self }
    {
        Update {
            answered: true,
            ..self
        }
    }

    /// It was recorded.
    fn once_recorded(self) -> Update<T>
        ensures { result ≡ once_recorded self }
    {
        Update {
            recorded: true,
            ..self
        }
    }

    /// Whether it was answered with nothing, and recorded.
    fn is_settled(self) -> bool
        ensures { result ≡ (self.answered && self.recorded) }
    {
        self.answered && self.recorded
    }
}

/// Carries the newest finalized block to a sync, and tells each caller what became of its own.
///
/// A caller draws a ticket for its block by `retarget`, and asks with it by `poll`. The sync takes
/// the newest block by `next`. It answers with nothing, or with the anchor to which its databases
/// have converged, by `respond`, and says by `observed` whether the block was recorded or dropped
/// unread. A ticket gives None once its block was answered with nothing and recorded; until then it
/// gives the anchor, once there is one.
///
/// Only the newest block waits. Where one is replaced by a newer one, its ticket is pending until
/// there is an anchor. One that was dropped unread waits again, unless a newer one does. Tickets
/// are numbers of updates, from 0 on. An update is kept as long as the mailbox is.
#[derive(Drop)]
pub struct Mailbox<T> {
    updates: Vec<Update<T>>,
    waiting: Option<u64>,
    artifact: Option<Anchor>,
}

impl<T> Model for Mailbox<T> {
    ghost use Rattle.stateful_sync.specs.Mailbox.{Mail, WaitsWithin};

    ghost Value = { Mail T };

    ghost view = { λ a. record {
      updates = a.updates.items;
      waiting = a.waiting;
      artifact = a.artifact;
    } };

    ghost invariant = { λ a. WaitsWithin (record {
      updates = a.updates.items;
      waiting = a.waiting;
      artifact = a.artifact;
    }) };
}

impl<T: Copy> Mailbox<T> {
    /// An empty mailbox.
    pub fn new(alloc: Global) -> Mailbox<T>
        ensures empty { result ≡ record { updates = []; waiting = None; artifact = None } }

        // Whatever calls follow.
        ensures laws { KeepsLaws result }
    {
        Mailbox {
            updates: Vec::new(alloc),
            waiting: None,
            artifact: None,
        }
    }

    /// A block was finalized that commits to these targets. Answers the ticket, which is also the
    /// update's number.
    pub fn retarget(&mut self, anchor: Anchor, targets: T) -> Result<u64, DrawError>
        ensures drawn { IfOk result (λ ticket. Draws self.old anchor targets ticket self.new) }
        ensures within { IfOk result (λ ticket. ticket < length self.new.updates) }
        ensures exhausted { IsErrOf result DrawError.Exhausted
            ↔ (length self.old.updates ≡ 2 ^ 64 - 1) }
        ensures err { OnErr result (self.new ≡ self.old) }
    {
        let number = self.updates.len() as u64;
        if number == u64::MAX {
            return Err(DrawError::Exhausted);
        }
        self.updates.push(Update {
            tip: Tip { anchor, targets },
            answered: false,
            recorded: false,
        })?;
        self.waiting = Some(number);
        Ok(number)
    }

    /// Takes out the update that waits, with its number. None exactly where none waits.
    pub fn next(&mut self) -> Option<(u64, TipUpdate<T>)>
        ensures handed { HandsOut self.old result self.new }
        ensures drawn { length self.new.updates ≡ length self.old.updates }
    {
        let number = self.waiting.take()?;
        let Tip { anchor, targets } = self.updates[number as usize].tip;
        Some((
            number,
            TipUpdate {
                anchor,
                targets,
                observed: Some(number),
            },
        ))
    }

    /// The sync answers an update with nothing, or with the anchor to which its databases have
    /// converged. The first anchor counts.
    pub fn respond(&mut self, number: u64, answer: Option<Anchor>)
        requires { number < length self.old.updates }
        ensures responds { Responds self.old number answer self.new }
        ensures drawn { length self.new.updates ≡ length self.old.updates }
    {
        match answer {
            Some(anchor) => self.artifact = Some(self.artifact.unwrap_or(anchor)),
            None => {
                let index = number as usize;
                self.updates[index] = self.updates[index].once_answered();
            }
        }
    }

    /// An update was recorded, or it was dropped unread.
    pub fn observed(&mut self, number: u64, recorded: bool)
        requires { number < length self.old.updates }
        ensures observes { Observes self.old number recorded self.new }
        ensures drawn { length self.new.updates ≡ length self.old.updates }
    {
        if recorded {
            let index = number as usize;
            self.updates[index] = self.updates[index].once_recorded();
        } else {
            let newest = self.waiting.unwrap_or(number).max(number);
            self.waiting = Some(newest);
        }
    }

    /// What became of the update of a ticket: None once it was answered with nothing and recorded,
    /// else the anchor, once there is one.
    pub fn poll(&mut self, ticket: u64) -> Moved<Option<Anchor>>
        requires { ticket < length self.old.updates }
        ensures polls { Polls self.old ticket result }
        ensures unchanged { self.new ≡ self.old }
    {
        if self.updates[ticket as usize].is_settled() {
            return Moved::Done(None);
        }
        match self.artifact {
            Some(anchor) => Moved::Done(Some(anchor)),
            None => Moved::Pending,
        }
    }
}
