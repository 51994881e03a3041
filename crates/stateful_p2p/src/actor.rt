//! The resolver, one event at a time.
//!
//! A request goes this way. Whoever syncs draws a ticket in the mailbox, and `Message` takes its
//! request in: `Fetch` is put out. What a peer answers comes as `Deliver`, and each free subscriber
//! of the key gets a candidate of it: `Candidate`. It polls the candidate, judges it, and the
//! verdict comes as `Judge`. A good one ends the ticket: `Forget`. After a bad one the ticket waits
//! for the next delivery. Once no verdict on a delivery is awaited, `Feedback` or `Unjudged` tells
//! what became of it.
//!
//! Each event first forgets the tickets that were cancelled since the last one (`retire`), and then
//! does its own task. What peers ask is apart from all that: `Produce` is answered at once.
//!
//! A refusal other than `BadEvent` sets `failed`, and from then on every event is refused. `Steps`
//! of `specs/Resolving.antt` puts the rules together, and `specs/Laws.antt` has what holds whatever
//! events come. The rules stand in docs/RULES.md, "The resolver".

ghost use Rattle.std.specs.Prelude.{◌≡◌, ◌≢◌, ◌≤◌, ◌^◌, ◌-◌, ◌++◌, ◌↔◌, ℕ, List, true, false};
ghost use Rattle.std.specs.Prelude.{IsTrue, IsNone, IfOk, OnOk, IfErr, IfSome, IsErrOf};
ghost use Rattle.std.specs.Int.NonZero.{non_zero_u64_get};
ghost use Rattle.stateful_types.specs.Mailbox.{HandsOut};
ghost use Rattle.stateful_p2p_tables.specs.New.{IsNew};
ghost use Rattle.stateful_p2p_tables.specs.Deliveries.{IsSound};
ghost use Rattle.stateful_p2p_tables.specs.declared.out.ActorOut.{ActorOut};
ghost use Rattle.stateful_p2p.specs.Inbox.{Inbox, empty_inbox};
ghost use Rattle.stateful_p2p.specs.Laws.{KeepsLaws};
ghost use Rattle.stateful_p2p.specs.Resolving.{setup, may_come, IsExhausting, Hears, Does};
ghost use Rattle.stateful_p2p.specs.Resolving.{Steps};
ghost use Rattle.stateful_p2p.specs.Tasks.{Admits, IsTimely, is_new_number, has_last_number};
ghost use Rattle.stateful_p2p.specs.declared.event.ActorEvent.{ActorEvent};

use crate::error::ActorError;
use crate::event::ActorEvent;
use crate::fanout::{deliver, judge, leave};
use crate::mailbox::Mailbox;
use crate::message::Message;
use crate::serving::produce;
use bytes::Bytes;
use stateful_db_source::SyncSource;
use stateful_p2p_tables::{ActorOut, State};
use stateful_types::{OutOfMemory, Request};
use std::alloc::Global;
use std::num::NonZeroU64;

/// How many operations a peer's request may ask for, and how many messages are ready in the mailbox
/// at most, which is at least one.
#[derive(Drop)]
pub struct Config {
    /// Larger requests go unanswered. Peers that fetch from this node ask for no more operations at
    /// a time, or their requests are never answered.
    pub max_serve_ops: NonZeroU64,
    pub mailbox_size: usize,
}

/// A resolver: one event is one call of `step`.
#[derive(Drop)]
pub struct Actor<D: SyncSource> {
    pub(crate) alloc: Global,
    pub(crate) max_serve_ops: NonZeroU64,
    pub(crate) state: State<D>,
    pub(crate) failed: bool,
    ghost sound: { failed ≡ false → IsSound state },
}

/// An event that may come, with the message that it takes.
#[derive(Drop)]
pub(crate) enum Task<D> {
    Hear(Message<D>),
    Deliver {
        delivery: u64,
        key: Request,
        value: Bytes,
    },
    Judge {
        ticket: u64,
        valid: bool,
    },
    Leave {
        ticket: u64,
    },
    Produce {
        serve: u64,
        key: Request,
    },
}

impl<D: SyncSource> Actor<D> {
    /// A resolver that nobody has asked for anything, and its mailbox.
    pub fn new(alloc: Global, config: Config) -> Result<(Actor<D>, Mailbox<D>), OutOfMemory>
        requires { 1 ≤ config.mailbox_size }
        ensures state { IfOk result (λ made. IsNew made.0.state) }
        ensures mailbox { IfOk result (λ made. made.1 ≡ empty_inbox config.mailbox_size) }
        ensures limit { IfOk result (λ made. made.0.max_serve_ops ≡ config.max_serve_ops) }
        ensures works { IfOk result (λ made. made.0.failed ≡ false) }

        // Whatever calls of `step` and of the mailbox follow.
        ensures laws { IfOk result (λ made. KeepsLaws
            (setup D.Op.operations D.serves (non_zero_u64_get config.max_serve_ops))
            made.0.state made.1) }
    {
        let mailbox = Mailbox::new(alloc, config.mailbox_size)?;
        let actor = Actor {
            alloc,
            max_serve_ops: config.max_serve_ops,
            state: State::new(alloc),
            failed: false,
        };
        Ok((actor, mailbox))
    }

    /// Takes one event in, and answers what is to be done. The order of refusals is `Failed`,
    /// `BadEvent`, `Exhausted`.
    pub fn step(
        &mut self,
        mailbox: &mut Mailbox<D>,
        event: ActorEvent,
    ) -> Result<Vec<ActorOut>, ActorError>
        // What is put out, the state and the mailbox behind the event are those of the rules.
        ensures steps { IfOk result (λ outs. Steps
            (setup D.Op.operations D.serves (non_zero_u64_get self.old.max_serve_ops))
            self.old.state mailbox.old event outs.items self.new.state mailbox.new) }
        ensures came { OnOk result ((may_come self.old.state mailbox.old event ≡ true)
            × (self.old.failed ≡ false)
            × (self.new.failed ≡ false)) }
        ensures limit { self.new.max_serve_ops ≡ self.old.max_serve_ops }

        // Each refusal has its cause; want of memory has none.
        ensures failed { IsErrOf result ActorError.Failed ↔ (self.old.failed ≡ true) }
        ensures bad { IsErrOf result ActorError.BadEvent
            ↔ ((self.old.failed ≡ false)
            × (may_come self.old.state mailbox.old event ≡ false)) }
        ensures exhausted { IsErrOf result ActorError.Exhausted
            ↔ ((self.old.failed ≡ false)
            × (may_come self.old.state mailbox.old event ≡ true)
            × IsExhausting event) }

        // What a refusal leaves.
        ensures idle { IsErrOf result ActorError.Failed
            → (self.new ≡ self.old) × (mailbox.new ≡ mailbox.old) }
        ensures unchanged { IsErrOf result ActorError.BadEvent
            → (self.new ≡ self.old) × (mailbox.new ≡ mailbox.old) }
        ensures used_up { IsErrOf result ActorError.Exhausted → mailbox.new ≡ mailbox.old }
        ensures fails { IfErr result (λ e. e ≢ ActorError.BadEvent → self.new.failed ≡ true) }
    {
        if self.failed {
            return Err(ActorError::Failed);
        }
        let Some(task) = admit(&self.state, mailbox, event) else {
            return Err(ActorError::BadEvent);
        };
        if task.has_last_number() {
            self.failed = true;
            return Err(ActorError::Exhausted);
        }
        match perform(
            self.alloc,
            self.max_serve_ops.get(),
            &mut self.state,
            mailbox,
            task,
        ) {
            Ok(outs) => Ok(outs),
            Err(OutOfMemory) => {
                self.failed = true;
                Err(ActorError::OutOfMemory)
            }
        }
    }
}

impl<D> Task<D> {
    /// Whether its number is the last one that there is.
    fn has_last_number(&self) -> bool
        ensures { result ≡ has_last_number self.now }
    {
        match self {
            Task::Deliver { delivery, .. } => *delivery == u64::MAX,
            Task::Produce { serve, .. } => *serve == u64::MAX,
            _ => false,
        }
    }
}

/// What an event is, with the message that it takes. None exactly where it may not come, and
/// then nothing has changed.
fn admit<D: SyncSource>(
    state: &State<D>,
    mailbox: &mut Mailbox<D>,
    event: ActorEvent,
) -> Option<Task<D>>
    ensures admits { IfSome result (λ task.
        Admits mailbox.old event task mailbox.new) }
    ensures new { IfSome result (λ task. is_new_number state.now task ≡ true) }
    ensures none { IsNone result ↔ (may_come state.now mailbox.old event ≡ false) }
    ensures unchanged { IsNone result → mailbox.new ≡ mailbox.old }
{
    match event {
        ActorEvent::Message => Some(Task::Hear(mailbox.take()?)),
        ActorEvent::Deliver {
            delivery,
            key,
            value,
        } if state.next_delivery <= delivery => Some(Task::Deliver {
            delivery,
            key,
            value,
        }),
        ActorEvent::Judge { ticket, valid }
            if mailbox.is_live(ticket) && state.unjudged.contains(ticket) => {
            Some(Task::Judge { ticket, valid })
        }
        ActorEvent::Leave { ticket } if mailbox.is_live(ticket) => { Some(Task::Leave { ticket }) }
        ActorEvent::Produce { serve, key } if state.next_serve <= serve => {
            Some(Task::Produce { serve, key })
        }
        _ => None,
    }
}

/// Forgets the tickets that were cancelled, and does the task.
fn perform<D: SyncSource>(
    alloc: Global,
    max_serve_ops: u64,
    state: &mut State<D>,
    mailbox: &mut Mailbox<D>,
    task: Task<D>,
) -> Result<Vec<ActorOut>, OutOfMemory>
    requires sound { IsSound state.old }
    requires fits { IsTimely state.old task }

    // Whichever event it is, out of whichever mailbox it was taken.
    ensures steps { IfOk result (λ outs. (before : Inbox D D.Op) (event : ActorEvent)
        → Admits before event task mailbox.old
        → Steps (setup D.Op.operations D.serves max_serve_ops)
        state.old before event outs.items state.new mailbox.new) }
    ensures sound { OnOk result (IsSound state.new) }
{
    let mut outs = Vec::new(alloc);
    let gone = mailbox.take_cancelled(alloc)?;
    state.retire(alloc, gone.as_slice(), &mut outs)?;
    match task {
        Task::Hear(message) => hear(state, mailbox, message, &mut outs)?,
        Task::Deliver {
            delivery,
            key,
            value,
        } => deliver(alloc, state, mailbox, delivery, key, value, &mut outs)?,
        Task::Judge { ticket, valid } => judge(state, mailbox, ticket, valid, &mut outs)?,
        Task::Leave { ticket } => leave(state, mailbox, ticket, &mut outs)?,
        Task::Produce { serve, key } => {
            produce(alloc, max_serve_ops, state, serve, key, &mut outs)?;
        }
    }
    Ok(outs)
}

/// A database is served from now on, or a request is fetched, unless its ticket was let go.
fn hear<D: SyncSource>(
    state: &mut State<D>,
    mailbox: &Mailbox<D>,
    message: Message<D>,
    outs: &mut Vec<ActorOut>,
) -> Result<(), OutOfMemory>
    requires { IsSound state.old }
    ensures hears { OnOk result ((done : List ActorOut)
        × Hears state.old mailbox.now message done state.new
        × (outs.new.items ≡ outs.old.items ++ done)) }
    ensures sound { OnOk result (IsSound state.new) }
{
    match message {
        Message::AttachDatabase(database) => state.database = Some(database),
        Message::GetOperations { ticket, request } => {
            if mailbox.is_live(ticket) {
                state.subscriptions.insert(ticket, request)?;
                outs.push(ActorOut::Fetch {
                    ticket,
                    key: request,
                })?;
            }
        }
    }
    Ok(())
}
