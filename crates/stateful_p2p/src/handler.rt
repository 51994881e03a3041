//! What a network's engine hands to a resolver, on its way.
//!
//! The engine hands deliveries and productions over, each under the next number of its kind, and
//! whoever drives the resolver takes them out as events. The number of a delivery comes back with
//! `Feedback` or `Unjudged`, that of a production with `Served` or `Unserved`.
//!
//! Where `queue` is full, deliveries wait and productions are dropped at once. `Backoff` tells the
//! engine of either, so a production that got it is never answered. `cancel` says that nobody
//! awaits the feedback on a delivery any more. One that waits behind the ready messages is dropped
//! then; a ready one is handed out all the same.
//!
//! `specs/Handling.antt` says what each call does.

ghost use Rattle.std.specs.Prelude.{◌≡◌, ◌+◌, ◌-◌, ◌^◌, ◌≤◌, ◌↔◌, ◌∷◌, [], false, IsNone, IfOk};
ghost use Rattle.std.specs.Prelude.{OnOk, OnErr, IsErrOf, filter};
ghost use Rattle.stateful_types.specs.Mailbox.{queues, messages, HandsOut};
ghost use Rattle.stateful_p2p.specs.Handling.{handled, Delivers, Produces, without_delivery};
ghost use Rattle.stateful_p2p.specs.Handling.{HandsEvent};
ghost use Rattle.stateful_p2p.specs.declared.handler.EngineMessage.TheVariants as engine;

use crate::event::ActorEvent;
use bytes::Bytes;
use stateful_types::{Bounded, DrawError, Feedback, OutOfMemory, Policy, Predicate, Request};
use std::alloc::Global;
use std::collections::VecDeque;
use std::marker::Model;

/// What an engine hands over.
#[derive(Drop)]
pub(crate) enum EngineMessage<K> {
    /// A peer's answer, for those who wait for this key.
    Deliver { delivery: u64, key: K, value: Bytes },
    /// A peer asks for what this key names.
    Produce { serve: u64, key: K },
}

// Where the mailbox is full, peers' requests are dropped at once, so that deliveries to local
// callers keep priority. The peer can ask one that has less to do.
impl<K: Drop> Policy for EngineMessage<K> {
    ghost use Rattle.stateful_p2p.specs.Handling.{kept};

    type Overflow = VecDeque<EngineMessage<K>>;

    ghost kept = { kept };

    fn handle(
        overflow: &mut VecDeque<EngineMessage<K>>,
        message: EngineMessage<K>,
    ) -> Result<(), OutOfMemory> {
        if let EngineMessage::Deliver { .. } = message {
            overflow.push_back(message)?;
        }
        Ok(())
    }
}

/// That a message isn't this delivery.
#[derive(Drop)]
struct NotDelivery {
    delivery: u64,
}

impl<K> Predicate<EngineMessage<K>> for NotDelivery {
    ghost use Rattle.stateful_p2p.specs.Handling.{is_not_delivery};

    ghost holds = { λ not_delivery message. is_not_delivery not_delivery.delivery message };

    fn holds(&self, message: &EngineMessage<K>) -> bool {
        match message {
            EngineMessage::Deliver { delivery, .. } => *delivery != self.delivery,
            EngineMessage::Produce { .. } => true,
        }
    }
}

/// Deliveries and productions on their way to a resolver. It numbers both, each from 0 on.
#[derive(Drop)]
pub struct Handler {
    next_delivery: u64,
    next_serve: u64,
    queue: Bounded<EngineMessage<Request>, VecDeque<EngineMessage<Request>>>,
}

impl Model for Handler {
    ghost use Rattle.std.specs.Prelude.{◌≡◌, false};
    ghost use Rattle.stateful_p2p.specs.Handling.{Handled, handled};

    ghost Value = { Handled };

    ghost view = { λ a. handled a.next_delivery a.next_serve a.queue };

    ghost invariant = { λ a. a.queue.closed ≡ false };
}

impl Handler {
    /// Nothing is on its way. So many messages are ready at most; further deliveries wait behind
    /// them.
    pub fn new(alloc: Global, capacity: usize) -> Result<Handler, OutOfMemory>
        requires { 1 ≤ capacity }
        ensures { IfOk result (λ handler. handler ≡ handled 0 0 (queues capacity [] [] false)) }
    {
        Ok(Handler {
            next_delivery: 0,
            next_serve: 0,
            queue: Bounded::new(alloc, capacity)?,
        })
    }

    /// A peer answered a fetch of this key. Gives the number of the delivery.
    pub fn deliver(&mut self, key: Request, value: Bytes) -> Result<(Feedback, u64), DrawError>
        ensures delivers { IfOk result (λ drawn.
            Delivers self.old key value drawn.0 drawn.1 self.new) }
        ensures exhausted { IsErrOf result DrawError.Exhausted
            ↔ (self.old.next_delivery ≡ 2 ^ 64 - 1) }
        ensures err { OnErr result (self.new ≡ self.old) }
    {
        let delivery = self.next_delivery;
        if delivery == u64::MAX {
            return Err(DrawError::Exhausted);
        }
        let feedback = self.queue.enqueue(EngineMessage::Deliver {
            delivery,
            key,
            value,
        })?;
        self.next_delivery = delivery + 1;
        Ok((feedback, delivery))
    }

    /// A peer asks for what this key names. Gives the number of the production, which is dropped
    /// where the feedback is `Backoff`.
    pub fn produce(&mut self, key: Request) -> Result<(Feedback, u64), DrawError>
        ensures produces { IfOk result (λ drawn.
            Produces self.old key drawn.0 drawn.1 self.new) }
        ensures exhausted { IsErrOf result DrawError.Exhausted
            ↔ (self.old.next_serve ≡ 2 ^ 64 - 1) }
        ensures err { OnErr result (self.new ≡ self.old) }
    {
        let serve = self.next_serve;
        if serve == u64::MAX {
            return Err(DrawError::Exhausted);
        }
        let feedback = self.queue.enqueue(EngineMessage::Produce { serve, key })?;
        self.next_serve = serve + 1;
        Ok((feedback, serve))
    }

    /// Nobody waits for the feedback on a delivery any more. It takes no room if it waits.
    pub fn cancel(&mut self, delivery: u64)
        ensures { self.new ≡ without_delivery self.old delivery }
    {
        self.queue.retain_waiting(&NotDelivery { delivery });
    }

    /// Takes out the next message, as the event that it is. None exactly where there is none.
    pub fn take(&mut self) -> Option<ActorEvent>
        ensures handed { HandsEvent self.old self.new result }
        ensures none { IsNone result ↔ (messages self.old.queue ≡ []) }
    {
        match self.queue.try_recv()? {
            EngineMessage::Deliver {
                delivery,
                key,
                value,
            } => Some(ActorEvent::Deliver {
                delivery,
                key,
                value,
            }),
            EngineMessage::Produce { serve, key } => Some(ActorEvent::Produce { serve, key }),
        }
    }
}
