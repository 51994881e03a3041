//! Mailboxes of a bounded size, behind which further messages wait by a policy.

ghost use Rattle.std.specs.Prelude.{◌≡◌, ◌↔◌, ◌≤◌, ◌<◌, ◌∷◌, ◌++◌, [], List, IsTrue, IsNone, IsErr};
ghost use Rattle.std.specs.Prelude.{IfOk, OnOk, OnErr, true, false, not, filter};
ghost use Rattle.std.specs.VecDeque.{deque_capacity, deque_len};
ghost use Rattle.stateful_types.specs.Mailbox.{queues, HasRoom, IsBusy, IsFilled, HandsOut, Drops};
ghost use Rattle.stateful_types.specs.Mailbox.{KeepsOrder, messages};

use stateful_base::OutOfMemory;
use std::alloc::Global;
use std::collections::VecDeque;
use std::marker::Model;

/// What became of a message: it is ready, it waits behind a full mailbox, or the mailbox is closed
/// and it was dropped.
#[derive(Clone, Copy, Debug, PartialEq, Eq)]
pub enum Feedback {
    Ok,
    Backoff,
    Closed,
}

/// A test of values.
pub trait Predicate<T> {
    ghost use Rattle.std.specs.Prelude.{◌≡◌, Bool};

    /// Whether it holds of a value.
    ghost holds: { Self → T → Bool };

    /// Whether it holds of the value.
    fn holds(&self, value: &T) -> bool
        ensures { result ≡ holds self.now value.now };
}

/// Messages that wait behind a full mailbox.
pub trait Overflow<T>: Sized {
    ghost use Rattle.std.specs.Prelude.{◌≡◌, ◌↔◌, ◌++◌, List, [], IsTrue, IsNone, filter};
    ghost use Rattle.std.specs.Prelude.{option_to_list};

    /// Its messages in the order in which they are handed out.
    ghost items: { Self → List T };

    /// Without messages.
    fn empty(alloc: Global) -> Self
        ensures { items result ≡ [] };

    /// Whether it has no message.
    fn is_empty(&self) -> bool
        ensures { IsTrue result ↔ (items self.now ≡ []) };

    /// Takes out the first message. None exactly where there is none.
    fn pop(&mut self) -> Option<T>
        ensures front { items self.old ≡ option_to_list result ++ items self.new }
        ensures none { IsNone result ↔ (items self.old ≡ []) };

    /// Keeps the messages of which the predicate holds, in their order, and drops the others.
    fn retain<P: Predicate<T>>(&mut self, live: &P)
        ensures { items self.new ≡ filter (P.holds live.now) (items self.old) };
}

/// How the messages of a type wait behind a full mailbox.
pub trait Policy: Sized {
    ghost use Rattle.std.specs.Prelude.{◌≡◌, List, OnOk, OnErr};

    /// Where they wait.
    type Overflow: Overflow<Self>;

    /// What waits once one more message has come, in the order in which it is handed out.
    ghost kept: { List Self → Self → List Self };

    /// Lets one more message wait.
    fn handle(overflow: &mut Self::Overflow, message: Self) -> Result<(), OutOfMemory>
        ensures ok { OnOk result
            (Self.Overflow.items overflow.new ≡ kept (Self.Overflow.items overflow.old) message) }
        ensures err { OnErr result
            (Self.Overflow.items overflow.new ≡ Self.Overflow.items overflow.old) };
}

impl<T: Drop> Overflow<T> for VecDeque<T> {
    ghost items = { λ q. q.items };

    fn empty(alloc: Global) -> VecDeque<T> {
        VecDeque::new(alloc)
    }

    fn is_empty(&self) -> bool {
        self.len() == 0
    }

    fn pop(&mut self) -> Option<T> {
        self.pop_front()
    }

    fn retain<P: Predicate<T>>(&mut self, live: &P) {
        self.retain(|message| live.holds(message));
    }
}

/// A mailbox in which so many messages are ready at most. Further ones wait in its overflow.
#[derive(Drop)]
pub struct Bounded<T, O: Overflow<T>> {
    ready: VecDeque<T>,
    overflow: O,
    capacity: usize,
    closed: bool,
}

impl<T, O: Overflow<T>> Model for Bounded<T, O> {
    ghost use Rattle.std.specs.Prelude.{◌≤◌};
    ghost use Rattle.std.specs.VecDeque.{deque_capacity};
    ghost use Rattle.stateful_types.specs.Mailbox.{Queues, queues, IsFilled};

    ghost Value = { Queues T };

    ghost view = { λ a. queues a.capacity a.ready.items (O.items a.overflow) a.closed };

    ghost invariant = { λ a. (a.capacity ≤ deque_capacity a.ready)
        × IsFilled (queues a.capacity a.ready.items (O.items a.overflow) a.closed) };
}

impl<T: Policy + Drop> Bounded<T, T::Overflow> {
    /// An empty mailbox, with room for so many ready messages.
    pub fn new(alloc: Global, capacity: usize) -> Result<Bounded<T, T::Overflow>, OutOfMemory>
        requires { 1 ≤ capacity }
        ensures empty { IfOk result (λ mailbox. mailbox ≡ queues capacity [] [] false) }

        // Whatever calls follow, messages are handed out in order, if they wait in order, and none
        // is lost but those that were dropped.
        ensures order { IfOk result (λ mailbox. KeepsOrder T.kept mailbox) }
    {
        let ready = VecDeque::with_capacity(alloc, capacity)?;
        Ok(Bounded {
            ready,
            overflow: T::Overflow::empty(alloc),
            capacity,
            closed: false,
        })
    }

    /// Takes a message, unless the mailbox is closed.
    pub fn enqueue(&mut self, message: T) -> Result<Feedback, OutOfMemory>
        ensures closed { (result ≡ Ok Feedback.Closed) ↔ IsTrue self.old.closed }
        ensures room { (result ≡ Ok Feedback.Ok) ↔ HasRoom self.old }
        ensures busy { (result ≡ Ok Feedback.Backoff) → IsBusy self.old }
        ensures refused { IsErr result → IsBusy self.old }

        ensures unchanged { (result ≡ Ok Feedback.Closed) → self.new ≡ self.old }
        ensures ready { (result ≡ Ok Feedback.Ok)
            → self.new ≡ record self.old { ready = self.old.ready ++ message ∷ [] } }
        ensures waits { (result ≡ Ok Feedback.Backoff)
            → self.new ≡ record self.old { overflow = T.kept self.old.overflow message } }
        ensures err { OnErr result (self.new ≡ self.old) }

        ensures filled { IsFilled self.new }
    {
        if self.closed {
            return Ok(Feedback::Closed);
        }
        if self.overflow.is_empty() && self.ready.len() < self.capacity {
            self.ready.push_back_reserved(message);
            return Ok(Feedback::Ok);
        }
        T::handle(&mut self.overflow, message)?;
        Ok(Feedback::Backoff)
    }

    /// Takes out the first message, and lets those that wait be ready as far as there is room. None
    /// exactly where there is no message.
    pub fn try_recv(&mut self) -> Option<T>
        ensures front { HandsOut self.old self.new result }
        ensures none { IsNone result ↔ (messages self.old ≡ []) }
        ensures filled { IsFilled self.new }
    {
        let message = self.ready.pop_front()?;
        refill(self.capacity, &mut self.ready, &mut self.overflow);
        Some(message)
    }

    /// Keeps the messages in the overflow of which the predicate holds, in their order, and drops
    /// the others that wait there, so that they take no room. Those that are ready stay, whatever
    /// they are.
    pub fn retain_waiting<P: Predicate<T>>(&mut self, live: &P)
        ensures kept { self.new.overflow ≡ filter (P.holds live.now) self.old.overflow }
        ensures dropped { Drops self.old self.new
            (filter (λ message. not (P.holds live.now message)) self.old.overflow) }
        ensures filled { IsFilled self.new }
    {
        self.overflow.retain(live);
    }

    /// Refuses later messages. Those that it has stay.
    pub fn close(&mut self)
        ensures closed { self.new ≡ record self.old { closed = true } }
        ensures filled { IsFilled self.new }
    {
        self.closed = true;
    }
}

/// Moves the messages that wait to the ready ones, as far as there is room.
fn refill<T, O: Overflow<T>>(capacity: usize, ready: &mut VecDeque<T>, overflow: &mut O)
    requires room { capacity ≤ deque_capacity ready.old }
    requires within { deque_len ready.old ≤ capacity }
    ensures order { ready.new.items ++ O.items overflow.new
        ≡ ready.old.items ++ O.items overflow.old }
    ensures within { deque_len ready.new ≤ capacity }
    ensures filled { deque_len ready.new < capacity → O.items overflow.new ≡ [] }
    ensures room { capacity ≤ deque_capacity ready.new }
{
    'refilling: while ready.len() < capacity {
        let Some(message) = overflow.pop() else {
            return;
        };
        ready.push_back_reserved(message);
    }
}
