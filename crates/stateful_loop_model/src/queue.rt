//! Queues of what waits.
//!
//! What comes first is taken first. A request that is cancelled leaves at once, wherever it stands
//! (`give_up`). It takes no room from then on, and whoever takes things out needn't ask whether
//! they are still wanted. A finalized block is never given up, since its receipt can't be
//! cancelled.
//!
//! Each kind of thing says by `Asks` whether it is of the request of a ticket. Contracts see a
//! queue as a list, so its laws are those of lists.

ghost use Rattle.std.specs.Prelude.{◌≡◌, ◌∷◌, ◌++◌, [], not, filter, IfSome, IfNone, OnOk, OnErr};

use stateful_base::OutOfMemory;
use std::alloc::Global;
use std::collections::VecDeque;
use std::marker::Model;

/// What a request may have put into a queue.
pub trait Asks {
    ghost use Rattle.std.specs.Prelude.{◌≡◌, ℕ, Bool};

    /// Whether it is of the request of a ticket.
    ghost asks: { Self → ℕ → Bool };

    fn asks(&self, ticket: u64) -> bool
        ensures { result ≡ asks self.now ticket };
}

/// A queue, which contracts see as a list, the first first.
#[derive(Drop)]
pub struct Queue<T> {
    items: VecDeque<T>,
}

impl<T> Model for Queue<T> {
    ghost use Rattle.std.specs.Prelude.{List};

    ghost Value = { List T };

    ghost view = { λ a. a.items.items };
}

impl<T: Drop> Queue<T> {
    /// An empty queue.
    pub fn new(alloc: Global) -> Queue<T>
        ensures { result ≡ [] }
    {
        Queue {
            items: VecDeque::new(alloc),
        }
    }

    /// One behind the others.
    pub fn push(&mut self, item: T) -> Result<(), OutOfMemory>
        ensures ok { OnOk result (self.new ≡ self.old ++ item ∷ []) }
        ensures err { OnErr result (self.new ≡ self.old) }
    {
        self.items.push_back(item)?;
        Ok(())
    }

    /// Takes the first one out.
    pub fn pop(&mut self) -> Option<T>
        ensures some { IfSome result (λ item. self.old ≡ item ∷ self.new) }
        ensures none { IfNone result ((self.old ≡ []) × (self.new ≡ [])) }
    {
        self.items.pop_front()
    }
}

impl<T: Asks + Drop> Queue<T> {
    /// Takes out what is of the request of a ticket.
    pub fn give_up(&mut self, ticket: u64)
        ensures { self.new ≡ filter (λ item. not (T.asks item ticket)) self.old }
    {
        self.items.retain(|item| !item.asks(ticket));
    }
}
