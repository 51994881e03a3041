//! Tickets in a row.

ghost use Rattle.std.specs.Prelude.{◌≡◌, ◌==◌, not, ◌++◌, ◌∷◌, [], OnOk, OnErr, IfSome, IfNone};
ghost use Rattle.std.specs.Prelude.{filter};

use stateful_base::OutOfMemory;
use std::alloc::Global;
use std::collections::VecDeque;
use std::marker::Model;

/// Tickets in a row, which contracts see as a list.
#[derive(Drop)]
pub struct Tickets {
    tickets: VecDeque<u64>,
}

impl Model for Tickets {
    ghost use Rattle.std.specs.Prelude.{List, ℕ};

    ghost Value = { List ℕ };

    ghost view = { λ t. t.tickets.items };
}

impl Tickets {
    pub fn new(alloc: Global) -> Tickets
        ensures { result ≡ [] }
    {
        Tickets {
            tickets: VecDeque::new(alloc),
        }
    }

    /// One more, at the end.
    pub fn push(&mut self, ticket: u64) -> Result<(), OutOfMemory>
        ensures ok { OnOk result (self.new ≡ self.old ++ ticket ∷ []) }
        ensures err { OnErr result (self.new ≡ self.old) }
    {
        self.tickets.push_back(ticket)?;
        Ok(())
    }

    /// Takes the first one out.
    pub(crate) fn pop(&mut self) -> Option<u64>
        ensures first { IfSome result (λ ticket. self.old ≡ ticket ∷ self.new) }
        ensures none { IfNone result ((self.old ≡ []) × (self.new ≡ [])) }
    {
        self.tickets.pop_front()
    }

    /// Takes a ticket out, wherever it stands.
    pub(crate) fn remove(&mut self, ticket: u64)
        ensures { self.new ≡ filter (λ t. not (t == ticket)) self.old }
    {
        self.tickets.retain(|t| *t != ticket);
    }
}
