//! Who waits for a floor.

ghost use Rattle.std.specs.Prelude.{◌≡◌, ◌==◌, ◌∷◌, ◌++◌, [], not, filter, OnOk, OnErr};
ghost use Rattle.std.specs.List.{list_any};
ghost use Rattle.stateful_probe.specs.Probe.{is_empty};

use stateful_types::OutOfMemory;
use std::alloc::Global;
use std::marker::Model;

/// The tickets of those who wait, in their order.
#[derive(Drop)]
pub(crate) struct Subscribers {
    tickets: Vec<u64>,
}

impl Model for Subscribers {
    ghost use Rattle.std.specs.Prelude.{List, ℕ};

    ghost Value = { List ℕ };

    ghost view = { λ a. a.tickets.items };
}

impl Subscribers {
    pub(crate) fn new(alloc: Global) -> Subscribers
        ensures { result ≡ [] }
    {
        Subscribers {
            tickets: Vec::new(alloc),
        }
    }

    pub(crate) fn is_empty(&self) -> bool
        ensures { result ≡ is_empty self.now }
    {
        self.tickets.is_empty()
    }

    pub(crate) fn contains(&self, ticket: u64) -> bool
        ensures { result ≡ list_any (λ t. t == ticket) self.now }
    {
        self.tickets.iter().any(|t| *t == ticket)
    }

    /// One more, at the end.
    pub(crate) fn push(&mut self, ticket: u64) -> Result<(), OutOfMemory>
        ensures ok { OnOk result (self.new ≡ self.old ++ ticket ∷ []) }
        ensures err { OnErr result (self.new ≡ self.old) }
    {
        self.tickets.push(ticket)?;
        Ok(())
    }

    /// Without this ticket.
    pub(crate) fn remove(&mut self, ticket: u64)
        ensures { self.new ≡ filter (λ t. not (t == ticket)) self.old }
    {
        self.tickets.retain(|t| *t != ticket);
    }

    /// None are left.
    pub(crate) fn clear(&mut self)
        ensures { self.new ≡ [] }
    {
        self.tickets.clear();
    }

    pub(crate) fn as_slice(&self) -> &[u64]
        ensures { result.now ≡ self.now }
    {
        self.tickets.as_slice()
    }
}
