//! Which keys are fetched, and for whom.
//!
//! A ticket is subscribed to its key from where its request was taken in until it is forgotten: by
//! a good verdict, by a departure or by a cancel. A bad verdict leaves it subscribed, and so does a
//! delivery that it wasn't free to judge.
//!
//! `keys` has the key of each ticket, and `index` the tickets of each key. Both are changed in one
//! call, and the first is taken back where there is no memory for the second. So a delivery finds
//! its subscribers by one look-up.
//!
//! `specs/Subscribing.antt` says who is subscribed, and the invariant of `Subscriptions` that both
//! tables say the same.

ghost use Rattle.std.specs.Prelude.{◌≡◌, [], OnOk};
ghost use Rattle.std.specs.Option.{option_copied};
ghost use Rattle.stateful_table.specs.Table.{at, without};
ghost use Rattle.stateful_p2p_tables.specs.Subscribing.{subscribed, ListsSubscribers};

use crate::index::Index;
use stateful_table::Table;
use stateful_types::{OutOfMemory, Request, requests_are_ordered};
use std::alloc::Global;
use std::collections::BTreeSet;
use std::marker::Model;

/// The tickets for which something is fetched, each with its key. An index has the tickets of each
/// key in ascending order.
#[derive(Drop)]
pub struct Subscriptions {
    keys: Table<Request>,
    index: Index<Request>,
}

impl Model for Subscriptions {
    ghost use Rattle.std.specs.Prelude.{◌≡◌, List, ℕ};
    ghost use Rattle.stateful_types.specs.declared.request.Request.{Request};
    ghost use Rattle.stateful_table.specs.Table.{at};
    ghost use Rattle.stateful_p2p_tables.specs.Subscribing.{is_listed, is_key};

    ghost Value = { List (ℕ × Request) };

    ghost view = { λ a. a.keys };

    ghost invariant = { λ a. (key : Request) (t : ℕ)
        → is_listed ⟦<Request as Ord>⟧.cmp a.index.tickets key t
        ≡ is_key ⟦<Request as Ord>⟧.cmp key (at a.keys t) };
}

impl Subscriptions {
    /// Nothing is fetched.
    pub fn new(alloc: Global) -> Subscriptions
        ensures { result ≡ [] }
    {
        Subscriptions {
            keys: Table::new(alloc),
            index: Index::new(alloc),
        }
    }

    /// The tickets for which this key is fetched, in ascending order. None only where there are
    /// none.
    pub fn of(&self, key: &Request) -> Option<&BTreeSet<u64>>
        ensures { ListsSubscribers self.now key.now (option_copied result) }
    {
        requests_are_ordered();
        let tickets = self.index.of(key)?;
        tickets.len();
        Some(tickets)
    }

    /// The key is fetched for this ticket too.
    pub fn insert(&mut self, ticket: u64, key: Request) -> Result<(), OutOfMemory>
        ensures { OnOk result (self.new ≡ subscribed self.old ticket key) }
    {
        self.remove(ticket);
        self.keys.put(ticket, key)?;
        match self.index.list(key, ticket) {
            Ok(()) => Ok(()),
            Err(refused) => {
                self.keys.remove(ticket);
                Err(refused)
            }
        }
    }

    /// Nothing is fetched for this ticket any more.
    pub fn remove(&mut self, ticket: u64) -> Option<Request>
        ensures value { result ≡ at self.old ticket }
        ensures others { self.new ≡ without self.old ticket }
    {
        let key = self.keys.remove(ticket)?;
        self.index.unlist(&key, ticket);
        Some(key)
    }
}
