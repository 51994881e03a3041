//! An index of tickets by key.

ghost use Rattle.std.specs.Prelude.{◌≡◌, ◌==◌, ◌&&◌, ℕ, Some, true, false, OnOk, OnErr};
ghost use Rattle.std.specs.Prelude.{if◌then◌else◌};
ghost use Rattle.std.specs.Option.{option_copied};
ghost use Rattle.std.specs.BTreeMap.{get, IsEmpty};
ghost use Rattle.stateful_p2p_tables.specs.Subscribing.{is_listed, is_key};

use stateful_types::OutOfMemory;
use std::alloc::Global;
use std::collections::{BTreeMap, BTreeSet};

/// The tickets of each key, in ascending order.
#[derive(Drop)]
pub(crate) struct Index<K: Ord> {
    pub(crate) alloc: Global,
    pub(crate) tickets: BTreeMap<K, BTreeSet<u64>>,
}

impl<K: Ord + Drop> Index<K> {
    pub(crate) fn new(alloc: Global) -> Index<K>
        ensures { IsEmpty result.tickets }
    {
        Index {
            alloc,
            tickets: BTreeMap::new(alloc),
        }
    }

    /// The tickets of a key.
    pub(crate) fn of(&self, key: &K) -> Option<&BTreeSet<u64>>
        ensures { option_copied result ≡ get K.cmp self.now.tickets key.now }
    {
        self.tickets.get(key)
    }

    /// One ticket of this key more.
    pub(crate) fn list(&mut self, key: K, ticket: u64) -> Result<(), OutOfMemory>
        ensures ok { OnOk result ((k : K) (t : ℕ)
            → is_listed K.cmp self.new.tickets k t
            ≡ (if is_key K.cmp k (Some key) && (t == ticket)
            then true
            else is_listed K.cmp self.old.tickets k t)) }
        ensures err { OnErr result ((k : K) (t : ℕ)
            → is_listed K.cmp self.new.tickets k t ≡ is_listed K.cmp self.old.tickets k t) }
    {
        if let Some(tickets) = self.tickets.get_mut(&key) {
            tickets.insert(ticket)?;
            return Ok(());
        }
        let mut tickets = BTreeSet::new(self.alloc);
        tickets.insert(ticket)?;
        self.tickets.insert(key, tickets)?;
        Ok(())
    }

    /// Without this ticket of the key.
    pub(crate) fn unlist(&mut self, key: &K, ticket: u64)
        ensures { (k : K) (t : ℕ)
            → is_listed K.cmp self.new.tickets k t
            ≡ (if is_key K.cmp k (Some key.now) && (t == ticket)
            then false
            else is_listed K.cmp self.old.tickets k t) }
    {
        let Some(tickets) = self.tickets.get_mut(key) else {
            return;
        };
        tickets.remove(&ticket);
        if tickets.is_empty() {
            self.tickets.remove(key);
        }
    }
}
