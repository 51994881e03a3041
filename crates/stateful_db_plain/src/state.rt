//! A whole state.

ghost use Rattle.std.specs.Prelude.{◌≡◌, ◌++◌, ℕ, List, IfOk};
ghost use Rattle.stateful_db_plain.specs.Whole.{Whole, pair_bytes, entry_bytes, root_of, target_of};
ghost use Rattle.stateful_db_plain.specs.Whole.{initial};
ghost use Rattle.sha2.specs.Hashers.{Holds256};

use sha2::{Digest as Hasher, Sha256};
use stateful_base::{Digest, Location, OutOfMemory, Target};
use stateful_db_medium::Checkpoint;
use std::alloc::Global;
use std::collections::BTreeMap;
use std::marker::Model;
use std::sync::Arc;

/// The entries of a state.
#[derive(Drop)]
enum Entries {
    /// They are its own.
    Own(BTreeMap<u64, u64>),
    /// Its copies share them.
    Shared(Arc<BTreeMap<u64, u64>>),
}

/// A whole state: the end of its range, and its entries.
#[derive(Drop)]
pub struct PlainState {
    size: u64,
    entries: Entries,
}

impl Model for PlainState {
    ghost use Rattle.stateful_db_plain.specs.Whole.{Whole};
    ghost use Rattle.stateful_db_plain.specs.declared.state.Entries.TheVariants.{Own, Shared};

    ghost Value = { Whole };

    ghost view = { λ a. record {
      size = a.size;
      entries = elim a.entries [ Own own ↦ own.entries | Shared shared ↦ shared.value.entries ];
    } };
}

impl PlainState {
    /// The state of these entries, whose range has this end.
    pub fn new(size: u64, entries: BTreeMap<u64, u64>) -> PlainState
        ensures { result ≡ record { size = size; entries = entries.entries } }
    {
        PlainState {
            size,
            entries: Entries::Own(entries),
        }
    }

    /// The same, for copies that share its entries.
    pub(crate) fn shared(
        alloc: Global,
        size: u64,
        entries: BTreeMap<u64, u64>,
    ) -> Result<PlainState, OutOfMemory>
        ensures { IfOk result (λ state. state ≡ record { size = size; entries = entries.entries }) }
    {
        let entries = Arc::new(alloc, entries)?;
        Ok(PlainState {
            size,
            entries: Entries::Shared(entries),
        })
    }

    /// The state without entries.
    pub fn empty(alloc: Global) -> PlainState
        ensures { result ≡ initial }
    {
        PlainState::new(1, BTreeMap::new(alloc))
    }

    /// The state of the same entries, whose range has this end.
    pub(crate) fn with_size(self, size: u64) -> PlainState
        ensures { result ≡ record self { size = size } }
    {
        PlainState {
            size,
            entries: self.entries,
        }
    }

    /// The end of the range.
    pub fn size(&self) -> u64
        ensures { result ≡ self.now.size }
    {
        self.size
    }

    /// The entries, by ascending key.
    pub fn entries(&self) -> &BTreeMap<u64, u64>
        ensures { result.now.entries ≡ self.now.entries }
    {
        match &self.entries {
            Entries::Own(entries) => entries,
            Entries::Shared(entries) => entries,
        }
    }

    /// The SHA-256 of the end, and of key and value of each entry.
    pub fn root(&self) -> Digest
        ensures { result ≡ root_of self.now }
    {
        root_of(self.size, self.entries())
    }

    /// The root, and the range of the last location alone.
    pub fn target(&self) -> Target
        ensures { result ≡ target_of self.now }
    {
        Target {
            root: self.root(),
            start: Location(self.size.saturating_sub(1)),
            end: Location(self.size),
        }
    }

    /// An equal state. It copies no entries that are shared.
    pub(crate) fn share(&self) -> Result<PlainState, OutOfMemory>
        ensures { IfOk result (λ state. state ≡ self.now) }
    {
        let entries = match &self.entries {
            Entries::Own(entries) => Entries::Own(entries.clone()?),
            Entries::Shared(entries) => Entries::Shared(Arc::try_clone(entries)?),
        };
        Ok(PlainState {
            size: self.size,
            entries,
        })
    }
}

/// The SHA-256 of the end of a range, and of key and value of each entry.
pub(crate) fn root_of(size: u64, entries: &BTreeMap<u64, u64>) -> Digest
    ensures { result ≡ root_of (record { size = size; entries = entries.now.entries }) }
{
    let mut hasher = Sha256::new();
    hasher.update(&size.to_be_bytes());
    add_entries(entries, &mut hasher);
    Digest(hasher.finalize())
}

/// The checkpoint of a state.
pub(crate) fn checkpoint(state: PlainState) -> Checkpoint<PlainState>
    ensures { result ≡ record { target = target_of state; kept = state } }
{
    Checkpoint {
        target: state.target(),
        kept: state,
    }
}

/// Adds key and value of each entry to the message.
fn add_entries(entries: &BTreeMap<u64, u64>, hasher: &mut Sha256)
    ensures { (m : List ℕ)
        → Holds256 hasher.old m
        → Holds256 hasher.new (m ++ entry_bytes entries.now.entries) }
{
    for (key, value) in entries {
        add_entry(*key, *value, hasher);
    }
}

fn add_entry(key: u64, value: u64, hasher: &mut Sha256)
    ensures { (m : List ℕ)
        → Holds256 hasher.old m
        → Holds256 hasher.new (m ++ pair_bytes key value) }
{
    hasher.update(&key.to_be_bytes());
    hasher.update(&value.to_be_bytes());
}
