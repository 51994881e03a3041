//! What batches write, and what it makes of entries.

ghost use Rattle.std.specs.Prelude.{◌≡◌, ℕ, Option, IfOk, OnOk, cond};
ghost use Rattle.std.specs.Ordering.{nat_cmp};
ghost use Rattle.std.specs.BTreeMap.{is_at};
ghost use Rattle.stateful_db_plain.specs.Whole.{value_at};
ghost use Rattle.stateful_db_plain.specs.Writes.{IsInOrder, value_over, value_through};

use stateful_base::{OutOfMemory, Target};
use stateful_db_overlay::Layer;
use std::alloc::Global;
use std::collections::BTreeMap;
use std::marker::Model;

/// The value of each key that is written, or none where its entry is taken away.
pub(crate) type Writes = BTreeMap<u64, Option<u64>>;

/// What a sealed batch changes: its writes, and the root and the range behind them.
#[derive(Drop)]
pub struct PlainChanges {
    writes: Writes,
    target: Target,
}

impl Model for PlainChanges {
    ghost use Rattle.stateful_db_plain.specs.Writes.{Change};

    ghost Value = { Change };

    ghost view = { λ a. record { writes = a.writes.entries; target = a.target } };
}

impl PlainChanges {
    pub(crate) fn new(writes: Writes, target: Target) -> PlainChanges
        ensures { result ≡ record { writes = writes.entries; target = target } }
    {
        PlainChanges { writes, target }
    }

    pub(crate) fn writes(&self) -> &Writes
        ensures { result.now.entries ≡ self.now.writes }
    {
        &self.writes
    }

    /// The root and the range behind the writes.
    pub(crate) fn target(&self) -> Target
        ensures { result ≡ self.now.target }
    {
        self.target
    }
}

/// The value at a key: what the newest of the layers that write it says, or what these entries
/// have.
pub(crate) fn value_in(
    layers: &[Layer<PlainChanges>],
    entries: &BTreeMap<u64, u64>,
    key: u64,
) -> Option<u64>
    ensures { result ≡ value_through layers.now key (value_at entries.now.entries key) }
{
    for layer in layers {
        if let Some(value) = layer.changes().writes().get(&key) {
            return *value;
        }
    }
    entries.get(&key).copied()
}

/// These entries with the writes made.
fn changed(entries: &BTreeMap<u64, u64>, writes: &Writes) -> Result<BTreeMap<u64, u64>, OutOfMemory>
    ensures values { IfOk result (λ after. (key : ℕ)
        → value_at after.entries key
        ≡ value_over writes.now.entries key (value_at entries.now.entries key)) }
    ensures ordered { IfOk result (λ after. IsInOrder after.entries) }
{
    let mut after = entries.clone()?;
    for (key, value) in writes {
        put(&mut after, *key, *value)?;
    }
    // The length comes with the order of the keys.
    let _count = after.len();
    Ok(after)
}

/// These entries with the writes of a batch made, and before them those of the layers below it.
pub(crate) fn made(
    alloc: Global,
    entries: &BTreeMap<u64, u64>,
    layers: &[Layer<PlainChanges>],
    own: &Writes,
) -> Result<BTreeMap<u64, u64>, OutOfMemory>
    ensures values { IfOk result (λ after. (key : ℕ)
        → value_at after.entries key
        ≡ value_over own.now.entries key
        (value_through layers.now key (value_at entries.now.entries key))) }
    ensures ordered { IfOk result (λ after. IsInOrder after.entries) }
{
    let writes = all_writes(alloc, own, layers)?;
    changed(entries, &writes)
}

/// Makes one write.
fn put(entries: &mut BTreeMap<u64, u64>, key: u64, value: Option<u64>) -> Result<(), OutOfMemory>
    ensures { OnOk result ((at : ℕ)
        → value_at entries.new.entries at
        ≡ cond (is_at (nat_cmp key) at) value (value_at entries.old.entries at)) }
{
    match value {
        Some(value) => {
            entries.insert(key, value)?;
        }
        None => {
            entries.remove(&key);
        }
    }
    Ok(())
}

/// The writes of a batch and of the layers below it, in one.
fn all_writes(
    alloc: Global,
    own: &Writes,
    layers: &[Layer<PlainChanges>],
) -> Result<Writes, OutOfMemory>
    ensures { IfOk result (λ all. (key : ℕ) (before : Option ℕ)
        → value_over all.entries key before
        ≡ value_over own.now.entries key (value_through layers.now key before)) }
{
    let mut all = BTreeMap::new(alloc);
    add_older(&mut all, own)?;
    for layer in layers {
        add_older(&mut all, layer.changes().writes())?;
    }
    Ok(all)
}

/// Adds the older writes of keys that aren't written yet.
fn add_older(writes: &mut Writes, older: &Writes) -> Result<(), OutOfMemory>
    ensures { OnOk result ((key : ℕ) (before : Option ℕ)
        → value_over writes.new.entries key before
        ≡ value_over writes.old.entries key (value_over older.now.entries key before)) }
{
    for (key, value) in older {
        if !writes.contains_key(key) {
            writes.insert(*key, *value)?;
        }
    }
    Ok(())
}
