//! The operations of a batch, and where the range behind them begins.

ghost use Rattle.std.specs.Prelude.{◌≡◌, ◌+◌, ◌-◌, ◌^◌, ◌<◌, ◌≤◌, ◌++◌, ◌∷◌, [], ℕ, List, Option};
ghost use Rattle.std.specs.Prelude.{Bool, IsTrue, IfOk, OnOk, is_some, option_map, length, drop};
ghost use Rattle.std.specs.Prelude.{slice_get, ◌↔◌};
ghost use Rattle.std.specs.Option.{option_copied};
ghost use Rattle.std.specs.Map.{lookup};
ghost use Rattle.std.specs.BTreeMap.{is_at};
ghost use Rattle.stateful_db_overlay.specs.Chains.{Leads};
ghost use Rattle.stateful_db_any.specs.Live.{is_last, passed};
ghost use Rattle.stateful_db_any.specs.Any.{State, IsWhole, size_of, ops_for};
ghost use Rattle.stateful_db_any.specs.Shown.{After};
ghost use Rattle.stateful_db_any.specs.Stored.{standing_of};
ghost use Rattle.stateful_db_any.specs.Through.{IsIndexed, op_over, op_through, place_over};
ghost use Rattle.stateful_db_any.specs.Through.{place_through};
ghost use Rattle.stateful_db_any.specs.declared.op.AnyOp.{AnyOp};
ghost use Rattle.stateful_db_any.specs.declared.op.AnyOp.TheVariants.{Commit};

use crate::changes::{AnyChanges, AnyWritten};
use crate::database::AnyDb;
use crate::op::AnyOp;
use crate::reads::{op_in, place_in};
use stateful_base::OutOfMemory;
use stateful_db_log::Field;
use stateful_db_overlay::Layer;
use std::collections::BTreeMap;

/// The operations of written keys, from a location on.
fn write_keys<K: Field, V: Field>(
    writes: &BTreeMap<K, Option<V>>,
    layers: &[Layer<AnyChanges<K, V>>],
    db: &AnyDb<K, V>,
    from: u64,
) -> Result<AnyWritten<K, V>, OutOfMemory>
    requires { from + length writes.now.entries < 2 ^ 64 }
    ensures from { IfOk result (λ w. w.from ≡ from) }
    ensures ops { IfOk result (λ w. w.ops ≡ ops_for (λ key. is_some
        (place_through K.cmp layers.now key (lookup (is_at (K.cmp key)) db.now.index.entries)))
        writes.now.entries) }
{
    let mut all = AnyWritten::new(db.log.allocator(), from);
    for (key, value) in writes {
        match value {
            Some(value) => {
                all = all.push(AnyOp::Update(key.duplicate()?, value.duplicate()?))?;
            }
            None if place_in(layers, db, key).is_some() => {
                all = all.push(AnyOp::Delete(key.duplicate()?))?;
            }
            None => {}
        }
    }
    Ok(all)
}

/// The operations of a batch with these writes, from a location on.
pub(crate) fn write_all<K: Field, V: Field>(
    writes: &BTreeMap<K, Option<V>>,
    metadata: Option<V>,
    layers: &[Layer<AnyChanges<K, V>>],
    db: &AnyDb<K, V>,
    from: u64,
) -> Result<AnyWritten<K, V>, OutOfMemory>
    requires { from + length writes.now.entries + 1 < 2 ^ 64 }
    ensures from { IfOk result (λ w. w.from ≡ from) }
    ensures ops { IfOk result (λ w. w.ops ≡ ops_for (λ key. is_some
        (place_through K.cmp layers.now key (lookup (is_at (K.cmp key)) db.now.index.entries)))
        writes.now.entries ++ Commit metadata ∷ []) }
{
    let all = write_keys(writes, layers, db, from)?;
    let all = all.push(AnyOp::Commit(metadata))?;
    Ok(all)
}

/// The operation at a location.
pub(crate) fn op_of<'a, K: Field, V: Field>(
    own: &'a AnyWritten<K, V>,
    layers: &'a [Layer<AnyChanges<K, V>>],
    db: &'a AnyDb<K, V>,
    at: u64,
) -> Option<&'a AnyOp<K, V>>
    ensures { let s = (standing_of db.now).disk.newest in
        s.target.start.0 ≤ at
        → option_copied result
        ≡ op_over own.now at (op_through layers.now at (slice_get s.kept (at - s.target.start.0))) }
{
    if own.from() <= at {
        return own.op(at);
    }
    op_in(layers, db, at)
}

/// The location of the last write of a key, where it is live.
pub(crate) fn place_of<K: Field, V: Field>(
    own: &AnyWritten<K, V>,
    layers: &[Layer<AnyChanges<K, V>>],
    db: &AnyDb<K, V>,
    key: &K,
) -> Option<u64>
    ensures { result ≡ place_over K.cmp own.now key.now
        (place_through K.cmp layers.now key.now
        (lookup (is_at (K.cmp key.now)) db.now.index.entries)) }
{
    match own.place(key) {
        Some(place) => place,
        None => place_in(layers, db, key),
    }
}

/// Whether the operation at a location is the last write of a live key.
fn is_live<K: Field, V: Field>(
    own: &AnyWritten<K, V>,
    layers: &[Layer<AnyChanges<K, V>>],
    db: &AnyDb<K, V>,
    at: u64,
) -> bool
    ensures { (t : State K V) (op : AnyOp K V) (later : List (AnyOp K V))
        → Leads (After K.cmp K.fields.spelling V.fields.spelling) layers.now
        (standing_of db.now).disk.newest t
        → IsWhole (standing_of db.now).disk.newest
        → own.now.from ≡ size_of t
        → IsIndexed K.cmp own.now
        → t.target.start.0 ≤ at
        → drop (at - t.target.start.0) (t.kept ++ own.now.ops) ≡ op ∷ later
        → result ≡ is_last K.cmp op later }
{
    match op_of(own, layers, db, at) {
        Some(AnyOp::Update(key, _)) => place_of(own, layers, db, key) == Some(at),
        Some(AnyOp::Commit(_)) => false,
        Some(AnyOp::Delete(_)) => false,
        None => false,
    }
}

/// The location of the first operation that has to be kept, from a location on.
pub(crate) fn first_kept<K: Field, V: Field>(
    own: &AnyWritten<K, V>,
    layers: &[Layer<AnyChanges<K, V>>],
    db: &AnyDb<K, V>,
    start: u64,
) -> u64
    requires { own.now.from + length own.now.ops < 2 ^ 64 }
    ensures { (t : State K V)
        → Leads (After K.cmp K.fields.spelling V.fields.spelling) layers.now
        (standing_of db.now).disk.newest t
        → IsWhole (standing_of db.now).disk.newest
        → own.now.from ≡ size_of t
        → IsIndexed K.cmp own.now
        → start ≡ t.target.start.0
        → result ≡ start + passed K.cmp (t.kept ++ own.now.ops) }
{
    let last = (own.from() + own.ops().len() as u64).saturating_sub(1);
    let mut at = start;
    while at < last && !is_live(own, layers, db, at) {
        at += 1;
    }
    at
}
