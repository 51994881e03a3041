//! Reads through sealed batches, the newest first, and then the database.

ghost use Rattle.std.specs.Prelude.{◌≡◌, ◌-◌, ◌≤◌, IfOk, None, option_map, slice_get};
ghost use Rattle.std.specs.Option.{option_copied};
ghost use Rattle.std.specs.Map.{lookup};
ghost use Rattle.std.specs.BTreeMap.{is_at};
ghost use Rattle.stateful_db_overlay.specs.Chains.{Leads};
ghost use Rattle.stateful_db_any.specs.Any.{State, value_at};
ghost use Rattle.stateful_db_any.specs.Shown.{After};
ghost use Rattle.stateful_db_any.specs.Stored.{standing_of};
ghost use Rattle.stateful_db_any.specs.Through.{op_over, op_through, place_over, place_through};

use crate::changes::AnyChanges;
use crate::database::AnyDb;
use crate::op::AnyOp;
use stateful_base::OutOfMemory;
use stateful_db_log::Field;
use stateful_db_overlay::Layer;

/// The location of the last write of a key, where it is live.
pub(crate) fn place_in<K: Field, V: Field>(
    layers: &[Layer<AnyChanges<K, V>>],
    db: &AnyDb<K, V>,
    key: &K,
) -> Option<u64>
    ensures { result ≡ place_through K.cmp layers.now key.now
        (lookup (is_at (K.cmp key.now)) db.now.index.entries) }
{
    for layer in layers {
        if let Some(place) = layer.changes().written.place(key) {
            return place;
        }
    }
    db.index.get(key).copied()
}

/// The operation at a location.
pub(crate) fn op_in<'a, K: Field, V: Field>(
    layers: &'a [Layer<AnyChanges<K, V>>],
    db: &'a AnyDb<K, V>,
    at: u64,
) -> Option<&'a AnyOp<K, V>>
    ensures { let s = (standing_of db.now).disk.newest in
        s.target.start.0 ≤ at
        → option_copied result
        ≡ op_through layers.now at (slice_get s.kept (at - s.target.start.0)) }
{
    for layer in layers {
        let written = &layer.changes().written;
        if written.from() <= at {
            return written.op(at);
        }
    }
    db.log.get(at)
}

/// The value at a key.
pub(crate) fn value_in<K: Field, V: Field>(
    layers: &[Layer<AnyChanges<K, V>>],
    db: &AnyDb<K, V>,
    key: &K,
) -> Result<Option<V>, OutOfMemory>
    ensures { IfOk result (λ value. (t : State K V)
        → Leads (After K.cmp K.fields.spelling V.fields.spelling) layers.now
        (standing_of db.now).disk.newest t
        → value ≡ value_at K.cmp t key.now) }
{
    if !db.is_whole() {
        return Err(OutOfMemory);
    }
    let Some(place) = place_in(layers, db, key) else {
        return Ok(None);
    };
    match op_in(layers, db, place) {
        Some(AnyOp::Update(_, value)) => Ok(Some(value.duplicate()?)),
        Some(AnyOp::Commit(_)) => Ok(None),
        Some(AnyOp::Delete(_)) => Ok(None),
        None => Ok(None),
    }
}
