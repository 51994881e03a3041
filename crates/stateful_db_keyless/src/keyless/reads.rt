//! Reads by location, through sealed batches, the newest first, and then the database.

ghost use Rattle.std.specs.Prelude.{◌≡◌, ◌-◌, ◌≤◌, ◌++◌, IfOk, slice_get};
ghost use Rattle.std.specs.Option.{option_copied};
ghost use Rattle.stateful_db_overlay.specs.Chains.{Leads};
ghost use Rattle.stateful_db_keyless.specs.Keyless.{State, size_of};
ghost use Rattle.stateful_db_keyless.specs.KeylessShown.{After};
ghost use Rattle.stateful_db_keyless.specs.KeylessStored.{standing_of};
ghost use Rattle.stateful_db_keyless.specs.Reads.{log_behind, read_as, value_at};
ghost use Rattle.stateful_db_keyless.specs.Through.{op_over, op_through};

use super::batch::KeylessChanges;
use super::database::KeylessDb;
use stateful_base::{Location, OutOfMemory};
use stateful_db_compact::{KeylessOp, duplicate};
use stateful_db_log::Field;
use stateful_db_overlay::Layer;

/// The value that an operation reads as: its own of an append, and the metadata of a commit.
pub(crate) fn read<V: Field>(op: Option<&KeylessOp<V>>) -> Result<Option<V>, OutOfMemory>
    ensures { IfOk result (λ value. value ≡ read_as (option_copied op.entry)) }
{
    match op {
        Some(KeylessOp::Append(value)) => Ok(Some(value.duplicate()?)),
        Some(KeylessOp::Commit { metadata, .. }) => duplicate(metadata),
        None => Ok(None),
    }
}

/// The operation at a location, of operations that begin at `from`.
fn op_at<V>(from: u64, ops: &[KeylessOp<V>], at: u64) -> Option<&KeylessOp<V>>
    requires { from ≤ at }
    ensures { option_copied result ≡ slice_get ops.now (at - from) }
{
    ops.get((at - from) as usize)
}

/// The operation at a location.
fn op_in<'a, V: Field>(
    layers: &'a [Layer<KeylessChanges<V>>],
    db: &'a KeylessDb<V>,
    at: u64,
) -> Option<&'a KeylessOp<V>>
    ensures { let s = (standing_of db.now).disk.newest in
        s.target.start.0 ≤ at
        → option_copied result
        ≡ op_through layers.now at (slice_get s.kept (at - s.target.start.0)) }
{
    for layer in layers {
        let changes = layer.changes();
        if changes.from <= at {
            return op_at(changes.from, changes.ops.as_slice(), at);
        }
    }
    db.log.get(at)
}

/// The operation at a location, where these operations, which begin at `from`, are over the layers.
fn op_of<'a, V: Field>(
    from: u64,
    own: &'a [KeylessOp<V>],
    layers: &'a [Layer<KeylessChanges<V>>],
    db: &'a KeylessDb<V>,
    at: u64,
) -> Option<&'a KeylessOp<V>>
    ensures { let s = (standing_of db.now).disk.newest in
        s.target.start.0 ≤ at
        → option_copied result
        ≡ op_over from own.now at
        (op_through layers.now at (slice_get s.kept (at - s.target.start.0))) }
{
    if from <= at {
        return op_at(from, own, at);
    }
    op_in(layers, db, at)
}

/// The value at a location that isn't below the floor.
pub(crate) fn value_over<V: Field>(
    from: u64,
    own: &[KeylessOp<V>],
    layers: &[Layer<KeylessChanges<V>>],
    db: &KeylessDb<V>,
    location: Location,
) -> Result<Option<V>, OutOfMemory>
    ensures { IfOk result (λ value. (t : State V)
        → Leads After layers.now (standing_of db.now).disk.newest t
        → from ≡ size_of t
        → t.target.start.0 ≤ location.0
        → value ≡ value_at (log_behind t own.now) location) }
{
    if !db.is_whole() {
        return Err(OutOfMemory);
    }
    let value = read(op_of(from, own, layers, db, location.0))?;
    Ok(value)
}
