//! Where the live keys of a log were written last.

ghost use Rattle.std.specs.Prelude.{◌≡◌, ◌<◌, ◌+◌, ◌^◌, ℕ, List, Option, Some, None, IfOk, OnOk};
ghost use Rattle.std.specs.Prelude.{option_map, length, slice_get};
ghost use Rattle.std.specs.Map.{lookup};
ghost use Rattle.std.specs.BTreeMap.{is_at};
ghost use Rattle.stateful_db.specs.Disk.{all};
ghost use Rattle.stateful_db_medium.specs.declared.checkpoints.Checkpoint.{Checkpoint};
ghost use Rattle.stateful_db_log.specs.Logs.{disk_of};
ghost use Rattle.stateful_db_any.specs.declared.op.AnyOp.{AnyOp};
ghost use Rattle.stateful_db_any.specs.Live.{written, last_write};

use crate::op::AnyOp;
use stateful_base::OutOfMemory;
use stateful_db_log::{Field, LogMedium};
use std::alloc::Global;
use std::collections::BTreeMap;

/// Notes what an operation at a location writes. A refusal leaves the index as it was.
pub(crate) fn note<K: Field, V: Field>(
    index: &mut BTreeMap<K, u64>,
    op: &AnyOp<K, V>,
    at: u64,
) -> Result<(), OutOfMemory>
    ensures { OnOk result ((key : K) (before : Option (ℕ × V))
        → lookup (is_at (K.cmp key)) index.old.entries ≡ option_map (λ x. x.0) before
        → lookup (is_at (K.cmp key)) index.new.entries
        ≡ option_map (λ x. x.0) (written K.cmp key at op.now before)) }
{
    match op {
        AnyOp::Commit(_) => {}
        AnyOp::Update(key, _) => {
            index.insert(key.duplicate()?, at)?;
        }
        AnyOp::Delete(key) => {
            index.remove(key);
        }
    }
    Ok(())
}

/// Notes what operations from a location on write. A refusal may leave some of it.
pub(crate) fn note_each<K: Field, V: Field>(
    index: &mut BTreeMap<K, u64>,
    ops: &[AnyOp<K, V>],
    from: u64,
) -> Result<(), OutOfMemory>
    requires { from + length ops.now < 2 ^ 64 }
    ensures { OnOk result ((key : K) (before : Option (ℕ × V))
        → lookup (is_at (K.cmp key)) index.old.entries ≡ option_map (λ x. x.0) before
        → lookup (is_at (K.cmp key)) index.new.entries
        ≡ option_map (λ x. x.0) (last_write K.cmp key from ops.now before)) }
{
    for (i, op) in ops.iter().enumerate() {
        note(index, op, from + i as u64)?;
    }
    Ok(())
}

/// The index of operations from a location on.
pub(crate) fn index_over<K: Field, V: Field>(
    alloc: Global,
    ops: &[AnyOp<K, V>],
    from: u64,
) -> Result<BTreeMap<K, u64>, OutOfMemory>
    requires { from + length ops.now < 2 ^ 64 }
    ensures { IfOk result (λ index. (key : K)
        → lookup (is_at (K.cmp key)) index.entries
        ≡ option_map (λ x. x.0) (last_write K.cmp key from ops.now None)) }
{
    let mut index = BTreeMap::new(alloc);
    note_each(&mut index, ops, from)?;
    Ok(index)
}

/// The index of the kept checkpoint of this number.
pub(crate) fn index_of<K: Field, V: Field>(
    alloc: Global,
    medium: &LogMedium<AnyOp<K, V>>,
    number: usize,
) -> Result<BTreeMap<K, u64>, OutOfMemory>
    requires { number < length (all (disk_of medium.now)) }
    ensures { IfOk result (λ index. (s : Checkpoint (List (AnyOp K V))) (key : K)
        → slice_get (all (disk_of medium.now)) number ≡ Some s
        → lookup (is_at (K.cmp key)) index.entries
        ≡ option_map (λ x. x.0) (last_write K.cmp key s.target.start.0 s.kept None)) }
{
    let mut index = BTreeMap::new(alloc);
    let range = medium.target(number);
    for at in range.start.0..range.end.0 {
        if let Some(op) = medium.get(number, at) {
            note(&mut index, op, at)?;
        }
    }
    Ok(index)
}
