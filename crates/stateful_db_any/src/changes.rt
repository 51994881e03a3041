//! What a sealed batch of keys changes.

ghost use Rattle.std.specs.Prelude.{◌≡◌, ◌+◌, ◌-◌, ◌^◌, ◌<◌, ◌≤◌, ◌++◌, ◌∷◌, [], IfOk, length};
ghost use Rattle.std.specs.Prelude.{slice_get};
ghost use Rattle.std.specs.Option.{option_copied};
ghost use Rattle.std.specs.Map.{lookup};
ghost use Rattle.std.specs.BTreeMap.{is_at};
ghost use Rattle.stateful_db_any.specs.Through.{IsIndexed};

use crate::op::AnyOp;
use stateful_base::{OutOfMemory, Target};
use stateful_db_log::Field;
use std::alloc::Global;
use std::collections::BTreeMap;
use std::marker::Model;

/// Operations from a location on. The index has each key that they write, with the location of its
/// last write, or with none where that is a delete.
#[derive(Drop)]
pub struct AnyWritten<K: Ord, V> {
    pub(crate) from: u64,
    pub(crate) ops: Vec<AnyOp<K, V>>,
    pub(crate) index: BTreeMap<K, Option<u64>>,
}

impl<K: Ord, V> Model for AnyWritten<K, V> {
    ghost use Rattle.stateful_db_any.specs.Through.{Written, IsIndexed};

    ghost Value = { Written K V };

    ghost view = { λ a. record { from = a.from; ops = a.ops.items; index = a.index.entries } };

    ghost invariant = { λ a. IsIndexed K.cmp
        (record { from = a.from; ops = a.ops.items; index = a.index.entries }) };
}

impl<K: Field, V: Field> AnyWritten<K, V> {
    /// No operations yet.
    pub(crate) fn new(alloc: Global, from: u64) -> AnyWritten<K, V>
        ensures from { result.from ≡ from }
        ensures ops { result.ops ≡ [] }
    {
        AnyWritten {
            from,
            ops: Vec::new(alloc),
            index: BTreeMap::new(alloc),
        }
    }

    /// With one operation more.
    pub(crate) fn push(self, op: AnyOp<K, V>) -> Result<AnyWritten<K, V>, OutOfMemory>
        requires { self.from + length self.ops < 2 ^ 64 }
        ensures from { IfOk result (λ w. w.from ≡ self.from) }
        ensures ops { IfOk result (λ w. w.ops ≡ self.ops ++ op ∷ []) }
    {
        let AnyWritten {
            from,
            mut ops,
            mut index,
        } = self;
        let at = from + ops.len() as u64;
        match &op {
            AnyOp::Commit(_) => {}
            AnyOp::Update(key, _) => {
                index.insert(key.duplicate()?, Some(at))?;
            }
            AnyOp::Delete(key) => {
                index.insert(key.duplicate()?, None)?;
            }
        }
        ops.push(op)?;
        Ok(AnyWritten { from, ops, index })
    }

    /// The location of the first operation.
    pub(crate) fn from(&self) -> u64
        ensures { result ≡ self.now.from }
    {
        self.from
    }

    /// The operations.
    pub(crate) fn ops(&self) -> &[AnyOp<K, V>]
        ensures ops { result.now ≡ self.now.ops }
        ensures indexed { IsIndexed K.cmp self.now }
    {
        self.ops.as_slice()
    }

    /// The operations alone.
    pub(crate) fn into_ops(self) -> Vec<AnyOp<K, V>>
        ensures { result.items ≡ self.ops }
    {
        self.ops
    }

    /// The operation at a location, if it is one of these.
    pub(crate) fn op(&self, at: u64) -> Option<&AnyOp<K, V>>
        requires { self.now.from ≤ at }
        ensures { option_copied result ≡ slice_get self.now.ops (at - self.now.from) }
    {
        self.ops.get((at - self.from) as usize)
    }

    /// The location of the last write of a key, or none where that is a delete, if these write the
    /// key.
    pub(crate) fn place(&self, key: &K) -> Option<Option<u64>>
        ensures { result ≡ lookup (is_at (K.cmp key.now)) self.now.index }
    {
        self.index.get(key).copied()
    }
}

/// What a sealed batch changes: its operations, and the root and the range behind them.
#[derive(Drop)]
pub struct AnyChanges<K: Ord, V> {
    pub(crate) written: AnyWritten<K, V>,
    pub(crate) target: Target,
}

impl<K: Ord, V> Model for AnyChanges<K, V> {
    ghost use Rattle.stateful_db_any.specs.Through.{Change};

    ghost Value = { Change K V };

    ghost view = { λ a. record { written = a.written; target = a.target } };
}
