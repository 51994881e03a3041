//! Operations of a log of keys.

ghost use Rattle.std.specs.Prelude.{◌≡◌, IfOk};

use stateful_base::{OutOfMemory, Share};
use stateful_db_log::Field;

/// An operation of a log of keys.
#[derive(Drop)]
pub enum AnyOp<K, V> {
    /// The end of a batch, with its metadata.
    Commit(Option<V>),
    /// A value is put at a key.
    Update(K, V),
    /// A key is deleted.
    Delete(K),
}

impl<K: Field, V: Field> Share for AnyOp<K, V> {
    fn share(&self) -> Result<AnyOp<K, V>, OutOfMemory> {
        match self {
            AnyOp::Commit(metadata) => Ok(AnyOp::Commit(duplicate(metadata)?)),
            AnyOp::Update(key, value) => Ok(AnyOp::Update(key.duplicate()?, value.duplicate()?)),
            AnyOp::Delete(key) => Ok(AnyOp::Delete(key.duplicate()?)),
        }
    }
}

/// An equal value, where there is one.
pub(crate) fn duplicate<V: Field>(value: &Option<V>) -> Result<Option<V>, OutOfMemory>
    ensures { IfOk result (λ same. same ≡ value.now) }
{
    match value {
        None => Ok(None),
        Some(value) => Ok(Some(value.duplicate()?)),
    }
}
