//! The chain of digests over operations of a log of keys.

ghost use Rattle.std.specs.Prelude.{ℕ, List, ◌++◌};
ghost use Rattle.sha2.specs.Hashers.{Holds256};
ghost use Rattle.stateful_db_any.specs.Ops.{op_bytes};

use crate::op::AnyOp;
use sha2::{Digest as Hasher, Sha256};
use stateful_base::Digest;
use stateful_db_log::{Field, Linked};

/// A map is made of a whole range of operations, and of none alone.
impl<K: Field, V: Field> Linked for AnyOp<K, V> {
    ghost use Rattle.std.specs.Prelude.{false};
    ghost use Rattle.stateful_db_log.specs.Linking.{log_link};
    ghost use Rattle.stateful_db_any.specs.Ops.{op_bytes};

    ghost linked = { log_link (op_bytes K.fields.spelling V.fields.spelling) };

    ghost alone = { λ op. false };

    fn link(&self, _at: u64, before: Digest) -> Digest {
        let mut hasher = Sha256::new();
        hasher.update(&before.0);
        add_op(self, &mut hasher);
        Digest(hasher.finalize())
    }

    fn stands_alone(&self) -> bool {
        false
    }
}

/// Adds the bytes of an operation to a message.
fn add_op<K: Field, V: Field>(op: &AnyOp<K, V>, hasher: &mut Sha256)
    ensures { (m : List ℕ)
        → Holds256 hasher.old m
        → Holds256 hasher.new (m ++ op_bytes K.fields.spelling V.fields.spelling op.now) }
{
    match op {
        AnyOp::Commit(None) => hasher.update(&[0, 0]),
        AnyOp::Commit(Some(metadata)) => {
            hasher.update(&[0, 1]);
            metadata.add_to(hasher);
        }
        AnyOp::Update(key, value) => {
            hasher.update(&[1]);
            key.add_to(hasher);
            value.add_to(hasher);
        }
        AnyOp::Delete(key) => {
            hasher.update(&[2]);
            key.add_to(hasher);
        }
    }
}
