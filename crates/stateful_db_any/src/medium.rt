//! What a database of keys leaves.

use crate::op::AnyOp;
use stateful_base::{Digest, Faulty};
use stateful_db::DbCall;
use stateful_db_log::{Field, LogMedium};
use std::alloc::Global;

/// The kept checkpoints, and the next batch id. Of the calls of databases that are made on it,
/// those that it lists fail.
#[derive(Drop)]
pub struct AnyMedium<K, V> {
    pub medium: LogMedium<AnyOp<K, V>>,
}

impl<K: Drop, V: Drop> Faulty for AnyMedium<K, V> {
    ghost use Rattle.stateful_db_any.specs.Stored.{calls_of};

    ghost count = { λ m. (calls_of m).faults };

    fn faults(&self) -> u64 {
        self.medium.faults()
    }
}

impl<K: Field, V: Field> AnyMedium<K, V> {
    ghost use Rattle.std.specs.Prelude.{◌≡◌, [], ◌∷◌, None};
    ghost use Rattle.stateful_db.specs.Calls.{uncalled};
    ghost use Rattle.stateful_db_log.specs.Chained.{unlinked};
    ghost use Rattle.stateful_db_any.specs.Any.{initial};
    ghost use Rattle.stateful_db_any.specs.declared.op.AnyOp.{AnyOp};
    ghost use Rattle.stateful_db_any.specs.Stored.{disk_of, next_of, calls_of, held_of};

    /// A medium with one commit alone. The calls that are listed, by kind and by number from 0 on,
    /// fail.
    pub fn empty(alloc: Global, failing: Vec<(DbCall, u64)>) -> AnyMedium<K, V>
        ensures disk { disk_of result ≡ record {
          older = [];
          newest = initial K.fields.spelling V.fields.spelling;
          pruned = 0;
          durable = 0;
        } }
        ensures next { next_of result ≡ 1 }
        ensures calls { calls_of result ≡ uncalled failing.items }
        ensures held { held_of result
            ≡ record { first = 0; before = unlinked; ops = AnyOp.Commit None ∷ [] } }
    {
        AnyMedium {
            medium: LogMedium::new(alloc, AnyOp::Commit(None), Digest::of(&[0; 34]), failing),
        }
    }
}
