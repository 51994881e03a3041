//! What a keyless database leaves.

use stateful_base::{Digest, Faulty};
use stateful_db::DbCall;
use stateful_db_compact::KeylessOp;
use stateful_db_log::{Field, LogMedium};
use std::alloc::Global;

/// The kept checkpoints, and the next batch id. Of the calls of databases that are made on it,
/// those that it lists fail.
#[derive(Drop)]
pub struct KeylessMedium<V> {
    pub medium: LogMedium<KeylessOp<V>>,
}

impl<V: Drop> Faulty for KeylessMedium<V> {
    ghost use Rattle.stateful_db_keyless.specs.KeylessStored.{calls_of};

    ghost count = { λ m. (calls_of m).faults };

    fn faults(&self) -> u64 {
        self.medium.faults()
    }
}

impl<V: Field> KeylessMedium<V> {
    ghost use Rattle.std.specs.Prelude.{◌≡◌, ◌∷◌, [], None};
    ghost use Rattle.stateful_db.specs.Calls.{uncalled};
    ghost use Rattle.stateful_db_log.specs.Chained.{unlinked};
    ghost use Rattle.stateful_db_compact.specs.declared.op.KeylessOp.TheVariants.{Commit};
    ghost use Rattle.stateful_db_keyless.specs.Keyless.{initial};
    ghost use Rattle.stateful_db_keyless.specs.KeylessStored.{disk_of, next_of, calls_of, held_of};

    /// A medium with one commit alone. The calls that are listed, by kind and by number from 0 on,
    /// fail.
    pub fn empty(alloc: Global, failing: Vec<(DbCall, u64)>) -> KeylessMedium<V>
        ensures disk { disk_of result
            ≡ record { older = []; newest = initial V.fields.spelling; pruned = 0; durable = 0 } }
        ensures next { next_of result ≡ 1 }
        ensures calls { calls_of result ≡ uncalled failing.items }
        ensures held { held_of result
            ≡ record { first = 0; before = unlinked; ops = Commit None 0 ∷ [] } }
    {
        let commit = KeylessOp::Commit {
            metadata: None,
            floor: 0,
        };
        KeylessMedium {
            medium: LogMedium::new(alloc, commit, Digest::of(&[0; 42]), failing),
        }
    }
}
