//! What a compact database leaves.

use super::state::{Commit, initial};
use stateful_base::Faulty;
use stateful_db::DbCall;
use stateful_db_log::Field;
use stateful_db_medium::Medium;
use std::alloc::Global;

/// The kept checkpoints, and the next batch id. Of the calls of databases that are made on it,
/// those that it lists fail.
#[derive(Drop)]
pub struct CompactMedium<V> {
    pub medium: Medium<Commit<V>>,
}

impl<V: Drop> Faulty for CompactMedium<V> {
    ghost use Rattle.stateful_db_compact.specs.CompactStored.{calls_of};

    ghost count = { λ m. (calls_of m).faults };

    fn faults(&self) -> u64 {
        self.medium.faults()
    }
}

impl<V: Field> CompactMedium<V> {
    ghost use Rattle.std.specs.Prelude.{◌≡◌, []};
    ghost use Rattle.stateful_db.specs.Calls.{uncalled};
    ghost use Rattle.stateful_db_compact.specs.Compacted.{initial};
    ghost use Rattle.stateful_db_compact.specs.CompactStored.{disk_of, next_of, calls_of};

    /// A medium with one commit alone. The calls that are listed, by kind and by number from 0 on,
    /// fail.
    pub fn empty(alloc: Global, failing: Vec<(DbCall, u64)>) -> CompactMedium<V>
        ensures disk { disk_of result
            ≡ record { older = []; newest = initial V.fields.spelling; pruned = 0; durable = 0 } }
        ensures next { next_of result ≡ 1 }
        ensures calls { calls_of result ≡ uncalled failing.items }
    {
        CompactMedium {
            medium: Medium::new(alloc, initial(), failing),
        }
    }
}
