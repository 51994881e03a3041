//! What a database leaves.

ghost use Rattle.stateful_db.specs.Disk.{all};
ghost use Rattle.stateful_db_medium.specs.Kept as kept;
ghost use Rattle.stateful_db_plain.specs.Rooted.{AreRooted};

use crate::state::{PlainState, checkpoint};
use stateful_base::Faulty;
use stateful_db::DbCall;
use stateful_db_medium::Medium;
use std::alloc::Global;

/// The kept checkpoints, each a whole state with its target, and the next batch id. Of the calls of
/// databases that are made on it, those that it lists fail.
#[derive(Drop)]
pub struct PlainMedium {
    pub(crate) medium: Medium<PlainState>,
    ghost rooted: { AreRooted (all (kept.disk_of medium)) },
}

impl Faulty for PlainMedium {
    ghost use Rattle.stateful_db_plain.specs.Stored.{calls_of};

    ghost count = { λ m. (calls_of m).faults };

    fn faults(&self) -> u64 {
        self.medium.faults()
    }
}

impl PlainMedium {
    ghost use Rattle.std.specs.Prelude.{◌≡◌, ◌≤◌, ◌↔◌, [], IsTrue};
    ghost use Rattle.stateful_base.specs.Causes.{Rose};
    ghost use Rattle.stateful_db.specs.declared.database.DbCall.{DbCall};
    ghost use Rattle.stateful_db.specs.Calls.{uncalled, IsListed, Called};
    ghost use Rattle.stateful_db_plain.specs.Stored.{disk_of, next_of, calls_of};
    ghost use Rattle.stateful_db_plain.specs.Whole.{initial};

    /// A medium with the empty state alone. The calls that are listed, by kind and by number from 0
    /// on, fail.
    pub fn empty(alloc: Global, failing: Vec<(DbCall, u64)>) -> PlainMedium
        ensures disk { disk_of result
            ≡ record { older = []; newest = initial; pruned = 0; durable = 0 } }
        ensures next { next_of result ≡ 1 }
        ensures calls { calls_of result ≡ uncalled failing.items }
    {
        let first = checkpoint(PlainState::empty(alloc));
        PlainMedium {
            medium: Medium::new(alloc, first, failing),
        }
    }

    /// The end of the range of the newest checkpoint.
    pub fn end(&self) -> u64
        ensures { result ≡ (disk_of self.now).newest.size }
    {
        self.medium.newest().kept.size()
    }

    /// How many of the oldest checkpoints were pruned.
    pub fn pruned(&self) -> u64
        ensures { result ≡ (disk_of self.now).pruned }
    {
        self.medium.pruned()
    }

    /// The place of the last durable checkpoint, the pruned ones counted.
    pub fn durable(&self) -> u64
        ensures { result ≡ (disk_of self.now).durable }
    {
        self.medium.durable()
    }

    /// Its allocator.
    pub fn allocator(&self) -> Global {
        self.medium.allocator()
    }

    /// Makes a call of this kind. Whether it is to fail, which is then counted.
    pub fn fails(&mut self, call: DbCall) -> bool
        ensures listed { IsTrue result ↔ IsListed (calls_of self.old) call }
        ensures called { Called call (calls_of self.old) (calls_of self.new) }
        ensures count { (calls_of self.old).faults ≤ (calls_of self.new).faults }
        ensures rose { IsTrue result → Rose (calls_of self.old).faults (calls_of self.new).faults }
        ensures disk { disk_of self.new ≡ disk_of self.old }
        ensures next { next_of self.new ≡ next_of self.old }
    {
        self.medium.fails(call)
    }
}
