//! What a database leaves: its checkpoints, the next batch id, and its calls.

ghost use Rattle.std.specs.Prelude.{◌<◌};

use crate::calls::Calls;
use crate::checkpoints::{Checkpoint, Checkpoints};
use crate::opened::Opened;
use stateful_base::{Faulty, Location, Target};
use stateful_db::{DbCall, InitError, Tokens};
use std::alloc::Global;

/// The kept checkpoints, and the next batch id. Of the calls of databases that are made on it,
/// those that it lists fail.
#[derive(Drop)]
pub struct Medium<X> {
    pub(crate) checkpoints: Checkpoints<X>,
    pub(crate) next: u64,
    pub(crate) calls: Calls,
    pub ghost numbered: { 0 < next },
}

impl<X: Drop> Faulty for Medium<X> {
    ghost count = { λ m. m.calls.faults };

    fn faults(&self) -> u64 {
        self.calls.faults()
    }
}

impl<X: Drop> Medium<X> {
    ghost use Rattle.std.specs.Prelude.{◌≡◌, ◌≢◌, ◌↔◌, ◌⊎◌, ◌+◌, ◌≤◌, [], length, slice_get, Some};
    ghost use Rattle.std.specs.Prelude.{◌==◌, position, IsTrue, IfOk, IfErr, IsErrAnd};
    ghost use Rattle.stateful_base.specs.Causes.{Rose};
    ghost use Rattle.stateful_db.specs.Disk.{all, IsCrash};
    ghost use Rattle.stateful_db.specs.Reopening.{FailsToReopen, HasNone, OpensAt};
    ghost use Rattle.stateful_db.specs.declared.database.DbCall.{DbCall};
    ghost use Rattle.stateful_db.specs.Calls.{uncalled, IsListed, Called};
    ghost use Rattle.stateful_db_medium.specs.Ranged.{range_of};
    ghost use Rattle.stateful_db_medium.specs.Kept.{disk_of, next_of, calls_of, medium_of};
    ghost use Rattle.stateful_db_medium.specs.Kept.{standing_of};
    ghost use Rattle.stateful_db_medium.specs.Openings.{IsNumberOf};

    /// A medium with one checkpoint. The calls that are listed, by kind and by number from 0 on,
    /// fail.
    pub fn new(alloc: Global, first: Checkpoint<X>, failing: Vec<(DbCall, u64)>) -> Medium<X>
        requires { 0 < first.target.end.0 }
        ensures disk { disk_of result
            ≡ record { older = []; newest = first; pruned = 0; durable = 0 } }
        ensures next { next_of result ≡ 1 }
        ensures calls { calls_of result ≡ uncalled failing.items }
    {
        Medium {
            checkpoints: Checkpoints::new(alloc, first),
            next: 1,
            calls: Calls::new(failing),
        }
    }

    /// Its allocator.
    pub fn allocator(&self) -> Global {
        self.checkpoints.allocator()
    }

    /// Makes a call of this kind. Whether it is to fail, which is then counted.
    pub fn fails(&mut self, call: DbCall) -> bool
        ensures listed { IsTrue result ↔ IsListed (calls_of self.old) call }
        ensures called { Called call (calls_of self.old) (calls_of self.new) }
        ensures count { (calls_of self.old).faults ≤ (calls_of self.new).faults }
        ensures rose { IsTrue result → Rose (calls_of self.old).faults (calls_of self.new).faults }
        ensures disk { disk_of self.new ≡ disk_of self.old }
        ensures next { next_of self.new ≡ next_of self.old }
    {
        self.calls.fails(call)
    }

    /// The number of the kept checkpoint of this target, or of the latest. This is a call of the
    /// kind `Init`; `Database` exactly where it is listed as a failing one, or no kept checkpoint
    /// has the expected end.
    pub fn number_to_open(&mut self, expected: Option<Target>) -> Result<usize, InitError>
        ensures ok { IfOk result (λ n. IsNumberOf range_of (λ t. t) expected (disk_of self.old) n) }
        ensures within { IfOk result (λ n. n < length (all (disk_of self.old))) }
        ensures cause { IfErr result (λ e.
            FailsToReopen range_of (λ t. t) expected (disk_of self.old)
            (Rose (calls_of self.old).faults (calls_of self.new).faults) e) }
        ensures listed { IsListed (calls_of self.old) DbCall.Init
            → IsErrAnd result (λ e. e ≡ InitError.Database) }
        ensures unlisted { IfErr result (λ e.
            e ≡ InitError.Database
            → IsListed (calls_of self.old) DbCall.Init
            ⊎ HasNone range_of (λ t. t) expected (disk_of self.old)) }
        ensures memory { IfErr result (λ e. e ≢ InitError.OutOfMemory) }
        ensures called { Called DbCall.Init (calls_of self.old) (calls_of self.new) }
        ensures count { (calls_of self.old).faults ≤ (calls_of self.new).faults }
        ensures disk { disk_of self.new ≡ disk_of self.old }
        ensures next { next_of self.new ≡ next_of self.old }
    {
        if self.fails(DbCall::Init) {
            return Err(InitError::Database);
        }
        self.checkpoints.number_to_open(expected)
    }

    /// The number of the first kept checkpoint whose range has this end.
    pub fn number_with_end(&self, end: Location) -> Option<usize>
        ensures { result ≡ position (λ s. s.target.end.0 == end.0) (all (disk_of self.now)) }
    {
        self.checkpoints.number_with_end(end)
    }

    /// How many of the oldest checkpoints were pruned.
    pub fn pruned(&self) -> u64
        ensures { result ≡ (disk_of self.now).pruned }
    {
        self.checkpoints.pruned()
    }

    /// The place of the last durable checkpoint, the pruned ones counted.
    pub fn durable(&self) -> u64
        ensures { result ≡ (disk_of self.now).durable }
    {
        self.checkpoints.durable()
    }

    /// The number of the newest.
    pub fn latest(&self) -> usize
        ensures { result ≡ length (disk_of self.now).older }
    {
        self.checkpoints.latest()
    }

    /// The kept checkpoint of this number.
    pub fn get(&self, number: usize) -> &Checkpoint<X>
        requires { number < length (all (disk_of self.now)) }
        ensures { slice_get (all (disk_of self.now)) number ≡ Some result.now }
    {
        self.checkpoints.get(number)
    }

    /// The newest checkpoint.
    pub fn newest(&self) -> &Checkpoint<X>
        ensures { result.now ≡ (disk_of self.now).newest }
    {
        self.checkpoints.newest()
    }

    /// Opened at the kept checkpoint of this number, which is then the last and the durable one.
    pub fn open(self, number: usize) -> Opened<X>
        requires { number < length (all (disk_of self)) }
        ensures opens { OpensAt range_of (λ t. t) number (disk_of self) (standing_of result) }
        ensures next { next_of (medium_of result) ≡ next_of self }
        ensures calls { calls_of (medium_of result) ≡ calls_of self }
    {
        let mut medium = self;
        medium.checkpoints.open_at(number);
        Opened {
            id: 0,
            out: Tokens::new(),
            medium,
        }
    }

    /// One durable checkpoint in place of all that are kept. It takes no memory. The next batch id
    /// and the calls stay.
    pub fn replaced(self, checkpoint: Checkpoint<X>) -> Medium<X>
        requires { 0 < checkpoint.target.end.0 }
        ensures disk { disk_of result
            ≡ record { older = []; newest = checkpoint; pruned = 0; durable = 0 } }
        ensures next { next_of result ≡ next_of self }
        ensures calls { calls_of result ≡ calls_of self }
    {
        let mut medium = self;
        medium.checkpoints = Checkpoints::new(medium.allocator(), checkpoint);
        medium
    }

    /// What a crash leaves: the durable checkpoints, and of the others as many as `keep` allows.
    pub fn cut(&mut self, keep: usize)
        ensures disk { IsCrash keep (disk_of self.old) (disk_of self.new) }
        ensures next { next_of self.new ≡ next_of self.old }
        ensures calls { calls_of self.new ≡ calls_of self.old }
    {
        self.checkpoints.cut(keep);
    }
}
