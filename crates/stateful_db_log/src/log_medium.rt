//! What a log database leaves.

ghost use Rattle.std.specs.Prelude.{◌≡◌, ◌≤◌, ◌+◌, ◌-◌, ℕ, min, take, length, slice_get, Some};
ghost use Rattle.stateful_db.specs.Disk.{all};
ghost use Rattle.stateful_db_medium.specs.Kept as kept;
ghost use Rattle.stateful_db_medium.specs.declared.checkpoints.Checkpoint.{Checkpoint};

use crate::open_log::OpenLog;
use crate::run::Run;
use stateful_base::{Digest, Faulty, Location, Target};
use stateful_db::{DbCall, InitError};
use stateful_db_medium::{Checkpoint, Medium};
use std::alloc::Global;

/// The checkpoints, the operations from the location `first` up to the end of the newest one, and
/// the digest before these. Each checkpoint begins and ends at `first` or behind it.
#[derive(Drop)]
pub struct LogMedium<Op> {
    pub(crate) medium: Medium<()>,
    pub(crate) first: u64,
    pub(crate) before: Digest,
    pub(crate) ops: Run<Op>,
    ghost begins: { (i : ℕ) (k : Checkpoint (Unit {0}))
        → slice_get (all (kept.disk_of medium)) i ≡ Some k
        → first ≤ min k.target.start.0 k.target.end.0 },
    ghost ends: { (kept.disk_of medium).newest.target.end.0 ≡ first + length ops },
}

impl<Op> Faulty for LogMedium<Op> {
    ghost use Rattle.stateful_db_log.specs.Logs.{calls_of};

    ghost count = { λ m. (calls_of m).faults };

    fn faults(&self) -> u64 {
        self.medium.faults()
    }
}

impl<Op: Drop> LogMedium<Op> {
    ghost use Rattle.std.specs.Prelude.{◌≢◌, ◌⊎◌, ◌<◌, ◌↔◌, [], ◌∷◌, IsTrue, IfOk, IfErr, IsErrAnd};
    ghost use Rattle.stateful_base.specs.Causes.{Rose};
    ghost use Rattle.stateful_db.specs.Disk.{IsCrash};
    ghost use Rattle.stateful_db.specs.Reopening.{FailsToReopen, HasNone, OpensAt};
    ghost use Rattle.stateful_db.specs.declared.database.DbCall.{DbCall};
    ghost use Rattle.stateful_db.specs.Calls.{uncalled, IsListed, Called};
    ghost use Rattle.stateful_db_medium.specs.Ranged.{range_of};
    ghost use Rattle.stateful_db_medium.specs.Openings.{IsNumberOf};
    ghost use Rattle.stateful_db_log.specs.Chained.{unlinked};
    ghost use Rattle.stateful_db_log.specs.Held.{until};
    ghost use Rattle.stateful_db_log.specs.Logs.{disk_of, next_of, calls_of, held_of};
    ghost use Rattle.stateful_db_log.specs.Logs.{standing_of, next_here, calls_here, held_here};

    /// A medium with one operation alone, behind which this digest stands, and 32 bytes that are 0
    /// before it. The calls that are listed, by kind and by number from 0 on, fail.
    pub fn new(alloc: Global, op: Op, root: Digest, failing: Vec<(DbCall, u64)>) -> LogMedium<Op>
        ensures disk { disk_of result ≡ record {
          older = [];
          newest = record {
            target = record { root = root; start = record { 0 = 0 }; end = record { 0 = 1 } };
            kept = op ∷ [];
          };
          pruned = 0;
          durable = 0;
        } }
        ensures next { next_of result ≡ 1 }
        ensures calls { calls_of result ≡ uncalled failing.items }
        ensures held { held_of result ≡ record { first = 0; before = unlinked; ops = op ∷ [] } }
    {
        let target = Target {
            root,
            start: Location(0),
            end: Location(1),
        };
        LogMedium {
            medium: Medium::new(alloc, Checkpoint { target, kept: () }, failing),
            first: 0,
            before: Digest([0; 32]),
            ops: Run::one(alloc, op),
        }
    }

    /// Its allocator.
    pub fn allocator(&self) -> Global {
        self.medium.allocator()
    }

    /// Makes a call of this kind. Whether it is to fail, which is then counted.
    pub fn fails(&mut self, call: DbCall) -> bool
        ensures listed { IsTrue result ↔ IsListed (calls_of self.old) call }
        ensures called { Called call (calls_of self.old) (calls_of self.new) }
        ensures count { (calls_of self.old).faults ≤ (calls_of self.new).faults }
        ensures rose { IsTrue result → Rose (calls_of self.old).faults (calls_of self.new).faults }
        ensures disk { disk_of self.new ≡ disk_of self.old }
        ensures next { next_of self.new ≡ next_of self.old }
        ensures held { held_of self.new ≡ held_of self.old }
    {
        self.medium.fails(call)
    }

    /// The number of the kept checkpoint of this target, or of the latest. This is a call of the
    /// kind `Init`; `Database` exactly where it is listed as a failing one, or no kept checkpoint
    /// has the expected end.
    pub fn number_to_open(&mut self, expected: Option<Target>) -> Result<usize, InitError>
        ensures ok { IfOk result (λ n. IsNumberOf range_of (λ t. t) expected (disk_of self.old) n) }
        ensures within { IfOk result (λ n. n < length (all (disk_of self.old))) }
        ensures cause { IfErr result (λ e.
            FailsToReopen range_of (λ t. t) expected (disk_of self.old)
            (Rose (calls_of self.old).faults (calls_of self.new).faults) e) }
        ensures listed { IsListed (calls_of self.old) DbCall.Init
            → IsErrAnd result (λ e. e ≡ InitError.Database) }
        ensures unlisted { IfErr result (λ e.
            e ≡ InitError.Database
            → IsListed (calls_of self.old) DbCall.Init
            ⊎ HasNone range_of (λ t. t) expected (disk_of self.old)) }
        ensures memory { IfErr result (λ e. e ≢ InitError.OutOfMemory) }
        ensures called { Called DbCall.Init (calls_of self.old) (calls_of self.new) }
        ensures count { (calls_of self.old).faults ≤ (calls_of self.new).faults }
        ensures disk { disk_of self.new ≡ disk_of self.old }
        ensures next { next_of self.new ≡ next_of self.old }
        ensures held { held_of self.new ≡ held_of self.old }
    {
        self.medium.number_to_open(expected)
    }

    /// Opened at the kept checkpoint of this number, which is then the last and the durable one.
    pub fn open(self, number: usize) -> OpenLog<Op>
        requires { number < length (all (disk_of self)) }
        ensures opens { OpensAt range_of (λ t. t) number (disk_of self) (standing_of result) }
        ensures next { next_here result ≡ next_of self }
        ensures calls { calls_here result ≡ calls_of self }
        ensures held { held_here result
            ≡ until (held_of self) (standing_of result).disk.newest.target.end.0 }
    {
        let LogMedium {
            medium,
            first,
            before,
            ops,
        } = self;
        let opened = medium.open(number);
        let left = cut_off(first, ops, opened.newest().target.end);
        OpenLog {
            opened,
            first,
            before,
            ops: left,
        }
    }

    /// What a crash leaves: the durable checkpoints, and of the others as many as `keep` allows.
    pub fn cut(self, keep: usize) -> LogMedium<Op>
        ensures disk { IsCrash keep (disk_of self) (disk_of result) }
        ensures next { next_of result ≡ next_of self }
        ensures calls { calls_of result ≡ calls_of self }
        ensures held { held_of result
            ≡ until (held_of self) (disk_of result).newest.target.end.0 }
    {
        let LogMedium {
            mut medium,
            first,
            before,
            ops,
        } = self;
        medium.cut(keep);
        let left = cut_off(first, ops, medium.newest().target.end);
        LogMedium {
            medium,
            first,
            before,
            ops: left,
        }
    }

    /// One durable checkpoint in place of all that are kept, with the operations of its range and
    /// the digest before them. It takes no memory. The next batch id and the calls stay.
    pub fn replaced(self, target: Target, before: Digest, ops: Vec<Op>) -> LogMedium<Op>
        requires ranged { target.start.0 < target.end.0 }
        requires whole { length ops.items ≡ target.end.0 - target.start.0 }
        ensures disk { disk_of result ≡ record {
          older = [];
          newest = record { target = target; kept = ops.items };
          pruned = 0;
          durable = 0;
        } }
        ensures held { held_of result
            ≡ record { first = target.start.0; before = before; ops = ops.items } }
        ensures next { next_of result ≡ next_of self }
        ensures calls { calls_of result ≡ calls_of self }
    {
        LogMedium {
            medium: self.medium.replaced(Checkpoint { target, kept: () }),
            first: target.start.0,
            before,
            ops: Run::of(ops),
        }
    }
}

/// Of operations that begin at `first`, those before an end.
fn cut_off<Op: Drop>(first: u64, ops: Run<Op>, end: Location) -> Run<Op>
    ensures { result ≡ take (end.0 - first) ops }
{
    let mut ops = ops;
    ops.truncate(end.0.saturating_sub(first));
    ops
}
