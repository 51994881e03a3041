//! What an open log database adds to its medium.

ghost use Rattle.std.specs.Prelude.{◌≡◌, ◌≤◌, ◌+◌, ℕ, min, length, slice_get, Some};
ghost use Rattle.stateful_db.specs.Disk.{all};
ghost use Rattle.stateful_db_medium.specs.Kept as kept;
ghost use Rattle.stateful_db_medium.specs.declared.checkpoints.Checkpoint.{Checkpoint};

use crate::log_medium::LogMedium;
use crate::longer::longer;
use crate::run::Run;
use stateful_base::{Digest, Faulty, Location, Target};
use stateful_db::{Broken, DbCall, Exhausted, FlushToken, Why};
use stateful_db_medium::{Medium, Opened};
use std::alloc::Global;

/// An open database, the operations from the location `first` up to the end of the newest
/// checkpoint, and the digest before these. Each checkpoint begins and ends at `first` or behind it.
#[derive(Drop)]
pub struct OpenLog<Op> {
    pub(crate) opened: Opened<()>,
    pub(crate) first: u64,
    pub(crate) before: Digest,
    pub(crate) ops: Run<Op>,
    ghost begins: { (i : ℕ) (k : Checkpoint (Unit {0}))
        → slice_get (all (kept.standing_of opened).disk) i ≡ Some k
        → first ≤ min k.target.start.0 k.target.end.0 },
    ghost ends: { (kept.standing_of opened).disk.newest.target.end.0 ≡ first + length ops },
}

impl<Op> Faulty for OpenLog<Op> {
    ghost use Rattle.stateful_db_log.specs.Logs.{calls_here};

    ghost count = { λ o. (calls_here o).faults };

    fn faults(&self) -> u64 {
        self.opened.faults()
    }
}

impl<Op: Drop> OpenLog<Op> {
    ghost use Rattle.std.specs.Prelude.{◌≢◌, ◌<◌, ◌-◌, ◌^◌, ◌++◌, ◌∷◌, [], ◌==◌, ◌↔◌, position};
    ghost use Rattle.std.specs.Prelude.{Contains, IfOk, IfErr, IsErrAnd};
    ghost use Rattle.stateful_base.specs.Causes.{Rose};
    ghost use Rattle.stateful_db.specs.Disk.{place, flushed, applied};
    ghost use Rattle.stateful_db.specs.Tokens.{without};
    ghost use Rattle.stateful_db.specs.declared.database.DbCall.{DbCall};
    ghost use Rattle.stateful_db.specs.Calls.{IsListed, Called};
    ghost use Rattle.stateful_db_log.specs.Held.{further};
    ghost use Rattle.stateful_db_log.specs.Logs.{extended, disk_of, next_of, calls_of, held_of};
    ghost use Rattle.stateful_db_log.specs.Logs.{standing_of, next_here, calls_here, held_here};

    /// The id of the last applied batch.
    pub fn id(&self) -> u64
        ensures { result ≡ (standing_of self.now).id }
    {
        self.opened.id()
    }

    /// The root of the newest checkpoint, with its range.
    pub fn target(&self) -> Target
        ensures { result ≡ (standing_of self.now).disk.newest.target }
    {
        self.opened.newest().target
    }

    /// Its allocator.
    pub fn allocator(&self) -> Global {
        self.opened.allocator()
    }

    /// The medium as it is.
    pub fn close(self) -> LogMedium<Op>
        ensures disk { disk_of result ≡ (standing_of self).disk }
        ensures next { next_of result ≡ next_here self }
        ensures calls { calls_of result ≡ calls_here self }
        ensures held { held_of result ≡ held_here self }
    {
        let OpenLog {
            opened,
            first,
            before,
            ops,
        } = self;
        LogMedium {
            medium: opened.close(),
            first,
            before,
            ops,
        }
    }

    /// Draws a batch id.
    pub fn draw(&mut self) -> Result<u64, Exhausted>
        ensures id { IfOk result (λ n.
            (n ≡ next_here self.old) × (next_here self.new ≡ next_here self.old + 1)) }
        ensures exhausted { IfErr result (λ _.
            (2 ^ 64 - 1 ≤ next_here self.old) × (next_here self.new ≡ next_here self.old)) }
        ensures within { IfOk result (λ n. n < 2 ^ 64 - 1) }
        ensures standing { standing_of self.new ≡ standing_of self.old }
        ensures calls { calls_here self.new ≡ calls_here self.old }
        ensures held { held_here self.new ≡ held_here self.old }
    {
        self.opened.draw()
    }

    /// Makes a call of this kind. It fails exactly where it is listed as a failing one.
    pub fn begin(self, call: DbCall) -> Result<OpenLog<Op>, Broken<LogMedium<Op>>>
        ensures ok { IfOk result (λ o. standing_of o ≡ standing_of self) }
        ensures ok_next { IfOk result (λ o. next_here o ≡ next_here self) }
        ensures ok_count { IfOk result (λ o. (calls_here self).faults ≤ (calls_here o).faults) }
        ensures ok_called { IfOk result (λ o. Called call (calls_here self) (calls_here o)) }
        ensures ok_held { IfOk result (λ o. held_here o ≡ held_here self) }
        ensures err { IfErr result (λ b. disk_of b.medium ≡ (standing_of self).disk) }
        ensures err_next { IfErr result (λ b. next_of b.medium ≡ next_here self) }
        ensures err_count { IfErr result (λ b. (calls_here self).faults ≤ (calls_of b.medium).faults) }
        ensures err_called { IfErr result (λ b. Called call (calls_here self) (calls_of b.medium)) }
        ensures err_held { IfErr result (λ b. held_of b.medium ≡ held_here self) }
        ensures failed { IfErr result (λ b.
            Rose (calls_here self).faults (calls_of b.medium).faults) }
        ensures why { IfErr result (λ b. b.why ≡ Why.Failed) }
        ensures err_listed { IfErr result (λ _. IsListed (calls_here self) call) }
        ensures ok_listed { IfOk result (λ _. IsListed (calls_here self) call → ⊥) }
    {
        let OpenLog {
            opened,
            first,
            before,
            ops,
        } = self;
        match opened.begin(call) {
            Ok(opened) => Ok(OpenLog {
                opened,
                first,
                before,
                ops,
            }),
            Err(change) => Err(broken(change, first, before, ops)),
        }
    }

    /// Takes no memory. One token more is out, for all checkpoints.
    pub fn finalize(self) -> Result<(OpenLog<Op>, FlushToken), Broken<LogMedium<Op>>>
        requires { length (standing_of self).out < 2 }
        ensures ok { IfOk result (λ r. standing_of r.0
            ≡ record (standing_of self) { out = (standing_of self).out ++ r.1.place ∷ [] }) }
        ensures ok_place { IfOk result (λ r. r.1.place ≡ place (standing_of self).disk) }
        ensures ok_next { IfOk result (λ r. next_here r.0 ≡ next_here self) }
        ensures ok_count { IfOk result (λ r. (calls_here self).faults ≤ (calls_here r.0).faults) }
        ensures ok_called { IfOk result (λ r.
            Called DbCall.Finalize (calls_here self) (calls_here r.0)) }
        ensures ok_held { IfOk result (λ r. held_here r.0 ≡ held_here self) }
        ensures err { IfErr result (λ b. disk_of b.medium ≡ (standing_of self).disk) }
        ensures err_next { IfErr result (λ b. next_of b.medium ≡ next_here self) }
        ensures err_count { IfErr result (λ b. (calls_here self).faults ≤ (calls_of b.medium).faults) }
        ensures err_called { IfErr result (λ b.
            Called DbCall.Finalize (calls_here self) (calls_of b.medium)) }
        ensures err_held { IfErr result (λ b. held_of b.medium ≡ held_here self) }
        ensures failed { IfErr result (λ b.
            b.why ≡ Why.Failed → Rose (calls_here self).faults (calls_of b.medium).faults) }
        ensures listed { IsErrAnd result (λ b. b.why ≡ Why.Failed)
            ↔ IsListed (calls_here self) DbCall.Finalize }
        ensures memory { IfErr result (λ b. b.why ≢ Why.OutOfMemory) }
    {
        let OpenLog {
            opened,
            first,
            before,
            ops,
        } = self;
        match opened.finalize() {
            Ok((opened, token)) => Ok((
                OpenLog {
                    opened,
                    first,
                    before,
                    ops,
                },
                token,
            )),
            Err(change) => Err(broken(change, first, before, ops)),
        }
    }

    /// Takes no memory. The checkpoints that the token covers are durable, and the token is in.
    pub fn flush(self, token: FlushToken) -> Result<OpenLog<Op>, Broken<LogMedium<Op>>>
        requires { Contains (standing_of self).out token.place }
        ensures ok { IfOk result (λ o. standing_of o ≡ record (standing_of self) {
          disk = flushed (standing_of self).disk token.place;
          out = without token.place (standing_of self).out;
        }) }
        ensures ok_next { IfOk result (λ o. next_here o ≡ next_here self) }
        ensures ok_count { IfOk result (λ o. (calls_here self).faults ≤ (calls_here o).faults) }
        ensures ok_called { IfOk result (λ o.
            Called DbCall.Flush (calls_here self) (calls_here o)) }
        ensures ok_held { IfOk result (λ o. held_here o ≡ held_here self) }
        ensures err { IfErr result (λ b. disk_of b.medium ≡ (standing_of self).disk) }
        ensures err_next { IfErr result (λ b. next_of b.medium ≡ next_here self) }
        ensures err_count { IfErr result (λ b. (calls_here self).faults ≤ (calls_of b.medium).faults) }
        ensures err_called { IfErr result (λ b.
            Called DbCall.Flush (calls_here self) (calls_of b.medium)) }
        ensures err_held { IfErr result (λ b. held_of b.medium ≡ held_here self) }
        ensures failed { IfErr result (λ b.
            b.why ≡ Why.Failed → Rose (calls_here self).faults (calls_of b.medium).faults) }
        ensures listed { IsErrAnd result (λ b. b.why ≡ Why.Failed)
            ↔ IsListed (calls_here self) DbCall.Flush }
        ensures memory { IfErr result (λ b. b.why ≢ Why.OutOfMemory) }
    {
        let OpenLog {
            opened,
            first,
            before,
            ops,
        } = self;
        match opened.flush(token) {
            Ok(opened) => Ok(OpenLog {
                opened,
                first,
                before,
                ops,
            }),
            Err(change) => Err(broken(change, first, before, ops)),
        }
    }

    /// The number of the first kept checkpoint whose range has this end.
    pub fn number_with_end(&self, end: Location) -> Option<usize>
        ensures { result ≡ position (λ s. s.target.end.0 == end.0) (all (standing_of self.now).disk) }
    {
        self.opened.number_with_end(end)
    }

    /// Appends the operations of a batch that is applied, with no copy, and adds its checkpoint.
    /// Where its range doesn't end behind them, or starts before the newest one does, it is refused
    /// as if memory were wanting.
    pub fn apply(
        self,
        id: u64,
        more: Vec<Op>,
        target: Target,
    ) -> Result<OpenLog<Op>, Broken<LogMedium<Op>>>
        ensures ok { let s = standing_of self in IfOk result (λ o. standing_of o
            ≡ record s
            { id = id; disk = applied s.disk (extended s.disk.newest more.items target) }) }
        ensures ok_next { IfOk result (λ o. next_here o ≡ next_here self) }
        ensures ok_count { IfOk result (λ o. (calls_here self).faults ≤ (calls_here o).faults) }
        ensures ok_called { IfOk result (λ o.
            Called DbCall.Apply (calls_here self) (calls_here o)) }
        ensures ok_held { IfOk result (λ o. held_here o ≡ further (held_here self) more.items) }
        ensures err { IfErr result (λ b. disk_of b.medium ≡ (standing_of self).disk) }
        ensures err_next { IfErr result (λ b. next_of b.medium ≡ next_here self) }
        ensures err_count { IfErr result (λ b. (calls_here self).faults ≤ (calls_of b.medium).faults) }
        ensures err_called { IfErr result (λ b.
            Called DbCall.Apply (calls_here self) (calls_of b.medium)) }
        ensures err_held { IfErr result (λ b. held_of b.medium ≡ held_here self) }
        ensures failed { IfErr result (λ b.
            b.why ≡ Why.Failed → Rose (calls_here self).faults (calls_of b.medium).faults) }
        ensures listed { IsErrAnd result (λ b. b.why ≡ Why.Failed)
            ↔ IsListed (calls_here self) DbCall.Apply }
    {
        let OpenLog {
            opened,
            first,
            before,
            ops,
        } = self;
        let opened = match opened.begin(DbCall::Apply) {
            Ok(opened) => opened,
            Err(change) => return Err(broken(change, first, before, ops)),
        };
        match longer(
            OpenLog {
                opened,
                first,
                before,
                ops,
            },
            id,
            more,
            target,
        ) {
            Ok(log) => Ok(log),
            Err(medium) => Err(Broken {
                medium,
                why: Why::OutOfMemory,
            }),
        }
    }
}

/// The failed change of a log database.
pub(crate) fn broken<Op>(
    change: Broken<Medium<()>>,
    first: u64,
    before: Digest,
    ops: Run<Op>,
) -> Broken<LogMedium<Op>>
    requires begins { (i : ℕ) (k : Checkpoint (Unit {0}))
        → slice_get (all (kept.disk_of change.medium)) i ≡ Some k
        → first ≤ min k.target.start.0 k.target.end.0 }
    requires ends { (kept.disk_of change.medium).newest.target.end.0 ≡ first + length ops }
    ensures medium { result.medium.medium ≡ change.medium }
    ensures first { result.medium.first ≡ first }
    ensures before { result.medium.before ≡ before }
    ensures ops { result.medium.ops ≡ ops }
    ensures why { result.why ≡ change.why }
{
    let Broken { medium, why } = change;
    Broken {
        medium: LogMedium {
            medium,
            first,
            before,
            ops,
        },
        why,
    }
}
