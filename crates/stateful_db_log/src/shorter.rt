//! A log that gets shorter.

ghost use Rattle.std.specs.Prelude.{◌≡◌, ◌≤◌, ◌+◌, ◌↔◌, [], ℕ, min, length, slice_get, Some};
ghost use Rattle.std.specs.Prelude.{IfOk, IfErr, IsErrAnd};
ghost use Rattle.stateful_db.specs.Disk.{all};
ghost use Rattle.stateful_db.specs.declared.database.DbCall.{DbCall};
ghost use Rattle.stateful_db_medium.specs.Kept as kept;
ghost use Rattle.stateful_db_medium.specs.Mapped.{mapped};
ghost use Rattle.stateful_db.specs.Calls.{IsListed};
ghost use Rattle.stateful_db_medium.specs.declared.checkpoints.Checkpoint.{Checkpoint};
ghost use Rattle.stateful_db_log.specs.Between.{state_in};
ghost use Rattle.stateful_db_log.specs.Held.{from};
ghost use Rattle.stateful_db_log.specs.Logs.{begin_of, standing_of, calls_here, held_here};
ghost use Rattle.stateful_db_log.specs.Pruned.{Pruned, Unpruned};

use crate::linked::Linked;
use crate::log_medium::LogMedium;
use crate::open_log::{OpenLog, broken};
use crate::run::Run;
use stateful_base::Digest;
use stateful_db::{Broken, DbCall, Why};
use stateful_db_medium::Opened;

impl<Op: Linked> OpenLog<Op> {
    /// Takes no memory. Drops so many of the oldest checkpoints, and the operations below the start
    /// of the oldest that is left (or below its end where that is before). The digest before those
    /// that are left is kept. The durable checkpoint stays, and no token may be out.
    pub fn prune_first(self, count: usize) -> Result<OpenLog<Op>, Broken<LogMedium<Op>>>
        requires idle { (standing_of self).out ≡ [] }
        requires within { count ≤ length (standing_of self).disk.older }
        requires kept { (standing_of self).disk.pruned + count ≤ (standing_of self).disk.durable }
        ensures ok { IfOk result (Pruned Op.linked count self) }
        ensures err { IfErr result (Unpruned self) }
        ensures listed { IsErrAnd result (λ b. b.why ≡ Why.Failed)
            ↔ IsListed (calls_here self) DbCall.Prune }
    {
        let OpenLog {
            opened,
            first,
            before,
            ops,
        } = self;
        match opened.prune_first(count) {
            Ok(opened) => Ok(shortened(opened, first, before, ops)),
            Err(change) => Err(broken(change, first, before, ops)),
        }
    }
}

/// Without the operations that no kept checkpoint has.
fn shortened<Op: Linked>(
    opened: Opened<()>,
    first: u64,
    before: Digest,
    ops: Run<Op>,
) -> OpenLog<Op>
    requires begins { (i : ℕ) (k : Checkpoint (Unit {0}))
        → slice_get (all (kept.standing_of opened).disk) i ≡ Some k
        → first ≤ min k.target.start.0 k.target.end.0 }
    requires ends { (kept.standing_of opened).disk.newest.target.end.0 ≡ first + length ops }
    ensures opened { result.opened ≡ opened }
    ensures disk { mapped (state_in result.first result.ops) (kept.standing_of opened).disk
        ≡ mapped (state_in first ops) (kept.standing_of opened).disk }
    ensures begin { result.first ≡ begin_of (kept.standing_of opened).disk }
    ensures later { first ≤ result.first }
    ensures held { held_here result
        ≡ from Op.linked (record { first = first; before = before; ops = ops }) result.first }
{
    let oldest = opened.oldest().target;
    let later = oldest.start.0.min(oldest.end.0);
    let digest = ops.link_first(later - first, first, before);
    let mut ops = ops;
    ops.drop_first(later - first);
    OpenLog {
        opened,
        first: later,
        before: digest,
        ops,
    }
}
