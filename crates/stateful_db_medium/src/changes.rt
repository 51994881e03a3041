//! Changes of an open database that keep a call: they fail exactly where the call is listed as a
//! failing one.

ghost use Rattle.std.specs.Prelude.{◌≡◌, ◌≢◌, ◌≤◌, ◌<◌, ◌+◌, ◌∷◌, ◌++◌, [], ◌↔◌, length, Contains};
ghost use Rattle.std.specs.Prelude.{IfOk, IfErr, IsErrAnd};
ghost use Rattle.stateful_base.specs.Causes.{Rose};
ghost use Rattle.stateful_db.specs.Disk.{place, applied, flushed, cut};
ghost use Rattle.stateful_db.specs.Tokens.{without};
ghost use Rattle.stateful_db.specs.Calls.{IsListed, Called};
ghost use Rattle.stateful_db_medium.specs.Kept.{disk_of, next_of, calls_of, medium_of, standing_of};

use crate::checkpoints::Checkpoint;
use crate::medium::Medium;
use crate::opened::Opened;
use stateful_db::{Broken, DbCall, FlushToken, Why};

impl<X: Drop> Opened<X> {
    /// Adds the checkpoint of a batch that is applied. Where its range doesn't end behind that of
    /// the newest, or starts before it, it is refused as if memory were wanting.
    pub fn apply(self, id: u64, state: Checkpoint<X>) -> Result<Opened<X>, Broken<Medium<X>>>
        ensures ok { IfOk result (λ o. standing_of o
            ≡ record (standing_of self) { id = id; disk = applied (standing_of self).disk state }) }
        ensures ok_next { IfOk result (λ o. next_of (medium_of o) ≡ next_of (medium_of self)) }
        ensures ok_count { IfOk result (λ o.
            (calls_of (medium_of self)).faults ≤ (calls_of (medium_of o)).faults) }
        ensures ok_called { IfOk result (λ o.
            Called DbCall.Apply (calls_of (medium_of self)) (calls_of (medium_of o))) }
        ensures err { IfErr result (λ b. disk_of b.medium ≡ (standing_of self).disk) }
        ensures err_next { IfErr result (λ b. next_of b.medium ≡ next_of (medium_of self)) }
        ensures err_count { IfErr result (λ b.
            (calls_of (medium_of self)).faults ≤ (calls_of b.medium).faults) }
        ensures err_called { IfErr result (λ b.
            Called DbCall.Apply (calls_of (medium_of self)) (calls_of b.medium)) }
        ensures failed { IfErr result (λ b.
            b.why ≡ Why.Failed
            → Rose (calls_of (medium_of self)).faults (calls_of b.medium).faults) }
        ensures listed { IsErrAnd result (λ b. b.why ≡ Why.Failed)
            ↔ IsListed (calls_of (medium_of self)) DbCall.Apply }
    {
        let mut opened = match self.begin(DbCall::Apply) {
            Ok(opened) => opened,
            Err(broken) => return Err(broken),
        };
        match opened.push(id, state) {
            Ok(()) => Ok(opened),
            Err(_) => Err(Broken {
                medium: opened.close(),
                why: Why::OutOfMemory,
            }),
        }
    }

    /// Takes no memory. One token more is out, for all checkpoints.
    pub fn finalize(self) -> Result<(Opened<X>, FlushToken), Broken<Medium<X>>>
        requires { length (standing_of self).out < 2 }
        ensures ok { IfOk result (λ r. standing_of r.0
            ≡ record (standing_of self) { out = (standing_of self).out ++ r.1.place ∷ [] }) }
        ensures ok_place { IfOk result (λ r. r.1.place ≡ place (standing_of self).disk) }
        ensures ok_next { IfOk result (λ r. next_of (medium_of r.0) ≡ next_of (medium_of self)) }
        ensures ok_count { IfOk result (λ r.
            (calls_of (medium_of self)).faults ≤ (calls_of (medium_of r.0)).faults) }
        ensures ok_called { IfOk result (λ r.
            Called DbCall.Finalize (calls_of (medium_of self)) (calls_of (medium_of r.0))) }
        ensures err { IfErr result (λ b. disk_of b.medium ≡ (standing_of self).disk) }
        ensures err_next { IfErr result (λ b. next_of b.medium ≡ next_of (medium_of self)) }
        ensures err_count { IfErr result (λ b.
            (calls_of (medium_of self)).faults ≤ (calls_of b.medium).faults) }
        ensures err_called { IfErr result (λ b.
            Called DbCall.Finalize (calls_of (medium_of self)) (calls_of b.medium)) }
        ensures failed { IfErr result (λ b.
            b.why ≡ Why.Failed
            → Rose (calls_of (medium_of self)).faults (calls_of b.medium).faults) }
        ensures listed { IsErrAnd result (λ b. b.why ≡ Why.Failed)
            ↔ IsListed (calls_of (medium_of self)) DbCall.Finalize }
        ensures memory { IfErr result (λ b. b.why ≢ Why.OutOfMemory) }
    {
        let mut opened = match self.begin(DbCall::Finalize) {
            Ok(opened) => opened,
            Err(broken) => return Err(broken),
        };
        let token = opened.put_token();
        Ok((opened, token))
    }

    /// Takes no memory. The checkpoints that the token covers are durable, and the token is in.
    pub fn flush(self, token: FlushToken) -> Result<Opened<X>, Broken<Medium<X>>>
        requires { Contains (standing_of self).out token.place }
        ensures ok { IfOk result (λ o. standing_of o ≡ record (standing_of self) {
          disk = flushed (standing_of self).disk token.place;
          out = without token.place (standing_of self).out;
        }) }
        ensures ok_next { IfOk result (λ o. next_of (medium_of o) ≡ next_of (medium_of self)) }
        ensures ok_count { IfOk result (λ o.
            (calls_of (medium_of self)).faults ≤ (calls_of (medium_of o)).faults) }
        ensures ok_called { IfOk result (λ o.
            Called DbCall.Flush (calls_of (medium_of self)) (calls_of (medium_of o))) }
        ensures err { IfErr result (λ b. disk_of b.medium ≡ (standing_of self).disk) }
        ensures err_next { IfErr result (λ b. next_of b.medium ≡ next_of (medium_of self)) }
        ensures err_count { IfErr result (λ b.
            (calls_of (medium_of self)).faults ≤ (calls_of b.medium).faults) }
        ensures err_called { IfErr result (λ b.
            Called DbCall.Flush (calls_of (medium_of self)) (calls_of b.medium)) }
        ensures failed { IfErr result (λ b.
            b.why ≡ Why.Failed
            → Rose (calls_of (medium_of self)).faults (calls_of b.medium).faults) }
        ensures listed { IsErrAnd result (λ b. b.why ≡ Why.Failed)
            ↔ IsListed (calls_of (medium_of self)) DbCall.Flush }
        ensures memory { IfErr result (λ b. b.why ≢ Why.OutOfMemory) }
    {
        let mut opened = match self.begin(DbCall::Flush) {
            Ok(opened) => opened,
            Err(broken) => return Err(broken),
        };
        opened.take_token(token);
        Ok(opened)
    }

    /// Takes no memory. Drops so many of the oldest checkpoints. The durable one stays, and no
    /// token may be out.
    pub fn prune_first(self, count: usize) -> Result<Opened<X>, Broken<Medium<X>>>
        requires idle { (standing_of self).out ≡ [] }
        requires within { count ≤ length (standing_of self).disk.older }
        requires kept { (standing_of self).disk.pruned + count ≤ (standing_of self).disk.durable }
        ensures ok { IfOk result (λ o. standing_of o
            ≡ record (standing_of self) { disk = cut (standing_of self).disk count }) }
        ensures ok_next { IfOk result (λ o. next_of (medium_of o) ≡ next_of (medium_of self)) }
        ensures ok_count { IfOk result (λ o.
            (calls_of (medium_of self)).faults ≤ (calls_of (medium_of o)).faults) }
        ensures ok_called { IfOk result (λ o.
            Called DbCall.Prune (calls_of (medium_of self)) (calls_of (medium_of o))) }
        ensures err { IfErr result (λ b. disk_of b.medium ≡ (standing_of self).disk) }
        ensures err_next { IfErr result (λ b. next_of b.medium ≡ next_of (medium_of self)) }
        ensures err_count { IfErr result (λ b.
            (calls_of (medium_of self)).faults ≤ (calls_of b.medium).faults) }
        ensures err_called { IfErr result (λ b.
            Called DbCall.Prune (calls_of (medium_of self)) (calls_of b.medium)) }
        ensures failed { IfErr result (λ b.
            b.why ≡ Why.Failed
            → Rose (calls_of (medium_of self)).faults (calls_of b.medium).faults) }
        ensures listed { IsErrAnd result (λ b. b.why ≡ Why.Failed)
            ↔ IsListed (calls_of (medium_of self)) DbCall.Prune }
        ensures memory { IfErr result (λ b. b.why ≢ Why.OutOfMemory) }
    {
        let mut opened = match self.begin(DbCall::Prune) {
            Ok(opened) => opened,
            Err(broken) => return Err(broken),
        };
        opened.drop_first(count);
        Ok(opened)
    }
}
