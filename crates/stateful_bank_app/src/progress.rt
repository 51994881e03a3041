//! Operations of a block, done one a turn on its batch.

ghost use Rattle.std.specs.Prelude.{◌≡◌, ℕ, List, ◌∷◌, IfOk, IsErrOf, IsSomeAnd, take, drop, ◌≤◌};
ghost use Rattle.stateful_db.specs.Chain.{IsPoint};
ghost use Rattle.stateful_bank.specs.declared.op.Op.{Op};
ghost use Rattle.stateful_bank.specs.Accounts.{Becomes, do_ops};
ghost use Rattle.stateful_bank_app.specs.Rules.{book_on};
ghost use Rattle.stateful_bank_app.specs.Draft.{IsAmong};
ghost use Rattle.stateful_bank_app.specs.Progress.{HasDone, Advances};
ghost use Rattle.stateful_bank_app.specs.Runs.{counted};

use crate::draft::do_op;
use crate::world::{Drafted, Sealed, World};
use stateful_bank::Op;
use stateful_db::{AppFault, BatchError, DatabaseSet};
use stateful_types::{Height, OutOfMemory};

/// How many operations are done, and the batch with those.
#[derive(Drop)]
pub(crate) struct Progress<U> {
    done: usize,
    batch: U,
}

/// What one operation more leads to.
#[derive(Drop)]
pub(crate) enum Advanced<U> {
    /// It isn't allowed, or the batch is stale.
    Refused,
    /// There are others.
    Further(Progress<U>),
    /// It was the last: the batch with all of them.
    Complete(U),
}

/// The batch after the operation of this number, where there is one. None where it isn't allowed,
/// or where the batch is stale.
fn do_next<W: World>(
    batch: Drafted<W>,
    databases: &W::Databases,
    ops: &[Op],
    done: usize,
) -> Result<Option<Drafted<W>>, OutOfMemory>
    ensures { IfOk result (λ after. (changes : W.rules.Changes) (i : W.Databases.Ids)
        (p : W.Databases.Ids × W.Databases.States)
        (c : List (W.Databases.Ids × W.Databases.States)) →
        W.holds batch changes i p c →
        IsAmong (W.Databases.kind.point (W.Databases.members databases.now)) (p ∷ c) →
        Becomes (λ u now. W.holds u now i p c) after
        (do_ops (book_on W.rules p.1) changes (take 1 (drop done ops.now)))) }
{
    match ops.get(done) {
        Some(op) => do_op::<W>(batch, databases, op),
        None => Ok(Some(batch)),
    }
}

/// Nothing is done yet on a batch without changes.
pub(crate) fn begin<W: World>(batch: Drafted<W>) -> Progress<Drafted<W>>
    ensures shown { (ops : List Op) (i : W.Databases.Ids)
        (p : W.Databases.Ids × W.Databases.States)
        (c : List (W.Databases.Ids × W.Databases.States)) →
        W.Databases.opened batch ((i, W.Databases.kind.begun p.1) ∷ p ∷ c) →
        HasDone W.rules W.holds result ops i p c }
    ensures done { result.done ≡ 0 }
{
    Progress {
        done: 0,
        batch: W::begin(batch),
    }
}

/// One of these operations more, where there is one.
pub(crate) fn advance<W: World>(
    progress: Progress<Drafted<W>>,
    databases: &W::Databases,
    ops: &[Op],
) -> Result<Advanced<Drafted<W>>, OutOfMemory>
    ensures { IfOk result (λ advanced. (i : W.Databases.Ids)
        (p : W.Databases.Ids × W.Databases.States)
        (c : List (W.Databases.Ids × W.Databases.States)) →
        HasDone W.rules W.holds progress ops.now i p c →
        IsAmong (W.Databases.kind.point (W.Databases.members databases.now)) (p ∷ c) →
        Advances W.rules W.holds advanced progress.done ops.now i p c) }
{
    let Progress { done, batch } = progress;
    let Some(batch) = do_next::<W>(batch, databases, ops, done)? else {
        return Ok(Advanced::Refused);
    };
    if ops.len().saturating_sub(done) > 1 {
        return Ok(Advanced::Further(Progress {
            done: done + 1,
            batch,
        }));
    }
    Ok(Advanced::Complete(batch))
}

/// The sealed batch. None where the batch is stale. It fails where a database has no number left,
/// which is then counted.
fn seal_whole<W: World>(
    batch: Drafted<W>,
    databases: &W::Databases,
    faults: &mut u64,
) -> Result<Option<Sealed<W>>, AppFault>
    ensures ok { IfOk result (λ sealed. (c : List (W.Databases.Ids × W.Databases.States)) →
        W.Databases.opened batch c →
        IsAmong (W.Databases.kind.point (W.Databases.members databases.now)) c →
        IsSomeAnd sealed (λ m. W.Databases.shows m c)) }
    ensures within { IfOk result (λ sealed. (p : W.Databases.Ids × W.Databases.States)
        (c : List (W.Databases.Ids × W.Databases.States)) →
        W.Databases.opened batch (p ∷ c) →
        IsAmong (W.Databases.kind.point (W.Databases.members databases.now)) (p ∷ c) →
        W.Databases.kind.Full p.1 →
        ⊥) }
    ensures exhausted { (p : W.Databases.Ids × W.Databases.States)
        (c : List (W.Databases.Ids × W.Databases.States)) →
        W.Databases.opened batch (p ∷ c) →
        IsErrOf result AppFault.Failed →
        W.Databases.kind.Full p.1 }
    ensures faults { faults.new ≡ counted result faults.old }
    ensures later { faults.old ≤ faults.new }
{
    match databases.seal(batch) {
        Ok(sealed) => Ok(Some(sealed)),
        Err(BatchError::StaleRead) => Ok(None),
        Err(BatchError::Exhausted) => {
            *faults = faults.saturating_add(1);
            Err(AppFault::Failed)
        }
        Err(BatchError::OutOfMemory) => Err(AppFault::OutOfMemory),
        Err(
            BatchError::LocationOutOfBounds { .. }
            | BatchError::LocationOutOfOrder { .. }
            | BatchError::BelowInactivityFloor { .. }
            | BatchError::SlotCount { .. },
        ) => unreachable!(),
    }
}

/// The sealed batch of a block of these operations at this height. None where the batch is stale.
/// It fails where a database has no number left, which is then counted.
pub(crate) fn seal<W: World>(
    batch: Drafted<W>,
    databases: &W::Databases,
    ops: &[Op],
    height: Height,
    faults: &mut u64,
) -> Result<Option<Sealed<W>>, AppFault>
    ensures ok { IfOk result (λ sealed. (changes : W.rules.Changes) (i : W.Databases.Ids)
        (p : W.Databases.Ids × W.Databases.States)
        (c : List (W.Databases.Ids × W.Databases.States)) →
        W.holds batch changes i p c →
        IsAmong (W.Databases.kind.point (W.Databases.members databases.now)) (p ∷ c) →
        IsSomeAnd sealed (λ m. W.Databases.shows m
        ((i, W.rules.sealed p.1 changes ops.now height.0) ∷ p ∷ c))) }
    ensures within { IfOk result (λ sealed. (changes : W.rules.Changes) (i : W.Databases.Ids)
        (p : W.Databases.Ids × W.Databases.States)
        (c : List (W.Databases.Ids × W.Databases.States)) →
        W.holds batch changes i p c →
        IsAmong (W.Databases.kind.point (W.Databases.members databases.now)) (p ∷ c) →
        W.Databases.kind.Full (W.rules.sealed p.1 changes ops.now height.0) →
        ⊥) }
    ensures exhausted { IsErrOf result AppFault.Failed → (changes : W.rules.Changes)
        (i : W.Databases.Ids) (p : W.Databases.Ids × W.Databases.States)
        (c : List (W.Databases.Ids × W.Databases.States)) →
        W.holds batch changes i p c →
        IsAmong (W.Databases.kind.point (W.Databases.members databases.now)) (p ∷ c) →
        W.Databases.kind.Full (W.rules.sealed p.1 changes ops.now height.0) }
    ensures faults { faults.new ≡ counted result faults.old }
    ensures later { faults.old ≤ faults.new }
{
    match W::complete(batch, databases, ops, height) {
        Ok(Some(batch)) => Ok(seal_whole::<W>(batch, databases, faults)?),
        Ok(None) => Ok(None),
        Err(OutOfMemory) => Err(AppFault::OutOfMemory),
    }
}
