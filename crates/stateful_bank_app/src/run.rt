//! Runs of blocks.

ghost use Rattle.std.specs.Prelude.{◌≡◌, ℕ, ◌+◌, ◌≤◌, List, ◌∷◌, IfOk, IsErrOf};
ghost use Rattle.std.specs.Prelude.{IsTrue, ◌↔◌, Some};
ghost use Rattle.stateful_base.specs.declared.outcome.Finality.{Finality};
ghost use Rattle.stateful_db.specs.Meaning.{outcome, Ends};
ghost use Rattle.stateful_db.specs.Works.{block_of, run_chain, Costs};
ghost use Rattle.stateful_bank_app.specs.Rules.{bank_meaning, turns_of, stepped};
ghost use Rattle.stateful_bank_app.specs.Runs.{BankRunOf, IsRun, EachRun, IsRejected, IsSealed};
ghost use Rattle.stateful_bank_app.specs.Runs.{counted, LeadsToFull, LeadsToRoom};

use crate::progress::{Advanced, Progress, advance, begin, seal};
use crate::world::{Drafted, Sealed, World};
use stateful_bank::{BankBlock, Op, is_acceptable};
use stateful_db::{AppFault, DatabaseSet};
use stateful_types::{Digested, Faulty, Finality, Moved, OutOfMemory};

/// A run of a block: it does one operation a turn, and seals its batch at the last one.
#[derive(Drop)]
pub struct BankRun<U> {
    block: Digested<BankBlock>,
    finality: Finality,
    /// What is done, until the run ends.
    progress: Option<Progress<U>>,
    faults: u64,
}

impl<U> Faulty for BankRun<U> {
    ghost count = { λ run. run.faults };

    fn faults(&self) -> u64 {
        self.faults
    }
}

/// Whether this is a candidate that isn't acceptable.
fn is_rejected(finality: Finality, ops: &[Op]) -> bool
    ensures { IsTrue result ↔ IsRejected finality ops.now }
{
    match finality {
        Finality::Candidate => !is_acceptable(ops),
        Finality::Finalized => false,
    }
}

/// A run of the block on a batch without changes.
pub(crate) fn start_run<W: World>(
    block: Digested<BankBlock>,
    finality: Finality,
    batch: Drafted<W>,
) -> BankRun<Drafted<W>>
    ensures run { (r : BankRunOf W.Databases.Ids W.Databases.States) →
        finality ≡ r.finality →
        block ≡ r.ancestry.first →
        W.Databases.opened batch ((r.own, W.Databases.kind.begun r.at.1) ∷ r.at ∷ r.below) →
        IsRun W.rules W.holds result r 0 }
    ensures faults { result.faults ≡ 0 }
{
    BankRun {
        block,
        finality,
        progress: Some(begin::<W>(batch)),
        faults: 0,
    }
}

/// One turn. A run that has ended, or whose batch is stale, ends with none.
pub(crate) fn turn_run<W: World>(
    run: &mut BankRun<Drafted<W>>,
    databases: &W::Databases,
) -> Result<Moved<Option<Sealed<W>>>, AppFault>
    ensures ok { let place = W.Databases.kind.point (W.Databases.members databases.now) in
        IfOk result (λ moved. EachRun W.rules W.holds run.old place (λ r n.
        Ends moved (outcome (bank_meaning W.rules) r.finality r.at.1 (block_of r))
        (λ m s. W.Databases.shows m (run_chain r s)) (IsRun W.rules W.holds run.new r (n + 1)))) }
    ensures cost { let place = W.Databases.kind.point (W.Databases.members databases.now) in
        IfOk result (λ moved. EachRun W.rules W.holds run.old place (λ r n.
        Costs (Some (turns_of W.rules r.at.1 (block_of r).ops)) moved n)) }

    // It fails exactly where the states would end at the last number, but for want of memory.
    ensures exhausted { let place = W.Databases.kind.point (W.Databases.members databases.now) in
        IsErrOf result AppFault.Failed
        → EachRun W.rules W.holds run.old place (λ r n. LeadsToFull W.rules W.Databases.kind.Full
        r.at.1 (block_of r).ops (block_of r).height.0) }
    ensures within { let place = W.Databases.kind.point (W.Databases.members databases.now) in
        IfOk result (λ moved. IsSealed moved
        → EachRun W.rules W.holds run.old place (λ r n. LeadsToRoom W.rules W.Databases.kind.Full
        r.at.1 (block_of r).ops (block_of r).height.0)) }
    ensures faults { run.new.faults ≡ counted result run.old.faults }
    ensures later { run.old.faults ≤ run.new.faults }
{
    let Some(progress) = run.progress.take() else {
        return Ok(Moved::Done(None));
    };
    let block = run.block.inner();
    let ops = block.ops.as_slice();
    match advance::<W>(progress, databases, ops) {
        Ok(Advanced::Refused) => Ok(Moved::Done(None)),
        Ok(Advanced::Further(progress)) => {
            run.progress = Some(progress);
            Ok(Moved::Pending)
        }
        Ok(Advanced::Complete(batch)) => {
            if is_rejected(run.finality, ops) {
                return Ok(Moved::Done(None));
            }
            let height = block.height;
            let sealed = seal::<W>(batch, databases, ops, height, &mut run.faults)?;
            Ok(Moved::Done(sealed))
        }
        Err(OutOfMemory) => Err(AppFault::OutOfMemory),
    }
}
