//! Builds of blocks.

ghost use Rattle.std.specs.Prelude.{◌≡◌, ℕ, ◌+◌, ◌≤◌, List, ◌∷◌, IfOk, IsErrOf};
ghost use Rattle.std.specs.Prelude.{Some};
ghost use Rattle.stateful_base.specs.declared.outcome.Moved.{Moved};
ghost use Rattle.stateful_db.specs.Works.{BuildEnds, Costs};
ghost use Rattle.stateful_bank_app.specs.Draft.{IsAmong};
ghost use Rattle.stateful_bank_app.specs.Rules.{turns_of};
ghost use Rattle.stateful_bank_app.specs.Progress.{Shows};
ghost use Rattle.stateful_bank_app.specs.Runs.{counted, LeadsToFull, LeadsToRoom};
ghost use Rattle.stateful_bank_app.specs.Builds.{BankBuildOf, IsBuild, EachBuild, IsBuilt};
ghost use Rattle.stateful_bank_app.specs.Builds.{proposal_of, targets_after};
ghost use Rattle.stateful_bank_app.specs.Works.{bank_works};

use crate::progress::{Advanced, Progress, advance, begin, seal};
use crate::world::{Drafted, Sealed, World};
use stateful_bank::{BankBlock, Proposal, is_acceptable};
use stateful_db::{AppFault, DatabaseSet, ProposedBlock};
use stateful_types::{Faulty, Handoff, Items, Moved, OutOfMemory, Target};
use std::alloc::Global;

/// A block of the bank that was built, with its sealed batch.
type Built<W> = ProposedBlock<BankBlock, Sealed<W>>;

/// A build of a block: it does one operation a turn, and at the last one it is declined or seals
/// its batch.
#[derive(Drop)]
pub struct BankBuild<U> {
    alloc: Global,
    /// What is asked for and what is done, until the build ends.
    work: Option<(Proposal, Progress<U>)>,
    faults: u64,
}

impl<U> Faulty for BankBuild<U> {
    ghost count = { λ build. build.faults };

    fn faults(&self) -> u64 {
        self.faults
    }
}

/// The targets that a sealed batch leads to.
fn targets_of<W: World>(alloc: Global, batch: &Sealed<W>) -> Result<Items<Target>, OutOfMemory>
    ensures { IfOk result (λ targets. (p : W.Databases.Ids × W.Databases.States)
        (c : List (W.Databases.Ids × W.Databases.States)) →
        W.Databases.shows batch.now (p ∷ c) →
        targets ≡ targets_after W.rules W.Databases.kind.target_of p.1) }
{
    W::listed(alloc, &W::batch_targets(batch))
}

/// The block over the batch with all its operations, handed over as it was asked for. Nothing is
/// where it is declined whatever the states are, where they aren't acceptable, or where the batch
/// is stale.
fn finish<W: World>(
    alloc: Global,
    proposal: Proposal,
    batch: Drafted<W>,
    databases: &W::Databases,
    faults: &mut u64,
) -> Result<Handoff<Built<W>>, AppFault>
    ensures ok { IfOk result (λ given. (b : BankBuildOf W.Databases.Ids W.Databases.States) →
        proposal ≡ proposal_of b.asked →
        Shows W.rules W.holds batch proposal.ops b.own b.at b.below →
        IsAmong (W.Databases.kind.point (W.Databases.members databases.now)) (b.at ∷ b.below) →
        BuildEnds (bank_works W.rules W.holds W.Databases.kind.target_of) (Moved.Done given)
        W.Databases.shows b ⊥) }
    ensures within { IfOk result (λ given. IsBuilt (Moved.Done given) →
        (b : BankBuildOf W.Databases.Ids W.Databases.States) →
        Shows W.rules W.holds batch proposal.ops b.own b.at b.below →
        IsAmong (W.Databases.kind.point (W.Databases.members databases.now)) (b.at ∷ b.below) →
        LeadsToRoom W.rules W.Databases.kind.Full b.at.1 proposal.ops (proposal.height.0 + 1)) }
    ensures exhausted { IsErrOf result AppFault.Failed →
        (b : BankBuildOf W.Databases.Ids W.Databases.States) →
        Shows W.rules W.holds batch proposal.ops b.own b.at b.below →
        IsAmong (W.Databases.kind.point (W.Databases.members databases.now)) (b.at ∷ b.below) →
        LeadsToFull W.rules W.Databases.kind.Full b.at.1 proposal.ops (proposal.height.0 + 1) }
    ensures faults { faults.new ≡ counted result faults.old }
    ensures later { faults.old ≤ faults.new }
{
    let ops = proposal.ops.as_slice();
    let Some(height) = proposal.height.next() else {
        return Ok(Handoff::Wait);
    };
    if proposal.is_declined() || !is_acceptable(ops) {
        return Ok(Handoff::Wait);
    }
    let Some(merkleized) = seal::<W>(batch, databases, ops, height, faults)? else {
        return Ok(Handoff::Wait);
    };
    let targets = match targets_of::<W>(alloc, &merkleized) {
        Ok(targets) => targets,
        Err(OutOfMemory) => return Err(AppFault::OutOfMemory),
    };
    let decision = proposal.decision;
    let block = proposal.into_block(targets);
    let built = ProposedBlock { block, merkleized };
    match decision {
        Handoff::Wait => Ok(Handoff::Wait),
        Handoff::Vote(()) => Ok(Handoff::Vote(built)),
        Handoff::Stage(()) => Ok(Handoff::Stage(built)),
    }
}

/// A build for the proposal on a batch without changes.
pub(crate) fn start_build<W: World>(
    alloc: Global,
    proposal: Proposal,
    batch: Drafted<W>,
) -> BankBuild<Drafted<W>>
    ensures build { (b : BankBuildOf W.Databases.Ids W.Databases.States) →
        proposal ≡ proposal_of b.asked →
        W.Databases.opened batch ((b.own, W.Databases.kind.begun b.at.1) ∷ b.at ∷ b.below) →
        IsBuild W.rules W.holds result b 0 }
    ensures faults { result.faults ≡ 0 }
{
    BankBuild {
        alloc,
        work: Some((proposal, begin::<W>(batch))),
        faults: 0,
    }
}

/// One turn. A build that has ended, or whose batch is stale, ends with nothing.
pub(crate) fn turn_build<W: World>(
    build: &mut BankBuild<Drafted<W>>,
    databases: &W::Databases,
) -> Result<Moved<Handoff<Built<W>>>, AppFault>
    ensures ok { let place = W.Databases.kind.point (W.Databases.members databases.now) in
        IfOk result (λ moved. EachBuild W.rules W.holds build.old place (λ b n.
        BuildEnds (bank_works W.rules W.holds W.Databases.kind.target_of) moved W.Databases.shows b
        (IsBuild W.rules W.holds build.new b (n + 1)))) }
    ensures cost { let place = W.Databases.kind.point (W.Databases.members databases.now) in
        IfOk result (λ moved. EachBuild W.rules W.holds build.old place (λ b n.
        Costs (Some (turns_of W.rules b.at.1 b.asked.input.ops)) moved n)) }

    // It fails exactly where the states would end at the last number, but for want of memory.
    ensures exhausted { let place = W.Databases.kind.point (W.Databases.members databases.now) in
        IsErrOf result AppFault.Failed
        → EachBuild W.rules W.holds build.old place (λ b n. LeadsToFull W.rules
        W.Databases.kind.Full b.at.1 b.asked.input.ops (b.asked.parent.height.0 + 1)) }
    ensures within { let place = W.Databases.kind.point (W.Databases.members databases.now) in
        IfOk result (λ moved. IsBuilt moved
        → EachBuild W.rules W.holds build.old place (λ b n. LeadsToRoom W.rules
        W.Databases.kind.Full b.at.1 b.asked.input.ops (b.asked.parent.height.0 + 1))) }
    ensures faults { build.new.faults ≡ counted result build.old.faults }
    ensures later { build.old.faults ≤ build.new.faults }
{
    let Some((proposal, progress)) = build.work.take() else {
        return Ok(Moved::Done(Handoff::Wait));
    };
    match advance::<W>(progress, databases, proposal.ops.as_slice()) {
        Ok(Advanced::Refused) => Ok(Moved::Done(Handoff::Wait)),
        Ok(Advanced::Further(progress)) => {
            build.work = Some((proposal, progress));
            Ok(Moved::Pending)
        }
        Ok(Advanced::Complete(batch)) => {
            let given = finish::<W>(build.alloc, proposal, batch, databases, &mut build.faults)?;
            Ok(Moved::Done(given))
        }
        Err(OutOfMemory) => Err(AppFault::OutOfMemory),
    }
}
