//! The bank as an application.

ghost use Rattle.std.specs.Prelude.{◌≡◌, ℕ, List, ◌∷◌, IfOk, IsErrOf};
ghost use Rattle.stateful_db.specs.Works.{asked_for, build_of};
ghost use Rattle.stateful_db.specs.declared.application.ProposalKind.{ProposalKind};
ghost use Rattle.stateful_bank_app.specs.Builds.{IsBuild, proposal_of};

use crate::build::{BankBuild, start_build, turn_build};
use crate::hook::{BankHook, hook_of, turn_hook};
use crate::run::{BankRun, start_run, turn_run};
use crate::world::{Drafted, Sealed, Targets, World};
use stateful_bank::{Ask, BankBlock, Proposal};
use stateful_db::{AppFault, Application, DatabaseSet, Hooked, Input, ProposalKind, ProposedBlock};
use stateful_types::{
    Ancestry, Block, Digest, Faulty, Finality, Handoff, Moved, OutOfMemory, Round, VoteScheme,
};
use std::alloc::Global;
use std::marker::PhantomData;

/// The bank over the databases of a world. It never fails itself.
#[derive(Drop)]
pub struct Bank<W> {
    alloc: Global,
    world: PhantomData<W>,
}

impl<W: World> Bank<W> {
    /// A bank without faults.
    pub fn new(alloc: Global) -> Bank<W>
        ensures { ⟦<Bank<W> as Faulty>⟧.count result ≡ 0 }
    {
        Bank {
            alloc,
            world: PhantomData,
        }
    }

    /// A build for a request, on the first block of the ancestry.
    fn build(
        &self,
        kind: ProposalKind,
        context: Round,
        ancestry: &Ancestry<BankBlock>,
        batch: Drafted<W>,
        ask: Ask,
    ) -> Result<BankBuild<Drafted<W>>, AppFault>
        ensures build { IfOk result (λ build. (i : W.Databases.Ids)
            (p : W.Databases.Ids × W.Databases.States)
            (c : List (W.Databases.Ids × W.Databases.States)) →
            W.Databases.opened batch ((i, W.Databases.kind.begun p.1) ∷ p ∷ c) →
            IsBuild W.rules W.holds build
            (build_of (asked_for kind context ancestry.now ask) tt i p c) 0) }
        ensures fresh { IfOk result (λ build. build.faults ≡ 0) }
        ensures failed { IsErrOf result AppFault.Failed → ⊥ }
    {
        match proposal_for(self.alloc, kind, context, ancestry.first.inner(), ask) {
            Ok(proposal) => Ok(start_build::<W>(self.alloc, proposal, batch)),
            Err(OutOfMemory) => Err(AppFault::OutOfMemory),
        }
    }
}

/// What a request asks for. The parent's digest is made of its bytes.
fn proposal_for(
    alloc: Global,
    kind: ProposalKind,
    context: Round,
    parent: &BankBlock,
    ask: Ask,
) -> Result<Proposal, OutOfMemory>
    ensures { IfOk result (λ proposal. proposal ≡
        proposal_of (record { kind = kind; context = context; parent = parent.now; input = ask })) }
{
    let Ask { decision, ops } = ask;
    let mut bytes = Vec::new(alloc);
    parent.encode(&mut bytes)?;
    let decision = match kind {
        ProposalKind::Prepare => decision,
        ProposalKind::Propose => Handoff::Vote(()),
    };
    Ok(Proposal {
        decision,
        height: parent.height,
        parent: Digest::of(bytes.as_slice()),
        round: context,
        ops,
    })
}

impl<W> Faulty for Bank<W> {
    ghost count = { λ _. 0 };

    fn faults(&self) -> u64 {
        0
    }
}

impl<W: World + Drop> Application for Bank<W> {
    ghost use Rattle.std.specs.Prelude.{◌≡◌, ◌≤◌, ◌-◌, ◌+◌, ◌∷◌, ℕ, List, Some, IsOk, IfOk, IsErrOf};
    ghost use Rattle.stateful_base.specs.Causes.{Rose};
    ghost use Rattle.stateful_db.specs.Meaning.{outcome, Ends};
    ghost use Rattle.stateful_db.specs.Hooks.{left};
    ghost use Rattle.stateful_db.specs.Works.{asked_for, run_of, build_of, block_of, run_chain};
    ghost use Rattle.stateful_db.specs.Works.{Costs, CostsHook, BuildEnds};
    ghost use Rattle.stateful_bank.specs.BankBlock.{genesis_block};
    ghost use Rattle.stateful_bank_app.specs.Rules.{bank_meaning, turns_of};
    ghost use Rattle.stateful_bank_app.specs.Hooks.{IsLeft, GoesOn};
    ghost use Rattle.stateful_bank_app.specs.Runs.{IsRun, EachRun, IsSealed, counted};
    ghost use Rattle.stateful_bank_app.specs.Runs.{LeadsToFull, LeadsToRoom};
    ghost use Rattle.stateful_bank_app.specs.Builds.{IsBuild, EachBuild, IsBuilt};
    ghost use Rattle.stateful_bank_app.specs.Works.{bank_works, bank_takes_turns};

    type SigningScheme = VoteScheme;

    type Context = Round;

    type Block = BankBlock;

    type Databases = W::Databases;

    type Captured = ();

    type Provider = ();

    type Input = Ask;

    type Run = BankRun<Drafted<W>>;

    type Build = BankBuild<Drafted<W>>;

    type Hook = BankHook;

    ghost works = { bank_works W.rules W.holds W.Databases.kind.target_of };

    ghost notes = { λ bank. tt };

    ghost takes_turns = { bank_takes_turns W.rules W.holds W.Databases.kind.target_of };

    fn sync_targets(block: &BankBlock) -> Targets<W> {
        W::committed(block.targets.as_slice())
    }

    fn genesis(&mut self) -> Result<BankBlock, AppFault>
        ensures block { IfOk result (λ b. b ≡ genesis_block
            (W.rules.listed (W.Databases.kind.target_of W.Databases.kind.initial))) }
        ensures height { IfOk result (λ b. b.height.0 ≡ 0) }
        ensures failed { IsErrOf result AppFault.Failed → ⊥ }
    {
        match W::listed(self.alloc, &W::Databases::initial_sync_targets()) {
            Ok(targets) => Ok(BankBlock::genesis(self.alloc, targets)),
            Err(OutOfMemory) => Err(AppFault::OutOfMemory),
        }
    }

    /// Its block is handed over as the request says.
    fn prepare(
        &mut self,
        context: Round,
        ancestry: Ancestry<BankBlock>,
        batches: Drafted<W>,
        input: Input<Ask, ()>,
    ) -> Result<BankBuild<Drafted<W>>, AppFault>
        ensures build { IfOk result (λ build. (i : W.Databases.Ids)
            (p : W.Databases.Ids × W.Databases.States)
            (c : List (W.Databases.Ids × W.Databases.States)) →
            W.Databases.opened batches ((i, W.Databases.kind.begun p.1) ∷ p ∷ c) →
            IsBuild W.rules W.holds build (build_of
            (asked_for ProposalKind.Prepare context ancestry input.upstream) input.provider i p
            c) 0) }
        ensures fresh { IfOk result (λ build. build.faults ≡ 0) }
        ensures failed { IsErrOf result AppFault.Failed → ⊥ }
    {
        let Input {
            upstream,
            provider: (),
        } = input;
        self.build(ProposalKind::Prepare, context, &ancestry, batches, upstream)
    }

    /// Its block is voted on.
    fn propose(
        &mut self,
        context: Round,
        ancestry: Ancestry<BankBlock>,
        batches: Drafted<W>,
        input: Input<Ask, ()>,
    ) -> Result<BankBuild<Drafted<W>>, AppFault>
        ensures build { IfOk result (λ build. (i : W.Databases.Ids)
            (p : W.Databases.Ids × W.Databases.States)
            (c : List (W.Databases.Ids × W.Databases.States)) →
            W.Databases.opened batches ((i, W.Databases.kind.begun p.1) ∷ p ∷ c) →
            IsBuild W.rules W.holds build (build_of
            (asked_for ProposalKind.Propose context ancestry input.upstream) input.provider i p
            c) 0) }
        ensures fresh { IfOk result (λ build. build.faults ≡ 0) }
        ensures failed { IsErrOf result AppFault.Failed → ⊥ }
    {
        let Input {
            upstream,
            provider: (),
        } = input;
        self.build(ProposalKind::Propose, context, &ancestry, batches, upstream)
    }

    fn process(
        &mut self,
        context: Round,
        ancestry: Ancestry<BankBlock>,
        batches: Drafted<W>,
        finality: Finality,
    ) -> Result<BankRun<Drafted<W>>, AppFault>
        ensures ok { IsOk result }
        ensures run { IfOk result (λ run. (i : W.Databases.Ids)
            (p : W.Databases.Ids × W.Databases.States)
            (c : List (W.Databases.Ids × W.Databases.States)) →
            W.Databases.opened batches ((i, W.Databases.kind.begun p.1) ∷ p ∷ c) →
            IsRun W.rules W.holds run (run_of finality context ancestry i p c) 0) }
        ensures fresh { IfOk result (λ run. run.faults ≡ 0) }
    {
        let Ancestry { first, rest: _ } = ancestry;
        Ok(start_run::<W>(first, finality, batches))
    }

    fn turn(
        run: &mut BankRun<Drafted<W>>,
        databases: &W::Databases,
    ) -> Result<Moved<Option<Sealed<W>>>, AppFault>
        ensures ok { let place = W.Databases.kind.point (W.Databases.members databases.now) in
            IfOk result (λ moved. EachRun W.rules W.holds run.old place (λ r n.
            Ends moved (outcome (bank_meaning W.rules) r.finality r.at.1 (block_of r))
            (λ m s. W.Databases.shows m (run_chain r s))
            (IsRun W.rules W.holds run.new r (n + 1)))) }
        ensures cost { let place = W.Databases.kind.point (W.Databases.members databases.now) in
            IfOk result (λ moved. EachRun W.rules W.holds run.old place (λ r n.
            Costs (Some (turns_of W.rules r.at.1 (block_of r).ops)) moved n)) }

        // It fails exactly where the states would end at the last number, but for want of memory.
        ensures exhausted { let place = W.Databases.kind.point (W.Databases.members databases.now) in
            IsErrOf result AppFault.Failed
            → EachRun W.rules W.holds run.old place (λ r n. LeadsToFull W.rules
            W.Databases.kind.Full r.at.1 (block_of r).ops (block_of r).height.0) }
        ensures within { let place = W.Databases.kind.point (W.Databases.members databases.now) in
            IfOk result (λ moved. IsSealed moved
            → EachRun W.rules W.holds run.old place (λ r n. LeadsToRoom W.rules
            W.Databases.kind.Full r.at.1 (block_of r).ops (block_of r).height.0)) }
        ensures faults { run.new.faults ≡ counted result run.old.faults }
        ensures failed { IsErrOf result AppFault.Failed → Rose run.old.faults run.new.faults }
        ensures later { run.old.faults ≤ run.new.faults }
    {
        turn_run::<W>(run, databases)
    }

    fn turn_build(
        build: &mut BankBuild<Drafted<W>>,
        databases: &W::Databases,
    ) -> Result<Moved<Handoff<ProposedBlock<BankBlock, Sealed<W>>>>, AppFault>
        ensures ok { let place = W.Databases.kind.point (W.Databases.members databases.now) in
            IfOk result (λ moved. EachBuild W.rules W.holds build.old place (λ b n.
            BuildEnds (bank_works W.rules W.holds W.Databases.kind.target_of) moved
            W.Databases.shows b (IsBuild W.rules W.holds build.new b (n + 1)))) }
        ensures cost { let place = W.Databases.kind.point (W.Databases.members databases.now) in
            IfOk result (λ moved. EachBuild W.rules W.holds build.old place (λ b n.
            Costs (Some (turns_of W.rules b.at.1 b.asked.input.ops)) moved n)) }

        // It fails exactly where the states would end at the last number, but for want of memory.
        ensures exhausted { let place = W.Databases.kind.point (W.Databases.members databases.now) in
            IsErrOf result AppFault.Failed
            → EachBuild W.rules W.holds build.old place (λ b n. LeadsToFull W.rules
            W.Databases.kind.Full b.at.1 b.asked.input.ops (b.asked.parent.height.0 + 1)) }
        ensures within { let place = W.Databases.kind.point (W.Databases.members databases.now) in
            IfOk result (λ moved. IsBuilt moved
            → EachBuild W.rules W.holds build.old place (λ b n. LeadsToRoom W.rules
            W.Databases.kind.Full b.at.1 b.asked.input.ops (b.asked.parent.height.0 + 1))) }
        ensures faults { build.new.faults ≡ counted result build.old.faults }
        ensures failed { IsErrOf result AppFault.Failed → Rose build.old.faults build.new.faults }
        ensures later { build.old.faults ≤ build.new.faults }
    {
        turn_build::<W>(build, databases)
    }

    fn capture(
        &mut self,
        _context: Round,
        _block: &BankBlock,
        _batches: &Sealed<W>,
        _databases: &W::Databases,
    ) -> Result<(), AppFault>
        ensures { IsOk result }
    {
        Ok(())
    }

    fn finalized(
        &mut self,
        _context: Round,
        block: &BankBlock,
        _captured: (),
        _databases: &W::Databases,
    ) -> Result<Hooked<BankHook>, AppFault>
        ensures ok { IsOk result }
        ensures hook { IfOk result (λ hooked. IsLeft hooked block.now.slow 0) }
        ensures cost { IfOk result (λ hooked. CostsHook (Some block.now.slow) hooked) }
    {
        Ok(hook_of(block.slow))
    }

    fn turn_hook(hook: &mut BankHook, _databases: &W::Databases) -> Result<Moved<()>, AppFault>
        ensures ok { IsOk result }
        ensures left { hook.new.left ≡ hook.old.left - 1 }
        ensures goes_on { IfOk result (λ moved. GoesOn moved hook.new.left) }
        ensures taken { IfOk result (λ moved. (turns taken : ℕ) →
            IsLeft (Hooked.Pending hook.old) turns taken →
            IsLeft (left moved hook.new) turns (taken + 1)) }
        ensures cost { IfOk result (λ moved. (turns taken : ℕ) →
            IsLeft (Hooked.Pending hook.old) turns taken →
            Costs (Some turns) moved taken) }
    {
        Ok(turn_hook(hook))
    }
}
