//! The application of rules that take one turn.
//!
//! What its blocks do, and what its runs and builds are of, is told by `one_turn_works`: the clauses
//! of `Application` are about that record. Builds are given nothing beside their requests, nothing is
//! read before a block is applied, and no hook is left after one.
//!
//! It never fails. Where no height is left for a block, or no number for the range of a state, it
//! says that memory is wanting.

ghost use Rattle.std.specs.Prelude.{◌≡◌, ℕ, List, ◌∷◌, IfOk, IsErrOf};
ghost use Rattle.stateful_db.specs.Works.{asked_for, build_of};
ghost use Rattle.stateful_db.specs.declared.application.ProposalKind.{ProposalKind};
ghost use Rattle.stateful_db_plain.specs.Whole.{Whole, begun};
ghost use Rattle.stateful_db_plain.specs.Shown.{DraftShows};
ghost use Rattle.stateful_simple_app.specs.Works.{IsBuild};

use crate::block::PayloadBlock;
use crate::build::{Header, OneTurnBuild, end_build};
use crate::draft::Draft;
use crate::one_turn::OneTurn;
use crate::run::{OneTurnRun, end_run};
use stateful_db::{AppFault, Application, Held, Hooked, Input, ProposedBlock};
use stateful_db_plain::{Plain, PlainMerkleized, PlainUnmerkleized};
use stateful_types::{
    Ancestry, Block, Digest, Faulty, Finality, Handoff, Moved, Round, Target, VoteScheme,
};
use std::alloc::Global;
use std::marker::PhantomData;

/// A hook that does nothing. None is ever left after a block.
#[derive(Clone, Copy, Debug, PartialEq, Eq)]
pub struct NoHook;

impl Faulty for NoHook {
    ghost count = { λ _. 0 };

    fn faults(&self) -> u64 {
        0
    }
}

/// The application of these rules, over one database that is kept whole.
#[derive(Drop)]
pub struct OneTurnApplication<A> {
    alloc: Global,
    rules: PhantomData<A>,
}

impl<A> Faulty for OneTurnApplication<A> {
    ghost count = { λ _. 0 };

    fn faults(&self) -> u64 {
        0
    }
}

impl<A: OneTurn> OneTurnApplication<A> {
    /// The application, without faults.
    pub fn new(alloc: Global) -> OneTurnApplication<A>
        ensures { ⟦<OneTurnApplication<A> as Faulty>⟧.count result ≡ 0 }
    {
        OneTurnApplication {
            alloc,
            rules: PhantomData,
        }
    }

    /// A build above the first block of the ancestry, whose digest is made of its bytes.
    fn build(
        &self,
        context: Round,
        ancestry: &Ancestry<PayloadBlock<A::Payload>>,
        batch: PlainUnmerkleized,
        input: A::Input,
    ) -> Result<OneTurnBuild<A::Input>, AppFault>
        ensures build { IfOk result (λ build.
            (kind : ProposalKind) (i : ℕ) (p : ℕ × Whole) (c : List (ℕ × Whole)) →
            DraftShows batch ((i, begun p.1) ∷ p ∷ c) →
            IsBuild A.Payload.bytes build
            (build_of (asked_for kind context ancestry.now input) tt i p c) 0) }
        ensures failed { IsErrOf result AppFault.Failed → ⊥ }
    {
        let parent = ancestry.first.inner();
        let Some(height) = parent.height.next() else {
            return Err(AppFault::OutOfMemory);
        };
        let mut bytes = Vec::new(self.alloc);
        if parent.encode(&mut bytes).is_err() {
            return Err(AppFault::OutOfMemory);
        }
        let header = Header {
            parent: Digest::of(bytes.as_slice()),
            height,
            round: context,
        };
        Ok(OneTurnBuild {
            header,
            work: Some((input, batch)),
        })
    }
}

impl<A: OneTurn + Drop> Application for OneTurnApplication<A> {
    ghost use Rattle.std.specs.Prelude.{◌≡◌, ◌∷◌, ℕ, List, IsOk, IfOk, IsErrOf};
    ghost use Rattle.stateful_db.specs.Works.{asked_for, run_of, build_of};
    ghost use Rattle.stateful_db.specs.declared.application.Hooked.{Hooked};
    ghost use Rattle.stateful_db_plain.specs.Whole.{Whole, begun};
    ghost use Rattle.stateful_db_plain.specs.Shown.{DraftShows};
    ghost use Rattle.stateful_simple_app.specs.Blocks.{genesis_block};
    ghost use Rattle.stateful_simple_app.specs.Works.{IsRun, IsBuild};
    ghost use Rattle.stateful_simple_app.specs.Works.{one_turn_works, one_turn_takes_turns};

    type SigningScheme = VoteScheme;

    type Context = Round;

    type Block = PayloadBlock<A::Payload>;

    type Databases = Held<Plain>;

    type Captured = ();

    type Provider = ();

    type Input = A::Input;

    type Run = OneTurnRun<A::Payload>;

    type Build = OneTurnBuild<A::Input>;

    type Hook = NoHook;

    ghost works = { one_turn_works A.rules A.Payload.bytes };

    ghost notes = { λ application. tt };

    ghost takes_turns = { one_turn_takes_turns A.rules A.Payload.bytes };

    fn sync_targets(block: &PayloadBlock<A::Payload>) -> Target {
        block.target
    }

    fn genesis(&mut self) -> Result<PayloadBlock<A::Payload>, AppFault>
        ensures ok { IsOk result }
        ensures block { IfOk result (λ b. b ≡ genesis_block A.rules.genesis) }
    {
        Ok(PayloadBlock::genesis(A::genesis(self.alloc)))
    }

    fn prepare(
        &mut self,
        context: Round,
        ancestry: Ancestry<PayloadBlock<A::Payload>>,
        batches: PlainUnmerkleized,
        input: Input<A::Input, ()>,
    ) -> Result<OneTurnBuild<A::Input>, AppFault>
        ensures build { IfOk result (λ build. (i : ℕ) (p : ℕ × Whole) (c : List (ℕ × Whole)) →
            DraftShows batches ((i, begun p.1) ∷ p ∷ c) →
            IsBuild A.Payload.bytes build
            (build_of (asked_for ProposalKind.Prepare context ancestry input.upstream)
            input.provider i p c) 0) }
        ensures failed { IsErrOf result AppFault.Failed → ⊥ }
    {
        let Input {
            upstream,
            provider: (),
        } = input;
        Ok(self.build(context, &ancestry, batches, upstream)?)
    }

    fn propose(
        &mut self,
        context: Round,
        ancestry: Ancestry<PayloadBlock<A::Payload>>,
        batches: PlainUnmerkleized,
        input: Input<A::Input, ()>,
    ) -> Result<OneTurnBuild<A::Input>, AppFault>
        ensures build { IfOk result (λ build. (i : ℕ) (p : ℕ × Whole) (c : List (ℕ × Whole)) →
            DraftShows batches ((i, begun p.1) ∷ p ∷ c) →
            IsBuild A.Payload.bytes build
            (build_of (asked_for ProposalKind.Propose context ancestry input.upstream)
            input.provider i p c) 0) }
        ensures failed { IsErrOf result AppFault.Failed → ⊥ }
    {
        let Input {
            upstream,
            provider: (),
        } = input;
        Ok(self.build(context, &ancestry, batches, upstream)?)
    }

    fn process(
        &mut self,
        context: Round,
        ancestry: Ancestry<PayloadBlock<A::Payload>>,
        batches: PlainUnmerkleized,
        finality: Finality,
    ) -> Result<OneTurnRun<A::Payload>, AppFault>
        ensures ok { IsOk result }
        ensures run { IfOk result (λ run. (i : ℕ) (p : ℕ × Whole) (c : List (ℕ × Whole)) →
            DraftShows batches ((i, begun p.1) ∷ p ∷ c) →
            IsRun run (run_of finality context ancestry i p c) 0) }
    {
        let Ancestry { first, rest: _ } = ancestry;
        Ok(OneTurnRun {
            block: first,
            finality,
            batch: Some(batches),
        })
    }

    fn turn(
        run: &mut OneTurnRun<A::Payload>,
        databases: &Held<Plain>,
    ) -> Result<Moved<Option<PlainMerkleized>>, AppFault> {
        let (Held::Here(database), Some(batch)) = (databases, run.batch.take()) else {
            return Ok(Moved::Done(None));
        };
        let draft = Draft { batch, database };
        let payload = &run.block.inner().payload;
        Ok(Moved::Done(end_run::<A>(draft, payload, run.finality)?))
    }

    fn turn_build(
        build: &mut OneTurnBuild<A::Input>,
        databases: &Held<Plain>,
    ) -> Result<
        Moved<Handoff<ProposedBlock<PayloadBlock<A::Payload>, PlainMerkleized>>>,
        AppFault,
    > {
        let (Held::Here(database), Some((input, batch))) = (databases, build.work.take()) else {
            return Ok(Moved::Done(Handoff::Wait));
        };
        let draft = Draft { batch, database };
        Ok(Moved::Done(end_build::<A>(draft, build.header, input)?))
    }

    fn capture(
        &mut self,
        _context: Round,
        _block: &PayloadBlock<A::Payload>,
        _batches: &PlainMerkleized,
        _databases: &Held<Plain>,
    ) -> Result<(), AppFault>
        ensures { IsOk result }
    {
        Ok(())
    }

    fn finalized(
        &mut self,
        _context: Round,
        _block: &PayloadBlock<A::Payload>,
        _captured: (),
        _databases: &Held<Plain>,
    ) -> Result<Hooked<NoHook>, AppFault>
        ensures ok { IsOk result }
        ensures done { IfOk result (λ hooked. hooked ≡ Hooked.Done) }
    {
        Ok(Hooked::Done)
    }

    fn turn_hook(_hook: &mut NoHook, _databases: &Held<Plain>) -> Result<Moved<()>, AppFault>
        ensures { IsOk result }
    {
        Ok(Moved::Done(()))
    }
}
