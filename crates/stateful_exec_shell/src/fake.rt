//! The fake application.

ghost use Rattle.std.specs.Prelude.{◌≡◌, ◌≢◌, ℕ, List, ◌∷◌, IfOk, IsOk};
ghost use Rattle.stateful_db_plain.specs.Whole.{Whole, begun};
ghost use Rattle.stateful_db_plain.specs.Shown.{DraftShows};
ghost use Rattle.stateful_db.specs.Works.{run_of, build_of, asked_for};
ghost use Rattle.stateful_db.specs.declared.application.ProposalKind.{ProposalKind};
ghost use Rattle.stateful_exec_shell.specs.Works.{IsRun, IsBuild, IsHanded, FakeBuildOf};

use crate::block::{End, FakeBlock};
use crate::work::Work;
use stateful_db::{AppFault, Application, Held, Hooked, Input, ManagedDb, ProposedBlock};
use stateful_db_plain::{Plain, PlainMerkleized, PlainUnmerkleized};
use stateful_types::{
    Ancestry, Digest, Epoch, Faulty, Finality, Handoff, Height, Moved, OutOfMemory, Round, Share,
    Target, View, VoteScheme,
};

/// An application whose blocks and orders say what becomes of them.
#[derive(Clone, Copy)]
pub struct Fake;

/// What a build is ordered to do: so many turns before the last one, how it ends, and what it hands
/// over then.
#[derive(Clone, Copy)]
pub struct Order {
    pub turns: u8,
    pub end: End,
    pub given: Handoff<FakeBlock>,
}

impl Share for Order {
    fn share(&self) -> Result<Order, OutOfMemory> {
        Ok(*self)
    }
}

/// A build, by its turns and by what it hands over.
#[derive(Drop)]
pub struct FakeBuild {
    work: Work,
    given: Handoff<FakeBlock>,
}

impl Faulty for FakeBuild {
    ghost count = { λ build. build.work.faults };

    fn faults(&self) -> u64 {
        self.work.faults()
    }
}

/// A hook, by the turns that are left of it.
#[derive(Clone, Copy)]
pub struct FakeHook {
    left: u8,
    end: End,
    faults: u64,
}

impl Faulty for FakeHook {
    ghost count = { λ hook. hook.faults };

    fn faults(&self) -> u64 {
        self.faults
    }
}

impl Faulty for Fake {
    ghost count = { λ _. 0 };

    fn faults(&self) -> u64 {
        0
    }
}

/// A build of this order.
fn start(order: Order, batch: PlainUnmerkleized) -> FakeBuild
    ensures { (b : FakeBuildOf) → DraftShows batch ((b.own, begun b.at.1) ∷ b.at ∷ b.below)
        → IsBuild result b 0 }
{
    FakeBuild {
        work: Work::new(order.turns, order.end, batch),
        given: order.given,
    }
}

/// The block with its batch, as it is handed over; a block that leads to no states isn't.
fn hand_over(
    given: Handoff<FakeBlock>,
    merkleized: PlainMerkleized,
) -> Handoff<ProposedBlock<FakeBlock, PlainMerkleized>>
    ensures { IsHanded merkleized result }
{
    match given {
        Handoff::Vote(block) if block.end != End::Nothing => {
            Handoff::Vote(ProposedBlock { block, merkleized })
        }
        Handoff::Stage(block) if block.end != End::Nothing => {
            Handoff::Stage(ProposedBlock { block, merkleized })
        }
        _ => Handoff::Wait,
    }
}

impl Application for Fake {
    ghost use Rattle.std.specs.Prelude.{◌≡◌, ◌∷◌, ℕ, List, IfOk, IsOk};
    ghost use Rattle.stateful_db.specs.Works.{asked_for, run_of, build_of};
    ghost use Rattle.stateful_db_plain.specs.Whole.{Whole, begun};
    ghost use Rattle.stateful_db_plain.specs.Shown.{DraftShows};
    ghost use Rattle.stateful_exec_shell.specs.Works.{fake_works, fake_takes_turns, IsRun, IsBuild};

    type SigningScheme = VoteScheme;

    type Context = Round;

    type Block = FakeBlock;

    type Databases = Held<Plain>;

    type Captured = ();

    type Provider = ();

    type Input = Order;

    type Run = Work;

    type Build = FakeBuild;

    type Hook = FakeHook;

    ghost works = { fake_works };

    ghost notes = { λ fake. tt };

    ghost takes_turns = { fake_takes_turns };

    fn sync_targets(block: &FakeBlock) -> Target {
        block.target
    }

    fn genesis(&mut self) -> Result<FakeBlock, AppFault> {
        Ok(FakeBlock {
            name: 0,
            parent: Digest([0; 32]),
            height: Height(0),
            round: Round {
                epoch: Epoch(0),
                view: View(0),
            },
            target: Plain::initial_sync_target(),
            turns: 0,
            end: End::States,
            hook: 0,
        })
    }

    fn prepare(
        &mut self,
        context: Round,
        ancestry: Ancestry<FakeBlock>,
        batches: PlainUnmerkleized,
        input: Input<Order, ()>,
    ) -> Result<FakeBuild, AppFault>
        ensures ok { IsOk result }
        ensures build { IfOk result (λ build. (i : ℕ) (p : ℕ × Whole) (c : List (ℕ × Whole)) →
            DraftShows batches ((i, begun p.1) ∷ p ∷ c) →
            IsBuild build (build_of (asked_for ProposalKind.Prepare context ancestry input.upstream)
            input.provider i p c) 0) }
    {
        let _asked = (context, ancestry);
        let Input {
            upstream,
            provider: (),
        } = input;
        Ok(start(upstream, batches))
    }

    fn propose(
        &mut self,
        context: Round,
        ancestry: Ancestry<FakeBlock>,
        batches: PlainUnmerkleized,
        input: Input<Order, ()>,
    ) -> Result<FakeBuild, AppFault>
        ensures ok { IsOk result }
        ensures build { IfOk result (λ build. (i : ℕ) (p : ℕ × Whole) (c : List (ℕ × Whole)) →
            DraftShows batches ((i, begun p.1) ∷ p ∷ c) →
            IsBuild build (build_of (asked_for ProposalKind.Propose context ancestry input.upstream)
            input.provider i p c) 0) }
    {
        let _asked = (context, ancestry);
        let Input {
            upstream,
            provider: (),
        } = input;
        Ok(start(upstream, batches))
    }

    fn process(
        &mut self,
        context: Round,
        ancestry: Ancestry<FakeBlock>,
        batches: PlainUnmerkleized,
        finality: Finality,
    ) -> Result<Work, AppFault>
        ensures ok { IsOk result }
        ensures run { IfOk result (λ run. (i : ℕ) (p : ℕ × Whole) (c : List (ℕ × Whole)) →
            DraftShows batches ((i, begun p.1) ∷ p ∷ c) →
            IsRun run (run_of finality context ancestry i p c) 0) }
    {
        let _of = (context, finality);
        let block = ancestry.first.inner();
        Ok(Work::new(block.turns, block.end, batches))
    }

    fn turn(
        run: &mut Work,
        databases: &Held<Plain>,
    ) -> Result<Moved<Option<PlainMerkleized>>, AppFault> {
        match databases {
            Held::Here(database) => Ok(run.turn(database)?),
            _ => Ok(Moved::Done(None)),
        }
    }

    fn turn_build(
        build: &mut FakeBuild,
        databases: &Held<Plain>,
    ) -> Result<Moved<Handoff<ProposedBlock<FakeBlock, PlainMerkleized>>>, AppFault> {
        let Held::Here(database) = databases else {
            return Ok(Moved::Done(Handoff::Wait));
        };
        match build.work.turn(database)? {
            Moved::Pending => Ok(Moved::Pending),
            Moved::Done(None) => Ok(Moved::Done(Handoff::Wait)),
            Moved::Done(Some(merkleized)) => Ok(Moved::Done(hand_over(build.given, merkleized))),
        }
    }

    fn capture(
        &mut self,
        _context: Round,
        _block: &FakeBlock,
        _batches: &PlainMerkleized,
        _databases: &Held<Plain>,
    ) -> Result<(), AppFault> {
        Ok(())
    }

    fn finalized(
        &mut self,
        _context: Round,
        block: &FakeBlock,
        _captured: (),
        _databases: &Held<Plain>,
    ) -> Result<Hooked<FakeHook>, AppFault> {
        if block.hook == 0 {
            return Ok(Hooked::Done);
        }
        Ok(Hooked::Pending(FakeHook {
            left: block.hook,
            end: block.end,
            faults: 0,
        }))
    }

    fn turn_hook(hook: &mut FakeHook, _databases: &Held<Plain>) -> Result<Moved<()>, AppFault> {
        hook.left = hook.left.saturating_sub(1);
        if hook.left > 0 {
            return Ok(Moved::Pending);
        }
        if hook.end == End::Fails {
            hook.faults = hook.faults.saturating_add(1);
            return Err(AppFault::Failed);
        }
        Ok(Moved::Done(()))
    }
}
