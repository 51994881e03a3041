//! What a blockchain does with its databases.

use crate::set::DatabaseSet;
use stateful_base::{Ancestry, Block, Faulty, Finality, Handoff, Moved, Rounded, Scheme, Share};
use thiserror::Error;

/// A sealed batch over an application's databases.
pub type Batch<A> = <<A as Application>::Databases as DatabaseSet>::Merkleized;

/// A batch over an application's databases that may still change.
pub type OpenBatch<A> = <<A as Application>::Databases as DatabaseSet>::Unmerkleized;

/// What a block of an application commits to.
pub type Targets<A> = <<A as Application>::Databases as DatabaseSet>::SyncTargets;

/// Why an application refused a call.
#[derive(Clone, Copy, Debug, PartialEq, Eq, Error)]
pub enum AppFault {
    /// It failed, and has counted it.
    #[error("Failed")]
    Failed,
    #[error("OutOfMemory")]
    OutOfMemory,
}

/// How a block is asked for: to be prepared, where the application decides how it is handed over,
/// or to be proposed.
#[derive(Clone, Copy, Debug, PartialEq, Eq)]
pub enum ProposalKind {
    Prepare,
    Propose,
}

/// What a build is given: what its request brings, and what the machine gives to each build.
#[derive(Debug, Drop)]
pub struct Input<U, P> {
    pub upstream: U,
    pub provider: P,
}

/// A block that was built, with a batch that leads to the states after it.
#[derive(Debug, Drop)]
pub struct ProposedBlock<B, M> {
    pub block: B,
    pub merkleized: M,
}

/// A block that an application has built.
pub type Proposed<A> = ProposedBlock<<A as Application>::Block, Batch<A>>;

/// What an application has left to do behind a finalized block: nothing, or a hook.
#[derive(Debug, Drop)]
pub enum Hooked<H> {
    Done,
    Pending(H),
}

/// Runs and builds blocks on batches over its databases.
///
/// A run is started for a block on batches that show some states. At each turn at which the
/// databases are at a point of the batches' chain it goes on, or it ends: with batches that show
/// the states after the block, or with none where there are no such states or, for a candidate,
/// where the block isn't acceptable. It fails only where its count rises. A build is started on the
/// states of a parent likewise, and ends with nothing, or with a block and batches that show the
/// states after it.
///
/// Behind a finalized block the application has nothing left to do, or a hook, which is turned to
/// its end while the databases hold the states after the block. What it read of the states before
/// is handed to it.
///
/// What all of that is of is told by `works`, with the turns that were taken.
pub trait Application: Faulty + Sized {
    ghost use Rattle.std.specs.Prelude.{◌≡◌, ℕ, List, ◌∷◌, ◌≤◌, ◌+◌, ◌⊎◌, OnOk, IfOk, IsErrOf};
    ghost use Rattle.std.specs.Prelude.{Some};
    ghost use Rattle.stateful_base.specs.Causes.{Rose};
    ghost use Rattle.stateful_db.specs.Chain.{IsPoint};
    ghost use Rattle.stateful_db.specs.Meaning.{outcome, Ends};
    ghost use Rattle.stateful_db.specs.Hooks.{left};
    ghost use Rattle.stateful_db.specs.Works.{Works, RunOf, BuildOf, HookOf, asked_for, run_of};
    ghost use Rattle.stateful_db.specs.Works.{build_of, hook_of, block_of, run_chain, Costs};
    ghost use Rattle.stateful_db.specs.Works.{CostsHook, BuildEnds, TakesTurns};
    ghost use Rattle.stateful_db.specs.declared.application.ProposalKind.{ProposalKind};
    ghost use Rattle.stateful_db.specs.declared.application.Hooked.{Hooked};

    /// Who certifies finalizations.
    type SigningScheme: Scheme;

    /// What consensus knows of a block.
    type Context: Rounded + Copy;

    type Block: Block<Context = Self::Context> + Drop;

    type Databases: DatabaseSet + Drop;

    /// What is read of the states before a block is applied.
    type Captured: Drop;

    /// What builds are given beside their requests.
    type Provider: Copy;

    /// What a request to build brings.
    type Input: Share + Drop;

    type Run: Faulty + Drop;

    type Build: Faulty + Drop;

    type Hook: Faulty + Drop;

    /// How it works.
    ghost works: { Works Self.Block Self.Context Self.Input Self.Provider Self.Databases.Ids
        Self.Databases.States Self.Databases.SyncTargets Self.Run Self.Build Self.Hook
        Self.Captured };

    /// What it keeps of the blocks that were finalized.
    ghost notes: { Self → works.Notes };

    /// What the block commits to.
    fn sync_targets(block: &Self::Block) -> Targets<Self>
        ensures { result ≡ works.meaning.targets block.now };

    /// The block at height 0.
    fn genesis(&mut self) -> Result<Self::Block, AppFault>
        ensures height { IfOk result (λ b. Self.Block.header.height b ≡ 0) }
        ensures notes { OnOk result (notes self.new ≡ notes self.old) }
        ensures failed { IsErrOf result AppFault.Failed
            → Rose (Self.count self.old) (Self.count self.new) × (notes self.new ≡ notes self.old) }
        ensures later { Self.count self.old ≤ Self.count self.new };

    /// Starts a build on the first block of the ancestry, which is handed over as the application
    /// decides.
    fn prepare(
        &mut self,
        context: Self::Context,
        ancestry: Ancestry<Self::Block>,
        batches: OpenBatch<Self>,
        input: Input<Self::Input, Self::Provider>,
    ) -> Result<Self::Build, AppFault>
        ensures ok { IfOk result (λ b. (i : Self.Databases.Ids)
            (p : Self.Databases.Ids × Self.Databases.States)
            (c : List (Self.Databases.Ids × Self.Databases.States))
            → Self.Databases.opened batches ((i, Self.Databases.kind.begun p.1) ∷ p ∷ c)
            → works.building b (build_of
            (asked_for ProposalKind.Prepare context ancestry input.upstream) input.provider i p
            c) 0) }
        ensures notes { OnOk result (notes self.new ≡ notes self.old) }
        ensures failed { IsErrOf result AppFault.Failed
            → Rose (Self.count self.old) (Self.count self.new) × (notes self.new ≡ notes self.old) }
        ensures later { Self.count self.old ≤ Self.count self.new };

    /// Starts a build on the first block of the ancestry.
    fn propose(
        &mut self,
        context: Self::Context,
        ancestry: Ancestry<Self::Block>,
        batches: OpenBatch<Self>,
        input: Input<Self::Input, Self::Provider>,
    ) -> Result<Self::Build, AppFault>
        ensures ok { IfOk result (λ b. (i : Self.Databases.Ids)
            (p : Self.Databases.Ids × Self.Databases.States)
            (c : List (Self.Databases.Ids × Self.Databases.States))
            → Self.Databases.opened batches ((i, Self.Databases.kind.begun p.1) ∷ p ∷ c)
            → works.building b (build_of
            (asked_for ProposalKind.Propose context ancestry input.upstream) input.provider i p
            c) 0) }
        ensures notes { OnOk result (notes self.new ≡ notes self.old) }
        ensures failed { IsErrOf result AppFault.Failed
            → Rose (Self.count self.old) (Self.count self.new) × (notes self.new ≡ notes self.old) }
        ensures later { Self.count self.old ≤ Self.count self.new };

    /// Starts a run of the first block of the ancestry. A candidate has its parent behind it.
    fn process(
        &mut self,
        context: Self::Context,
        ancestry: Ancestry<Self::Block>,
        batches: OpenBatch<Self>,
        finality: Finality,
    ) -> Result<Self::Run, AppFault>
        ensures ok { IfOk result (λ r. (i : Self.Databases.Ids)
            (p : Self.Databases.Ids × Self.Databases.States)
            (c : List (Self.Databases.Ids × Self.Databases.States))
            → Self.Databases.opened batches ((i, Self.Databases.kind.begun p.1) ∷ p ∷ c)
            → works.runs r (run_of finality context ancestry i p c) 0) }
        ensures notes { OnOk result (notes self.new ≡ notes self.old) }
        ensures failed { IsErrOf result AppFault.Failed
            → Rose (Self.count self.old) (Self.count self.new) × (notes self.new ≡ notes self.old) }
        ensures later { Self.count self.old ≤ Self.count self.new };

    /// One turn. `Done(None)` rejects the block.
    fn turn(
        run: &mut Self::Run,
        databases: &Self::Databases,
    ) -> Result<Moved<Option<Batch<Self>>>, AppFault>
        ensures ok { IfOk result (λ moved. (r : RunOf Self.Block Self.Context Self.Databases.Ids
            Self.Databases.States) (n : ℕ) (q : Self.Databases.Ids × Self.Databases.States)
            → works.runs run.old r n
            → Self.Databases.kind.point (Self.Databases.members databases.now) ≡ Some q
            → IsPoint q (r.at ∷ r.below)
            → Ends moved (outcome works.meaning r.finality r.at.1 (block_of r))
            (λ m s. Self.Databases.shows m (run_chain r s)) (works.runs run.new r (n + 1))) }
        ensures cost { IfOk result (λ moved. (r : RunOf Self.Block Self.Context Self.Databases.Ids
            Self.Databases.States) (n : ℕ) (q : Self.Databases.Ids × Self.Databases.States)
            → works.runs run.old r n
            → Self.Databases.kind.point (Self.Databases.members databases.now) ≡ Some q
            → IsPoint q (r.at ∷ r.below)
            → Costs (works.run_cost r.finality r.at.1 (block_of r)) moved n) }
        ensures failed { IsErrOf result AppFault.Failed
            → Rose (Self.Run.count run.old) (Self.Run.count run.new) }
        ensures later { Self.Run.count run.old ≤ Self.Run.count run.new };

    /// One turn of a build. Where it ends without a block it answers `Wait`. A block that was asked
    /// for by `propose` is meant alike by `Vote` and `Stage`.
    fn turn_build(
        build: &mut Self::Build,
        databases: &Self::Databases,
    ) -> Result<Moved<Handoff<Proposed<Self>>>, AppFault>
        ensures ok { IfOk result (λ moved. (b : BuildOf Self.Block Self.Context Self.Input
            Self.Provider Self.Databases.Ids Self.Databases.States) (n : ℕ)
            (q : Self.Databases.Ids × Self.Databases.States)
            → works.building build.old b n
            → Self.Databases.kind.point (Self.Databases.members databases.now) ≡ Some q
            → IsPoint q (b.at ∷ b.below)
            → BuildEnds works moved Self.Databases.shows b (works.building build.new b (n + 1))) }
        ensures cost { IfOk result (λ moved. (b : BuildOf Self.Block Self.Context Self.Input
            Self.Provider Self.Databases.Ids Self.Databases.States) (n : ℕ)
            (q : Self.Databases.Ids × Self.Databases.States)
            → works.building build.old b n
            → Self.Databases.kind.point (Self.Databases.members databases.now) ≡ Some q
            → IsPoint q (b.at ∷ b.below)
            → Costs (works.build_cost b.asked b.at.1) moved n) }
        ensures failed { IsErrOf result AppFault.Failed
            → Rose (Self.Build.count build.old) (Self.Build.count build.new) }
        ensures later { Self.Build.count build.old ≤ Self.Build.count build.new };

    /// Reads the states before the block is applied, which the databases hold. It answers at once.
    fn capture(
        &mut self,
        context: Self::Context,
        block: &Self::Block,
        batches: &Batch<Self>,
        databases: &Self::Databases,
    ) -> Result<Self::Captured, AppFault>
        ensures ok { IfOk result (λ captured. (p : Self.Databases.Ids × Self.Databases.States)
            → Self.Databases.kind.point (Self.Databases.members databases.now) ≡ Some p
            → works.captures captured context block.now p.1) }
        ensures notes { OnOk result (notes self.new ≡ notes self.old) }
        ensures failed { IsErrOf result AppFault.Failed
            → Rose (Self.count self.old) (Self.count self.new) × (notes self.new ≡ notes self.old) }
        ensures later { Self.count self.old ≤ Self.count self.new };

    /// Observes the states after the block is applied, with what was read of those before it.
    fn finalized(
        &mut self,
        context: Self::Context,
        block: &Self::Block,
        captured: Self::Captured,
        databases: &Self::Databases,
    ) -> Result<Hooked<Self::Hook>, AppFault>
        ensures ok { IfOk result (λ hooked. (before : Self.Databases.States)
            (p : Self.Databases.Ids × Self.Databases.States)
            → works.captures captured context block.now before
            → Self.Databases.kind.point (Self.Databases.members databases.now) ≡ Some p
            → works.hooks hooked (hook_of context block.now before p.1) 0) }
        ensures cost { IfOk result (λ hooked. (p : Self.Databases.Ids × Self.Databases.States)
            → Self.Databases.kind.point (Self.Databases.members databases.now) ≡ Some p
            → CostsHook (works.hook_cost block.now p.1) hooked) }
        ensures notes { OnOk result (notes self.new ≡ works.noted (notes self.old) block.now) }
        ensures failed { IsErrOf result AppFault.Failed
            → Rose (Self.count self.old) (Self.count self.new)
            × ((notes self.new ≡ notes self.old)
            ⊎ (notes self.new ≡ works.noted (notes self.old) block.now)) }
        ensures later { Self.count self.old ≤ Self.count self.new };

    /// One turn of a hook.
    fn turn_hook(hook: &mut Self::Hook, databases: &Self::Databases) -> Result<Moved<()>, AppFault>
        ensures ok { IfOk result (λ moved. (h : HookOf Self.Block Self.Context
            Self.Databases.States) (n : ℕ) (p : Self.Databases.Ids × Self.Databases.States)
            → works.hooks (Hooked.Pending hook.old) h n
            → Self.Databases.kind.point (Self.Databases.members databases.now) ≡ Some p
            → p.1 ≡ h.after
            → works.hooks (left moved hook.new) h (n + 1)) }
        ensures cost { IfOk result (λ moved. (h : HookOf Self.Block Self.Context
            Self.Databases.States) (n : ℕ) (p : Self.Databases.Ids × Self.Databases.States)
            → works.hooks (Hooked.Pending hook.old) h n
            → Self.Databases.kind.point (Self.Databases.members databases.now) ≡ Some p
            → p.1 ≡ h.after
            → Costs (works.hook_cost h.block h.after) moved n) }
        ensures failed { IsErrOf result AppFault.Failed
            → Rose (Self.Hook.count hook.old) (Self.Hook.count hook.new) }
        ensures later { Self.Hook.count hook.old ≤ Self.Hook.count hook.new };

    /// A run takes a turn at least, and so does a build.
    ghost takes_turns: { TakesTurns works };
}
