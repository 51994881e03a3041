//! An application with the states of blocks that aren't final yet.
//!
//! A finalization is led by the caller, one call after another:
//!
//! 1. `redelivered` tells that the block is above the anchor. `begin` begins, and with `boundary`
//!    the caller pauses execution (`pause` of a handler).
//! 2. Once no run is awaited, a block that isn't cached is run: `run_finalized`, and turns of its
//!    job.
//! 3. `advance` hands out the batch, and the caller applies it to the databases.
//! 4. `hook` lets the application observe the states, and `turn_hook` turns what it leaves.
//! 5. `drop_root` ends it, and `resume` of a handler goes on with what was paused.
//!
//! What goes on stands in `front`, and the live build in `build` (`propose`, `turn_build`). The
//! contracts say of each call what it does to both. That the calls come in this order is the loop's
//! to see to (`finalizing.rt` of `stateful_loop_finals`).

ghost use Rattle.std.specs.Prelude.{◌≡◌, ◌↔◌, ◌<◌, ◌≤◌, ◌++◌, ◌∷◌, ◌⊎◌, [], ℕ, true, false, None};
ghost use Rattle.std.specs.Prelude.{OnOk, OnErr, IfOk, IfErr, IsErrOf, IsTrue};
ghost use Rattle.std.specs.Option.{option_copied};
ghost use Rattle.stateful_base.specs.Causes.{Rose};
ghost use Rattle.stateful_exec_cache.specs.Cache.{IsIn};
ghost use Rattle.stateful_history.specs.declared.mark.JobKind.TheVariants as job;
ghost use Rattle.stateful_history.specs.declared.mark.Mark.TheVariants.{Started};
ghost use Rattle.stateful_exec_model.specs.Building.{Proposes, FaultsPropose};
ghost use Rattle.stateful_exec_model.specs.Built.{TurnsBuild, FaultsTurn};
ghost use Rattle.stateful_exec_model.specs.Causes.{FaultsStart};
ghost use Rattle.stateful_exec_model.specs.Finalizing.{IsRedelivered, Conflicts, MayBegin, FaultsBegin};
ghost use Rattle.stateful_exec_pause.specs.Boundary.{IsBoundaryOf};
ghost use Rattle.stateful_exec_model.specs.Finalizing.{front_at, RunsFinal, Moves};
ghost use Rattle.stateful_exec_model.specs.Finalizing.{FaultsMove, Observes, FaultsObserve, TurnsHook};
ghost use Rattle.stateful_exec_model.specs.Finalizing.{FaultsHook};
ghost use Rattle.stateful_exec_model.specs.Moments.{moment};
ghost use Rattle.stateful_exec_tables.specs.Tables.{Rises};

use stateful_base::{Anchor, Digest, Digested, OutOfMemory};
use stateful_db::{Application, Batch, DatabaseSet};
use stateful_exec_builds::{BuildingOf, propose, turn_build};
use stateful_exec_finals::{
    FrontOf, advance_to, begin, is_redelivered, observe, run_finalized, turn_hook,
};
use stateful_exec_model::{BuildStart, Stage, Worked};
use stateful_exec_pause::FinalizationBoundary;
use stateful_exec_runs::TablesOf;
use stateful_exec_tables::{ExecError, Tables};
use stateful_history::Mark;
use std::alloc::Global;
use std::marker::{Model, PhantomData};

/// An application with the anchor, the cached states of blocks above it, and what goes on:
/// requests, runs, a build, a finalization. `M` tells which calls are offered beside those of a
/// processor.
#[derive(Drop)]
pub struct Execution<A: Application + Drop, M> {
    pub(crate) application: A,
    pub(crate) tables: TablesOf<A>,
    pub(crate) build: Option<BuildingOf<A>>,
    pub(crate) front: Option<FrontOf<A>>,
    pub(crate) offers: PhantomData<M>,
}

/// Offers the calls of a processor alone.
pub struct Processing;

/// An application with the anchor, and the cached states of blocks above it.
pub type Processor<A> = Execution<A, Processing>;

impl<A: Application + Drop, M> Model for Execution<A, M> {
    ghost use Rattle.stateful_exec_model.specs.State.{Owner};
    ghost use Rattle.std.specs.Prelude.{Option};
    ghost use Rattle.stateful_exec_model.specs.declared.building.Building.{Building};
    ghost use Rattle.stateful_exec_model.specs.declared.front.Front.{Front};
    ghost use Rattle.stateful_exec_tables.specs.declared.state.Tables.{Tables};

    ghost Value = { Owner A (Tables A.Block A.Context A.Input A.Run A.Databases.Merkleized)
        (Option (Building A.Block A.Context A.Build))
        (Option (Front A.Block A.Run A.Databases.Merkleized A.Hook)) };

    ghost view = { λ e. record
        { application = e.application; state = e.tables; build = e.build; front = e.front } };
}

impl<A: Application + Drop> Execution<A, Processing> {
    /// Nothing is cached above the anchor, and nothing goes on. Jobs and fetches are numbered from
    /// 0.
    pub fn new(alloc: Global, application: A, anchor: Anchor) -> Result<Processor<A>, OutOfMemory>
        ensures application { IfOk result (λ p. p.application ≡ application) }
        ensures anchor { IfOk result (λ p. p.state.anchor ≡ anchor) }
        ensures empty { IfOk result (λ p. (p.state.cache ≡ [])
            × (p.state.runs ≡ [])
            × (p.state.requests ≡ [])
            × (p.state.queued ≡ [])
            × (p.state.recovered ≡ [])
            × (p.build ≡ None)
            × (p.front ≡ None)) }
        ensures numbers { IfOk result (λ p. (p.state.next_job ≡ 0) × (p.state.next_fetch ≡ 0)) }
    {
        Ok(Execution {
            application,
            tables: Tables::new(alloc, anchor, 0, 0),
            build: None,
            front: None,
            offers: PhantomData,
        })
    }
}

impl<A: Application + Drop, M> Execution<A, M> {
    /// The application as it is.
    pub fn application(&self) -> &A
        ensures { result.now ≡ self.now.application }
    {
        &self.application
    }

    /// The block on which all that is cached stands.
    pub fn branch_anchor(&self) -> Anchor
        ensures { result ≡ self.now.state.anchor }
    {
        self.tables.anchor
    }

    /// Whether the block of this digest is cached.
    pub fn cached(&self, digest: &Digest) -> bool
        ensures { IsTrue result ↔ IsIn self.now.state.cache digest.now }
    {
        self.tables.cache.has(*digest)
    }

    /// Whether no candidate run is live.
    pub fn flights_idle(&self) -> bool
        ensures { IsTrue result ↔ (self.now.state.runs ≡ []) }
    {
        self.tables.runs.len() == 0
    }

    /// The build that goes on.
    pub fn build(&self) -> Option<&BuildingOf<A>>
        ensures { option_copied result ≡ self.now.build }
    {
        self.build.as_ref()
    }

    /// The finalization that goes on, and how far it has come.
    pub fn front(&self) -> Option<&FrontOf<A>>
        ensures { option_copied result ≡ self.now.front }
    {
        self.front.as_ref()
    }

    /// The next job and the next fetch that will be drawn. They never fall.
    pub fn numbers(&self) -> (u64, u64)
        ensures { result ≡ (self.now.state.next_job, self.now.state.next_fetch) }
    {
        (self.tables.next_job, self.tables.next_fetch)
    }

    /// Starts the build of a ticket that is queued, under the next number of a job; where the block
    /// that it is to be built on isn't known it is declined. A ticket that isn't queued is
    /// declined, and nothing changes.
    pub fn propose(
        &mut self,
        ticket: u64,
        databases: &mut A::Databases,
        provider: A::Provider,
    ) -> Result<BuildStart, ExecError>
        ensures ok { IfOk result (Proposes ⟦<A as Worked>⟧.workings ticket provider
            (A.Databases.members databases.old) (A.Databases.next databases.old)
            (A.Databases.next databases.new) self.old.state self.new.state self.old.build
            self.new.build) }
        ensures fault { IfErr result (FaultsPropose ⟦<A as Worked>⟧.workings
            (Rose (A.count self.old.application) (A.count self.new.application)) ticket
            (A.Databases.members databases.old) (A.Databases.next databases.old)
            self.old.state) }
        ensures front { self.new.front ≡ self.old.front }
        ensures members { A.Databases.members databases.new ≡ A.Databases.members databases.old }
        ensures numbers { Rises self.old.state self.new.state }
        ensures counts { (n : ℕ)
            → A.Databases.counted databases.new n ≡ A.Databases.counted databases.old n }
        ensures notes { (IsErrOf result ExecError.OutOfMemory → ⊥)
            → A.notes self.new.application ≡ A.notes self.old.application }
        ensures later { A.count self.old.application ≤ A.count self.new.application }
    {
        propose(
            &mut self.application,
            &mut self.tables,
            databases,
            &mut self.build,
            ticket,
            provider,
        )
    }

    /// The build of a job has a turn. Where it has ended, its block is cached and its proposal
    /// answered. Where no build of this job is live nothing changes.
    pub fn turn_build(
        &mut self,
        databases: &A::Databases,
        job: u64,
        marks: &mut Vec<Mark<A::Block>>,
    ) -> Result<(), ExecError>
        ensures ok { OnOk result (let w = ⟦<A as Worked>⟧.workings in
            TurnsBuild w A.Build.count
            (moment w self.old.state (A.Databases.members databases.now)
            (A.Databases.next databases.now) marks.old.items) self.old.build job
            (moment w self.new.state (A.Databases.members databases.now)
            (A.Databases.next databases.now) marks.new.items) self.new.build) }
        ensures fault { IfErr result (let w = ⟦<A as Worked>⟧.workings in
            FaultsTurn w A.Build.count
            (moment w self.old.state (A.Databases.members databases.now)
            (A.Databases.next databases.now) marks.old.items) self.old.build job) }
        ensures front { self.new.front ≡ self.old.front }
        ensures numbers { Rises self.old.state self.new.state }
        ensures application { self.new.application ≡ self.old.application }
    {
        turn_build::<A>(&mut self.tables, databases, &mut self.build, job, marks)
    }

    /// Whether a finalized block is no higher than the anchor. `ConflictAtAnchor` exactly where
    /// another block was finalized at its height.
    pub fn redelivered(&self, block: &Digested<A::Block>) -> Result<bool, ExecError>
        ensures past { IfOk result (λ past. past ≡ true
            → IsRedelivered A.Block.header self.now.state.anchor block.now) }
        ensures next { IfOk result (λ past. past ≡ false
            → self.now.state.anchor.height.0 < A.Block.header.height block.now.block) }
        ensures fault { IfErr result (Conflicts A.Block.header self.now.state.anchor block.now) }
    {
        is_redelivered(self.tables.anchor, block)
    }

    /// The boundary of the finalization of a block: compatible are the block and its cached
    /// descendants of later rounds.
    pub fn boundary(&self, block: &Digested<A::Block>) -> Result<FinalizationBoundary, OutOfMemory>
        ensures { IfOk result (IsBoundaryOf A.Block.header block.now self.now.state.cache) }
    {
        FinalizationBoundary::of(self.tables.alloc, block, &self.tables.cache)
    }

    /// Begins the finalization of a block. `SkippedHeight` exactly where it is above the next
    /// height, else `NotExtending` exactly where it has another parent than the anchor.
    pub fn begin(&mut self, block: &Digested<A::Block>) -> Result<(), ExecError>
        ensures ok { OnOk result (MayBegin A.Block.header self.old.state.anchor block.now
            × (self.new ≡ record self.old { front = front_at block.now Stage.Begun })) }
        ensures fault { IfErr result (FaultsBegin A.Block.header self.old.state.anchor
            block.now) }
        ensures err { OnErr result (self.new ≡ self.old) }
    {
        begin(self.tables.anchor, &mut self.front, block)
    }

    /// Starts a run of the block that was begun, over the databases' states, under the next number
    /// of a job.
    pub fn run_finalized(
        &mut self,
        databases: &mut A::Databases,
        block: &Digested<A::Block>,
        marks: &mut Vec<Mark<A::Block>>,
    ) -> Result<(), ExecError>
        ensures ok { OnOk result (RunsFinal ⟦<A as Worked>⟧.workings block.now
            (A.Databases.members databases.old) (A.Databases.next databases.old)
            (A.Databases.next databases.new) self.old.state self.new.state self.new.front) }
        ensures marks { OnOk result (marks.new.items ≡ marks.old.items
            ++ Started self.old.state.next_job job.Finalized block.now.digest ∷ []) }
        ensures build { self.new.build ≡ self.old.build }
        ensures fault { IfErr result (FaultsStart ⟦<A as Worked>⟧.workings
            (Rose (A.count self.old.application) (A.count self.new.application))
            self.old.state.next_job
            (A.Databases.members databases.old) (A.Databases.next databases.old)) }
        ensures members { A.Databases.members databases.new ≡ A.Databases.members databases.old }
        ensures numbers { Rises self.old.state self.new.state }
        ensures counts { (n : ℕ)
            → A.Databases.counted databases.new n ≡ A.Databases.counted databases.old n }
        ensures notes { (IsErrOf result ExecError.OutOfMemory → ⊥)
            → A.notes self.new.application ≡ A.notes self.old.application }
        ensures later { A.count self.old.application ≤ A.count self.new.application }
    {
        run_finalized(
            &mut self.application,
            &mut self.tables,
            databases,
            &mut self.front,
            block,
            marks,
        )
    }

    /// Moves the anchor to the finalized block, whose states are cached or were run to. The cache
    /// is cut to its descendants of later rounds. Answered are its batch, which is to be applied
    /// before any other call, and what the application read of the states before it.
    /// `FinalizedRejected` exactly where the block has no states.
    pub fn advance(
        &mut self,
        databases: &A::Databases,
        block: &Digested<A::Block>,
    ) -> Result<(Batch<A>, A::Captured), ExecError>
        ensures ok { IfOk result (λ given. Moves ⟦<A as Worked>⟧.workings block.now
            (A.Databases.members databases.now) self.old.state self.new.state self.old.front
            self.new.front given.0 given.1) }
        ensures build { self.new.build ≡ self.old.build }
        ensures fault { IfErr result (FaultsMove ⟦<A as Worked>⟧.workings
            (Rose (A.count self.old.application) (A.count self.new.application)) block.now
            self.old.state.cache self.old.front) }
        ensures numbers { Rises self.old.state self.new.state }
        ensures notes { (IsErrOf result ExecError.OutOfMemory → ⊥)
            → A.notes self.new.application ≡ A.notes self.old.application }
        ensures later { A.count self.old.application ≤ A.count self.new.application }
    {
        advance_to(
            &mut self.application,
            &mut self.tables,
            databases,
            &mut self.front,
            block,
        )
    }

    /// The application observes the states after the finalized block, which the databases hold.
    /// Answers whether a hook is live then, under the next number of a job.
    pub fn hook(
        &mut self,
        databases: &A::Databases,
        block: &Digested<A::Block>,
        captured: A::Captured,
        marks: &mut Vec<Mark<A::Block>>,
    ) -> Result<bool, ExecError>
        ensures ok { IfOk result (Observes ⟦<A as Worked>⟧.workings block.now captured
            (A.Databases.members databases.now) self.old.state self.new.state marks.old.items
            marks.new.items self.new.front) }
        ensures build { self.new.build ≡ self.old.build }
        ensures fault { IfErr result (FaultsObserve ⟦<A as Worked>⟧.workings
            (Rose (A.count self.old.application) (A.count self.new.application)) block.now captured
            (A.Databases.members databases.now) self.old.state.next_job) }
        ensures numbers { Rises self.old.state self.new.state }
        ensures notes { OnOk result (A.notes self.new.application
            ≡ A.works.noted (A.notes self.old.application) block.now.block) }
        ensures noted { OnErr result ((IsErrOf result ExecError.OutOfMemory → ⊥)
            → (A.notes self.new.application ≡ A.notes self.old.application)
            ⊎ (A.notes self.new.application
            ≡ A.works.noted (A.notes self.old.application) block.now.block)) }
        ensures later { A.count self.old.application ≤ A.count self.new.application }
    {
        observe(
            &mut self.application,
            &mut self.tables,
            databases,
            &mut self.front,
            block,
            captured,
            marks,
        )
    }

    /// The hook of a job has a turn, where it is live; else nothing changes.
    pub fn turn_hook(
        &mut self,
        databases: &A::Databases,
        job: u64,
        marks: &mut Vec<Mark<A::Block>>,
    ) -> Result<(), ExecError>
        ensures ok { OnOk result (TurnsHook ⟦<A as Worked>⟧.workings A.Hook.count
            (A.Databases.members databases.now) self.old.front job marks.old.items
            marks.new.items self.new.front) }
        ensures rest { self.new ≡ record self.old { front = self.new.front } }
        ensures fault { IfErr result (FaultsHook ⟦<A as Worked>⟧.workings A.Hook.count
            (A.Databases.members databases.now) self.old.front job) }
    {
        turn_hook::<A>(databases, &mut self.front, job, marks)
    }

    /// The finalization has ended.
    pub fn drop_root(&mut self)
        ensures { self.new ≡ record self.old { front = None } }
    {
        self.front = None;
    }
}
