//! Requests to judge blocks and to build them.

ghost use Rattle.std.specs.Prelude.{◌≡◌, ◌++◌, ◌∷◌, [], ◌≤◌, ℕ, List, None, OnOk, IfOk, IfErr};
ghost use Rattle.std.specs.Prelude.{IfSome, IfNone, IsErrOf};
ghost use Rattle.stateful_base.specs.Causes.{Rose};
ghost use Rattle.stateful_history.specs.declared.mark.Mark.{Mark as Marked};
ghost use Rattle.stateful_exec_model.specs.Moments.{moment};
ghost use Rattle.stateful_exec_walk.specs.Request.{ticket_by};
ghost use Rattle.stateful_exec_tables.specs.Tables.{Rises};
ghost use Rattle.stateful_exec_tables.specs.Tables.{requested};
ghost use Rattle.stateful_exec_model.specs.Rules.{Acquires};
ghost use Rattle.stateful_exec_model.specs.Causes.{FaultsAcquire};
ghost use Rattle.stateful_exec_model.specs.Built.{GivesUp};
ghost use Rattle.stateful_exec_model.specs.Fetching.{IsFetched, FaultsFetched};
ghost use Rattle.stateful_exec_model.specs.Finalizing.{Completes};
ghost use Rattle.stateful_exec_model.specs.Finalizing.{FaultsComplete, SettlesRun};
ghost use Rattle.stateful_exec_model.specs.Finalizing.{FaultsSettleRun};
ghost use Rattle.stateful_exec_tables.specs.Pausing.{AwaitsRuns};
ghost use Rattle.stateful_exec_tables.specs.Pausing.{Pauses};
ghost use Rattle.stateful_exec_model.specs.Pausing.{Resumes, FaultsResume};

use crate::processor::{Execution, Processor};
use stateful_base::{Anchor, BlockStore, Digested, OutOfMemory};
use stateful_db::{Application, DatabaseSet};
use stateful_exec_builds::give_up;
use stateful_exec_finals::{complete_run, settle_run};
use stateful_exec_model::Worked;
use stateful_exec_pause::{FinalizationBoundary, Pause};
use stateful_exec_resumes::resume;
use stateful_exec_runs::{Turned, acquire, fetched};
use stateful_exec_tables::{ExecError, Requested, Tables};
use stateful_exec_walk::Request;
use stateful_history::Mark;
use std::marker::PhantomData;

/// Offers the calls on requests too.
pub struct Handling;

/// An application with its requests.
pub type Handler<A> = Execution<A, Handling>;

impl<A: Application + Drop> Execution<A, Handling> {
    /// No request goes on.
    pub fn new(processor: Processor<A>) -> Result<Handler<A>, OutOfMemory>
        ensures { IfOk result (λ h. h ≡ processor) }
    {
        let Execution {
            application,
            tables,
            build,
            front,
            offers: _,
        } = processor;
        Ok(Execution {
            application,
            tables,
            build,
            front,
            offers: PhantomData,
        })
    }

    /// Drops all requests, runs, builds and cached states, the finalization that goes on and the
    /// pause. The application stays. Nothing is cached above this anchor, and jobs and fetches are
    /// numbered from these numbers on.
    pub fn reopen(&mut self, anchor: Anchor, job: u64, fetch: u64)
        requires { (self.old.state.next_job ≤ job) × (self.old.state.next_fetch ≤ fetch) }
        ensures application { self.new.application ≡ self.old.application }
        ensures anchor { self.new.state.anchor ≡ anchor }
        ensures empty { (self.new.state.cache ≡ [])
            × (self.new.state.runs ≡ [])
            × (self.new.state.requests ≡ [])
            × (self.new.state.queued ≡ [])
            × (self.new.state.recovered ≡ [])
            × (self.new.build ≡ None)
            × (self.new.front ≡ None) }
        ensures pause { self.new.state.pause ≡ Pause.Free }
        ensures numbers { (self.new.state.next_job ≡ job) × (self.new.state.next_fetch ≡ fetch) }
    {
        self.tables = Tables::new(self.tables.alloc, anchor, job, fetch);
        self.build = None;
        self.front = None;
    }

    /// Pauses for a finalization with this boundary, or for a prune without one: the live fetches
    /// are withdrawn, by ascending numbers. Answers how many live runs it waits for.
    pub fn pause(
        &mut self,
        boundary: Option<FinalizationBoundary>,
        marks: &mut Vec<Mark<A::Block>>,
    ) -> Result<usize, ExecError>
        ensures ok { OnOk result ((more : List (Marked A.Block))
            × Pauses boundary self.old.state self.new.state more
            × (marks.new.items ≡ marks.old.items ++ more)) }
        ensures awaited { IfOk result (AwaitsRuns A.Block.header self.new.state) }
        ensures memory { IfErr result (λ e. e ≡ ExecError.OutOfMemory) }
        ensures rest { self.new ≡ record self.old { state = self.new.state } }
        ensures numbers { Rises self.old.state self.new.state }
    {
        self.tables.pause(boundary, marks)?;
        Ok(self.tables.awaited())
    }

    /// How many live runs the pause waits for: those that go on over what comes aren't among them.
    pub fn awaited(&self) -> usize
        ensures { AwaitsRuns A.Block.header self.now.state result }
    {
        self.tables.awaited()
    }

    /// Goes on behind a pause: parked requests go along their paths, and then all others that wait
    /// for no run acquire what they need anew, each by ascending tickets.
    pub fn resume<S: BlockStore<A::Block>>(
        &mut self,
        databases: &mut A::Databases,
        store: &S,
        marks: &mut Vec<Mark<A::Block>>,
    ) -> Result<(), ExecError>
        ensures ok { OnOk result (let w = ⟦<A as Worked>⟧.workings in
            Resumes w (S.stored store.now)
            (moment w self.old.state (A.Databases.members databases.old)
            (A.Databases.next databases.old) marks.old.items)
            (moment w self.new.state (A.Databases.members databases.new)
            (A.Databases.next databases.new) marks.new.items)) }
        ensures fault { IfErr result (let w = ⟦<A as Worked>⟧.workings in
            FaultsResume w (Rose (A.count self.old.application) (A.count self.new.application))
            (S.stored store.now)
            (moment w self.old.state (A.Databases.members databases.old)
            (A.Databases.next databases.old) marks.old.items)) }
        ensures works { (self.new.build ≡ self.old.build) × (self.new.front ≡ self.old.front) }
        ensures members { A.Databases.members databases.new ≡ A.Databases.members databases.old }
        ensures numbers { Rises self.old.state self.new.state }
        ensures counts { (n : ℕ)
            → A.Databases.counted databases.new n ≡ A.Databases.counted databases.old n }
        ensures notes { (IsErrOf result ExecError.OutOfMemory → ⊥)
            → A.notes self.new.application ≡ A.notes self.old.application }
        ensures later { A.count self.old.application ≤ A.count self.new.application }
    {
        resume(
            &mut self.application,
            &mut self.tables,
            databases,
            store,
            marks,
        )
    }

    /// Takes a request, whose ticket should be no other's. It ends at once, or a block is fetched
    /// for it, or it waits, or it joins a run or starts one.
    pub fn schedule<S: BlockStore<A::Block>>(
        &mut self,
        databases: &mut A::Databases,
        store: &S,
        request: Request<A::Block, A::Context, A::Input>,
        marks: &mut Vec<Mark<A::Block>>,
    ) -> Result<(), ExecError>
        ensures ok { OnOk result (let w = ⟦<A as Worked>⟧.workings in
            Acquires w (S.stored store.now)
            (moment w self.old.state (A.Databases.members databases.old)
            (A.Databases.next databases.old) marks.old.items) (ticket_by request)
            (requested request)
            (moment w self.new.state (A.Databases.members databases.new)
            (A.Databases.next databases.new) marks.new.items)) }
        ensures fault { IfErr result (let w = ⟦<A as Worked>⟧.workings in
            FaultsAcquire w (Rose (A.count self.old.application) (A.count self.new.application))
            (S.stored store.now)
            (moment w self.old.state (A.Databases.members databases.old)
            (A.Databases.next databases.old) marks.old.items) (requested request)) }
        ensures works { (self.new.build ≡ self.old.build) × (self.new.front ≡ self.old.front) }
        ensures members { A.Databases.members databases.new ≡ A.Databases.members databases.old }
        ensures numbers { Rises self.old.state self.new.state }
        ensures counts { (n : ℕ)
            → A.Databases.counted databases.new n ≡ A.Databases.counted databases.old n }
        ensures notes { (IsErrOf result ExecError.OutOfMemory → ⊥)
            → A.notes self.new.application ≡ A.notes self.old.application }
        ensures later { A.count self.old.application ≤ A.count self.new.application }
    {
        let ticket = request.ticket();
        let requested = Requested::new(self.tables.alloc, request);
        acquire(
            &mut self.application,
            &mut self.tables,
            databases,
            store,
            ticket,
            requested,
            marks,
        )
    }

    /// A fetch is answered: with the block that was asked for, or with none. Where no block is
    /// fetched under the number nothing changes.
    pub fn fetched<S: BlockStore<A::Block>>(
        &mut self,
        databases: &mut A::Databases,
        store: &S,
        fetch: u64,
        answer: Option<Digested<A::Block>>,
        marks: &mut Vec<Mark<A::Block>>,
    ) -> Result<(), ExecError>
        ensures ok { OnOk result (let w = ⟦<A as Worked>⟧.workings in
            IsFetched w (S.stored store.now)
            (moment w self.old.state (A.Databases.members databases.old)
            (A.Databases.next databases.old) marks.old.items) fetch answer
            (moment w self.new.state (A.Databases.members databases.new)
            (A.Databases.next databases.new) marks.new.items)) }
        ensures fault { IfErr result (let w = ⟦<A as Worked>⟧.workings in
            FaultsFetched w (Rose (A.count self.old.application) (A.count self.new.application))
            (S.stored store.now)
            (moment w self.old.state (A.Databases.members databases.old)
            (A.Databases.next databases.old) marks.old.items) fetch answer) }
        ensures works { (self.new.build ≡ self.old.build) × (self.new.front ≡ self.old.front) }
        ensures members { A.Databases.members databases.new ≡ A.Databases.members databases.old }
        ensures numbers { Rises self.old.state self.new.state }
        ensures counts { (n : ℕ)
            → A.Databases.counted databases.new n ≡ A.Databases.counted databases.old n }
        ensures notes { (IsErrOf result ExecError.OutOfMemory → ⊥)
            → A.notes self.new.application ≡ A.notes self.old.application }
        ensures later { A.count self.old.application ≤ A.count self.new.application }
    {
        fetched(
            &mut self.application,
            &mut self.tables,
            databases,
            store,
            fetch,
            answer,
            marks,
        )
    }

    /// The run of a job has one turn. Where a candidate run has ended, its end is told, and the
    /// requests that waited for it follow, by ascending tickets; where the run of a finalized block
    /// has ended, its batch is there. Where the job isn't that of a live run nothing changes.
    pub fn complete(
        &mut self,
        databases: &mut A::Databases,
        job: u64,
        marks: &mut Vec<Mark<A::Block>>,
    ) -> Result<(), ExecError>
        ensures ok { OnOk result (let w = ⟦<A as Worked>⟧.workings in
            Completes w A.Run.count
            (moment w self.old.state (A.Databases.members databases.old)
            (A.Databases.next databases.old) marks.old.items) self.old.front job
            (moment w self.new.state (A.Databases.members databases.new)
            (A.Databases.next databases.new) marks.new.items) self.new.front) }
        ensures fault { IfErr result (let w = ⟦<A as Worked>⟧.workings in
            FaultsComplete w (Rose (A.count self.old.application) (A.count self.new.application))
            A.Run.count
            (moment w self.old.state (A.Databases.members databases.old)
            (A.Databases.next databases.old) marks.old.items) self.old.front job) }
        ensures build { self.new.build ≡ self.old.build }
        ensures members { A.Databases.members databases.new ≡ A.Databases.members databases.old }
        ensures numbers { Rises self.old.state self.new.state }
        ensures counts { (n : ℕ)
            → A.Databases.counted databases.new n ≡ A.Databases.counted databases.old n }
        ensures notes { (IsErrOf result ExecError.OutOfMemory → ⊥)
            → A.notes self.new.application ≡ A.notes self.old.application }
        ensures later { A.count self.old.application ≤ A.count self.new.application }
    {
        complete_run(
            &mut self.application,
            &mut self.tables,
            databases,
            &mut self.front,
            job,
            marks,
        )
    }

    /// Does what `complete` does behind the turn: `answer` is what the last turn of the job's run
    /// answered.
    pub fn settle(
        &mut self,
        databases: &mut A::Databases,
        job: u64,
        answer: Turned<A>,
        marks: &mut Vec<Mark<A::Block>>,
    ) -> Result<(), ExecError>
        ensures ok { OnOk result (let w = ⟦<A as Worked>⟧.workings in
            SettlesRun w
            (moment w self.old.state (A.Databases.members databases.old)
            (A.Databases.next databases.old) marks.old.items) self.old.front job answer
            (moment w self.new.state (A.Databases.members databases.new)
            (A.Databases.next databases.new) marks.new.items) self.new.front) }
        ensures fault { IfErr result (let w = ⟦<A as Worked>⟧.workings in
            FaultsSettleRun w (Rose (A.count self.old.application) (A.count self.new.application))
            (moment w self.old.state (A.Databases.members databases.old)
            (A.Databases.next databases.old) marks.old.items) self.old.front job answer) }
        ensures build { self.new.build ≡ self.old.build }
        ensures members { A.Databases.members databases.new ≡ A.Databases.members databases.old }
        ensures numbers { Rises self.old.state self.new.state }
        ensures counts { (n : ℕ)
            → A.Databases.counted databases.new n ≡ A.Databases.counted databases.old n }
        ensures notes { (IsErrOf result ExecError.OutOfMemory → ⊥)
            → A.notes self.new.application ≡ A.notes self.old.application }
        ensures later { A.count self.old.application ≤ A.count self.new.application }
    {
        settle_run(
            &mut self.application,
            &mut self.tables,
            databases,
            &mut self.front,
            job,
            answer,
            marks,
        )
    }

    /// Takes the ticket of the next proposal whose parent became known and that wasn't taken yet,
    /// in this order.
    pub fn ready(&mut self) -> Option<u64>
        ensures first { IfSome result (λ ticket. self.old.state.recovered
            ≡ ticket ∷ self.new.state.recovered) }
        ensures none { IfNone result ((self.old.state.recovered ≡ [])
            × (self.new.state ≡ self.old.state)) }
        ensures rest { self.new.state
            ≡ record self.old.state { recovered = self.new.state.recovered } }
        ensures works { (self.new.build ≡ self.old.build) × (self.new.front ≡ self.old.front) }
        ensures application { self.new.application ≡ self.old.application }
    {
        self.tables.ready()
    }

    /// Gives up the request of a ticket. The live build ends where it is for it; else the request
    /// is given up, its fetch is withdrawn, and the run that it was the last to wait for ends; or
    /// its build isn't queued any more.
    pub fn cancel(
        &mut self,
        ticket: u64,
        marks: &mut Vec<Mark<A::Block>>,
    ) -> Result<(), OutOfMemory>
        ensures ok { OnOk result ((more : List (Marked A.Block))
            × GivesUp self.old.state self.new.state self.old.build self.new.build ticket more
            × (marks.new.items ≡ marks.old.items ++ more)) }
        ensures numbers { Rises self.old.state self.new.state }
        ensures application { self.new.application ≡ self.old.application }
        ensures front { self.new.front ≡ self.old.front }
    {
        give_up::<A>(&mut self.tables, &mut self.build, ticket, marks)
    }
}
