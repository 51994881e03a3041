//! A request's path, taken a block at a time.
//!
//! This is for a caller that leads requests by hand; the machine uses `running.rt` of
//! `stateful_exec_runs` in its place. The caller asks `prepare` what a request needs. With a path
//! it lets the request set out (`start`), which parks it there. Then it asks `next` for the step of
//! the next block, decides whether that may be run, and calls `process`. That passes one block, or
//! the request waits for a run or ends.
//!
//! After a run the request follows as in the machine. At the end of its path it stays parked, and
//! the next `resume` answers it. Whether a block goes on over a finalization isn't asked here: that
//! is the caller's to decide.
//!
//! `specs/Verifying.antt` of `stateful_exec_model` and `specs/Stepping.antt` of
//! `stateful_exec_tables` have the rules (`Processes`; `SetsOut`, `HasNext`), and docs/RULES.md
//! says them in words, "Along its path by hand".

ghost use Rattle.std.specs.Prelude.{◌≡◌, ◌≤◌, ℕ};
ghost use Rattle.std.specs.Prelude.{IfOk, IfErr, IfSome, IfNone, IsErrOf};
ghost use Rattle.stateful_base.specs.Causes.{Rose};
ghost use Rattle.stateful_base.specs.Names.{Named};
ghost use Rattle.stateful_exec_pause.specs.Boundary.{step_by};
ghost use Rattle.stateful_exec_model.specs.Moments.{moment};
ghost use Rattle.stateful_exec_tables.specs.Tables.{Rises};
ghost use Rattle.stateful_exec_tables.specs.Stepping.{HasNext, SetsOut};
ghost use Rattle.stateful_exec_tables.specs.Stepping.{Prepares};
ghost use Rattle.stateful_exec_model.specs.Verifying.{Processes, FaultsProcess};

use crate::handler::{Handler, Handling};
use crate::processor::Execution;
use stateful_base::{Block, BlockStore, OutOfMemory};
use stateful_db::{Application, DatabaseSet};
use stateful_exec_model::{Joined, Worked};
use stateful_exec_pause::ExecutionStep;
use stateful_exec_runs::{TablesOf, launch};
use stateful_exec_tables::{ExecError, Met};
use stateful_exec_walk::{Acquired, ReplayPath, Verdict, prepare};
use stateful_history::Mark;

/// An application with its requests, whose paths are taken a block at a time.
pub type Verifier<A> = Handler<A>;

/// The next block of a request's path is known and left behind, or the request joins its run or
/// starts it, or it ends.
fn process<A: Application>(
    application: &mut A,
    tables: &mut TablesOf<A>,
    databases: &mut A::Databases,
    ticket: u64,
    marks: &mut Vec<Mark<A::Block>>,
) -> Result<Option<Joined>, ExecError>
    ensures ok { IfOk result (let w = ⟦<A as Worked>⟧.workings in Processes w
        (moment w tables.old (A.Databases.members databases.old) (A.Databases.next databases.old)
        marks.old.items) ticket
        (moment w tables.new (A.Databases.members databases.new) (A.Databases.next databases.new)
        marks.new.items)) }
    ensures fault { IfErr result (let w = ⟦<A as Worked>⟧.workings in FaultsProcess w
        (Rose (A.count application.old) (A.count application.new))
        (moment w tables.old (A.Databases.members databases.old) (A.Databases.next databases.old)
        marks.old.items) ticket) }
    ensures members { A.Databases.members databases.new ≡ A.Databases.members databases.old }
    ensures numbers { Rises tables.old tables.new }
    ensures counts { (n : ℕ)
        → A.Databases.counted databases.new n ≡ A.Databases.counted databases.old n }
    ensures notes { (IsErrOf result ExecError.OutOfMemory → ⊥)
        → A.notes application.new ≡ A.notes application.old }
    ensures later { A.count application.old ≤ A.count application.new }
{
    let Some((request, path)) = tables.take_next(ticket) else {
        return Ok(None);
    };
    let mut path = path;
    match tables.join_next(&mut path)? {
        Met::Arrived | Met::Left => unreachable!(),
        Met::Known => {
            tables.park(ticket, request, path)?;
            Ok(Some(Joined::Known))
        }
        Met::Missed => {
            tables.conclude(ticket, request, Verdict::Invalid, marks)?;
            Ok(Some(Joined::Missed))
        }
        Met::Run(job) => {
            tables.execute(ticket, request, job, path)?;
            Ok(Some(Joined::Run(job)))
        }
        Met::Unrun { block, parent } => {
            let job = launch(application, tables, databases, block, parent, marks)?;
            tables.execute(ticket, request, job, path)?;
            Ok(Some(Joined::Run(job)))
        }
    }
}

impl<A: Application + Drop> Execution<A, Handling> {
    /// What the request of a ticket needs, with the blocks that were acquired for it so far: none
    /// where none goes on under it.
    pub fn prepare<S: BlockStore<A::Block>>(
        &self,
        ticket: u64,
        store: &S,
    ) -> Result<Option<Acquired<A::Block>>, ExecError>
        ensures ok { IfOk result (Prepares self.now.state ticket A.Block.header
            (S.stored store.now)) }
        ensures memory { IfErr result (λ e. e ≡ ExecError.OutOfMemory) }
    {
        Ok(self.tables.needs(ticket, store)?)
    }

    /// The request of a ticket is to go along a path, where it waits for no run and no fetch; else
    /// nothing changes. Answers which.
    pub fn start(&mut self, ticket: u64, path: ReplayPath<A::Block>) -> Result<bool, OutOfMemory>
        ensures ok { IfOk result (SetsOut self.old.state ticket path self.new.state) }
        ensures rest { self.new ≡ record self.old { state = self.new.state } }
        ensures numbers { Rises self.old.state self.new.state }
    {
        self.tables.set_out(ticket, path)
    }

    /// What the next block of a ticket's path is, where its request is parked. It takes no memory.
    pub fn next(&self, ticket: u64) -> Option<ExecutionStep>
        ensures next { IfSome result (λ step. (b : Named A.Block)
            × HasNext self.now.state ticket b
            × (step ≡ step_by A.Block.header b)) }
        ensures none { IfNone result ((b : Named A.Block)
            → HasNext self.now.state ticket b
            → ⊥) }
    {
        self.tables.next_step(ticket)
    }

    /// The next block of a ticket's path: it is known and left behind, or the request joins its run
    /// or starts it, or its parent isn't known and the request ends. None exactly where `next`
    /// gives none, and then nothing changes.
    pub fn process(
        &mut self,
        ticket: u64,
        databases: &mut A::Databases,
        marks: &mut Vec<Mark<A::Block>>,
    ) -> Result<Option<Joined>, ExecError>
        ensures ok { IfOk result (let w = ⟦<A as Worked>⟧.workings in
            Processes w
            (moment w self.old.state (A.Databases.members databases.old)
            (A.Databases.next databases.old) marks.old.items) ticket
            (moment w self.new.state (A.Databases.members databases.new)
            (A.Databases.next databases.new) marks.new.items)) }
        ensures fault { IfErr result (let w = ⟦<A as Worked>⟧.workings in
            FaultsProcess w (Rose (A.count self.old.application) (A.count self.new.application))
            (moment w self.old.state (A.Databases.members databases.old)
            (A.Databases.next databases.old) marks.old.items) ticket) }
        ensures works { (self.new.build ≡ self.old.build) × (self.new.front ≡ self.old.front) }
        ensures members { A.Databases.members databases.new ≡ A.Databases.members databases.old }
        ensures numbers { Rises self.old.state self.new.state }
        ensures counts { (n : ℕ)
            → A.Databases.counted databases.new n ≡ A.Databases.counted databases.old n }
        ensures notes { (IsErrOf result ExecError.OutOfMemory → ⊥)
            → A.notes self.new.application ≡ A.notes self.old.application }
        ensures later { A.count self.old.application ≤ A.count self.new.application }
    {
        process(
            &mut self.application,
            &mut self.tables,
            databases,
            ticket,
            marks,
        )
    }
}
