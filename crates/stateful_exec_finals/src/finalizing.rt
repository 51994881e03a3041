//! Finalizations: which blocks may be final next, runs of them, and how the anchor moves to one.
//!
//! One finalization goes on at a time, in `Execution::front`, and its `Stage` says how far it has
//! come. `begin` tests the block against the anchor: `Begun`. A block that isn't cached is run
//! (`run_finalized`): `Running`, until a turn ends the run: `Ran`. Then the anchor moves and the
//! hook follows (`anchoring.rt`). The caller drops the front at the end (`drop_root`).
//!
//! It is the caller that pauses execution after the begin, and starts or applies nothing until no
//! run is awaited. A finalized run that gives no states, or others than the block commits to, is an
//! error: finality can't be taken back.
//!
//! `specs/Finalizing.antt` of `stateful_exec_model` has the rules (`MayBegin`, `RunsFinal`,
//! `StepsFinal`), and docs/RULES.md says them in words, "A finalization, from its begin to what
//! goes on after it".

ghost use Rattle.std.specs.Prelude.{◌≡◌, ◌<◌, ◌≤◌, ◌++◌, ◌∷◌, [], ℕ, true, false, OnOk, OnErr};
ghost use Rattle.std.specs.Prelude.{IfOk, IfErr, IfSome, IfNone, IsErrOf};
ghost use Rattle.stateful_base.specs.Names.{Named};
ghost use Rattle.stateful_base.specs.Causes.{Rose};
ghost use Rattle.stateful_history.specs.declared.mark.JobKind.TheVariants as job;
ghost use Rattle.stateful_history.specs.declared.mark.Mark.TheVariants.{Started};
ghost use Rattle.stateful_exec_model.specs.Causes.{FaultsStart};
ghost use Rattle.stateful_exec_model.specs.Finalizing.{IsRedelivered, Conflicts, MayBegin, FaultsBegin};
ghost use Rattle.stateful_exec_model.specs.Finalizing.{front_at, RunsFinal, IsFinalBatch, FaultsFinal};
ghost use Rattle.stateful_exec_model.specs.Finalizing.{IsFinalLive, StepsFinal, FaultsStepFinal};
ghost use Rattle.stateful_exec_model.specs.Finalizing.{SettlesFinal, FaultsSettleFinal};
ghost use Rattle.stateful_exec_model.specs.Finalizing.{Completes};
ghost use Rattle.stateful_exec_model.specs.Finalizing.{FaultsComplete, SettlesRun, FaultsSettleRun};
ghost use Rattle.stateful_exec_model.specs.Moments.{moment};
ghost use Rattle.stateful_exec_tables.specs.Tables.{Rises};

use stateful_base::{Ancestry, Anchor, Block, Digested, Finality, Height, Items, Moved, Share};
use stateful_db::{Application, Batch, DatabaseSet};
use stateful_exec_model::{Front, Stage, Worked};
use stateful_exec_runs::{TablesOf, Turned, complete, settle};
use stateful_exec_tables::ExecError;
use stateful_history::{How, JobKind, Mark};
use std::mem;

/// A finalization of an application's block.
pub type FrontOf<A> = Front<
    <A as Application>::Block,
    <A as Application>::Run,
    Batch<A>,
    <A as Application>::Hook,
>;

/// Whether a finalized block is no higher than the anchor. Refused where another block was
/// finalized at its height.
pub fn is_redelivered<B: Block>(anchor: Anchor, block: &Digested<B>) -> Result<bool, ExecError>
    ensures past { IfOk result (λ past. past ≡ true
        → IsRedelivered B.header anchor block.now) }
    ensures next { IfOk result (λ past. past ≡ false
        → anchor.height.0 < B.header.height block.now.block) }
    ensures fault { IfErr result (Conflicts B.header anchor block.now) }
{
    let height = block.height();
    if height.0 == anchor.height.0 && !block.digest().is(anchor.digest) {
        return Err(ExecError::ConflictAtAnchor {
            expected: anchor.digest,
            given: block.digest(),
        });
    }
    Ok(height.0 <= anchor.height.0)
}

/// Begins the finalization of a block: it has to be no higher than the next height, and on the
/// anchor.
pub fn begin<B: Block + Drop, R: Drop, U: Drop, H: Drop>(
    anchor: Anchor,
    front: &mut Option<Front<B, R, U, H>>,
    block: &Digested<B>,
) -> Result<(), ExecError>
    ensures ok { OnOk result (MayBegin B.header anchor block.now
        × (front.new ≡ front_at block.now Stage.Begun)) }
    ensures fault { IfErr result (FaultsBegin B.header anchor block.now) }
    ensures err { OnErr result (front.new ≡ front.old) }
{
    let height = block.height();
    if height.0 > anchor.height.0 && height.0 - anchor.height.0 > 1 {
        return Err(ExecError::SkippedHeight {
            expected: Height(anchor.height.0 + 1),
            given: height,
        });
    }
    if !block.parent().is(anchor.digest) {
        return Err(ExecError::NotExtending {
            expected: anchor.digest,
            given: block.parent(),
        });
    }
    let block = block.share()?;
    *front = Some(Front {
        block,
        stage: Stage::Begun,
    });
    Ok(())
}

/// Starts a run of the block that was begun, over the databases' states.
pub fn run_finalized<A: Application>(
    application: &mut A,
    tables: &mut TablesOf<A>,
    databases: &mut A::Databases,
    front: &mut Option<FrontOf<A>>,
    block: &Digested<A::Block>,
    marks: &mut Vec<Mark<A::Block>>,
) -> Result<(), ExecError>
    ensures ok { OnOk result (RunsFinal ⟦<A as Worked>⟧.workings block.now
        (A.Databases.members databases.old) (A.Databases.next databases.old)
        (A.Databases.next databases.new) tables.old tables.new front.new) }
    ensures marks { OnOk result (marks.new.items
        ≡ marks.old.items ++ Started tables.old.next_job job.Finalized block.now.digest ∷ []) }
    ensures fault { IfErr result (FaultsStart ⟦<A as Worked>⟧.workings
        (Rose (A.count application.old) (A.count application.new)) tables.old.next_job
        (A.Databases.members databases.old) (A.Databases.next databases.old)) }
    ensures members { A.Databases.members databases.new ≡ A.Databases.members databases.old }
    ensures numbers { Rises tables.old tables.new }
    ensures counts { (n : ℕ)
        → A.Databases.counted databases.new n ≡ A.Databases.counted databases.old n }
    ensures notes { (IsErrOf result ExecError.OutOfMemory → ⊥)
        → A.notes application.new ≡ A.notes application.old }
    ensures later { A.count application.old ≤ A.count application.new }
{
    let job = tables.draw_job()?;
    let batches = databases.new_batches()?;
    let ancestry = Ancestry {
        first: block.share()?,
        rest: Items::new(tables.alloc),
    };
    let context = block.inner().context();
    let run = application.process(context, ancestry, batches, Finality::Finalized)?;
    marks.push(Mark::Started {
        job,
        kind: JobKind::Finalized,
        digest: block.digest(),
    })?;
    *front = Some(Front {
        block: block.share()?,
        stage: Stage::Running { job, run },
    });
    Ok(())
}

/// The batch that a run of the finalized block has to lead to: one whose targets are what the block
/// commits to.
fn end_finalized<A: Application>(
    block: &Digested<A::Block>,
    ended: Option<Batch<A>>,
) -> Result<Batch<A>, ExecError>
    ensures ok { IfOk result (IsFinalBatch ⟦<A as Worked>⟧.workings block.now ended) }
    ensures fault { IfErr result (FaultsFinal ⟦<A as Worked>⟧.workings block.now ended) }
{
    let Some(batch) = ended else {
        return Err(ExecError::FinalizedRejected {
            digest: block.digest(),
        });
    };
    let targets = A::sync_targets(block.inner());
    if let Some((index, expected, given)) = A::Databases::mismatch(&batch, &targets) {
        return Err(ExecError::FinalizedMismatch {
            index,
            expected,
            given,
        });
    }
    Ok(batch)
}

/// What a turn of the finalized block's run leads to: where it has ended, its batch is there.
pub fn settle_finalized<A: Application>(
    front: &mut Option<FrontOf<A>>,
    block: Digested<A::Block>,
    job: u64,
    run: A::Run,
    answer: Turned<A>,
    marks: &mut Vec<Mark<A::Block>>,
) -> Result<(), ExecError>
    ensures ok { OnOk result (SettlesFinal ⟦<A as Worked>⟧.workings job block run answer
        marks.old.items marks.new.items front.new) }
    ensures fault { IfErr result (FaultsSettleFinal ⟦<A as Worked>⟧.workings block answer) }
{
    let stage = match answer? {
        Moved::Pending => Stage::Running { job, run },
        Moved::Done(ended) => {
            let batch = end_finalized::<A>(&block, ended)?;
            marks.push(Mark::Ended {
                job,
                how: How::Kept,
            })?;
            Stage::Ran(batch)
        }
    };
    *front = Some(Front { block, stage });
    Ok(())
}

/// The run of the finalized block has a turn, where it is live under this number; else nothing
/// changes.
fn complete_finalized<A: Application>(
    front: &mut Option<FrontOf<A>>,
    databases: &A::Databases,
    job: u64,
    marks: &mut Vec<Mark<A::Block>>,
) -> Result<(), ExecError>
    ensures ok { OnOk result (StepsFinal ⟦<A as Worked>⟧.workings A.Run.count
        (A.Databases.members databases.now) front.old job marks.old.items marks.new.items
        front.new) }
    ensures fault { IfErr result (FaultsStepFinal ⟦<A as Worked>⟧.workings A.Run.count
        (A.Databases.members databases.now) front.old job) }
{
    let Some((block, mut run)) = take_finalized::<A>(front, job) else {
        return Ok(());
    };
    let answer = A::turn(&mut run, databases);
    settle_finalized::<A>(front, block, job, run, answer, marks)
}

/// Takes the run of the finalized block, where it is live under this number; else nothing changes.
fn take_finalized<A: Application>(
    front: &mut Option<FrontOf<A>>,
    job: u64,
) -> Option<(Digested<A::Block>, A::Run)>
    ensures live { IfSome result (λ found. IsFinalLive ⟦<A as Worked>⟧.workings front.old job
        found.0 found.1) }
    ensures none { IfNone result ((b : Named A.Block) (run : A.Run)
        → IsFinalLive ⟦<A as Worked>⟧.workings front.old job b run
        → ⊥) }
    ensures same { IfNone result (front.new ≡ front.old) }
{
    let Front { block, stage } = mem::replace(front, None)?;
    match stage {
        Stage::Running { job: live, run } if live == job => Some((block, run)),
        stage => {
            *front = Some(Front { block, stage });
            None
        }
    }
}

/// A run of a job has a turn: a candidate's, or that of the finalized block. Where it has ended,
/// what follows is done. Where the job isn't live nothing changes.
pub fn complete_run<A: Application>(
    application: &mut A,
    tables: &mut TablesOf<A>,
    databases: &mut A::Databases,
    front: &mut Option<FrontOf<A>>,
    job: u64,
    marks: &mut Vec<Mark<A::Block>>,
) -> Result<(), ExecError>
    ensures ok { OnOk result (let w = ⟦<A as Worked>⟧.workings in Completes w A.Run.count
        (moment w tables.old (A.Databases.members databases.old) (A.Databases.next databases.old)
        marks.old.items) front.old job
        (moment w tables.new (A.Databases.members databases.new) (A.Databases.next databases.new)
        marks.new.items) front.new) }
    ensures fault { IfErr result (let w = ⟦<A as Worked>⟧.workings in FaultsComplete w
        (Rose (A.count application.old) (A.count application.new)) A.Run.count
        (moment w tables.old (A.Databases.members databases.old) (A.Databases.next databases.old)
        marks.old.items) front.old job) }
    ensures members { A.Databases.members databases.new ≡ A.Databases.members databases.old }
    ensures numbers { Rises tables.old tables.new }
    ensures counts { (n : ℕ)
        → A.Databases.counted databases.new n ≡ A.Databases.counted databases.old n }
    ensures notes { (IsErrOf result ExecError.OutOfMemory → ⊥)
        → A.notes application.new ≡ A.notes application.old }
    ensures later { A.count application.old ≤ A.count application.new }
{
    if tables.runs.contains(job) {
        complete(application, tables, databases, job, marks)
    } else {
        complete_finalized::<A>(front, databases, job, marks)
    }
}

/// Does what follows the last turn of a job's run, which answered this.
pub fn settle_run<A: Application>(
    application: &mut A,
    tables: &mut TablesOf<A>,
    databases: &mut A::Databases,
    front: &mut Option<FrontOf<A>>,
    job: u64,
    answer: Turned<A>,
    marks: &mut Vec<Mark<A::Block>>,
) -> Result<(), ExecError>
    ensures ok { OnOk result (let w = ⟦<A as Worked>⟧.workings in SettlesRun w
        (moment w tables.old (A.Databases.members databases.old) (A.Databases.next databases.old)
        marks.old.items) front.old job answer
        (moment w tables.new (A.Databases.members databases.new) (A.Databases.next databases.new)
        marks.new.items) front.new) }
    ensures fault { IfErr result (let w = ⟦<A as Worked>⟧.workings in FaultsSettleRun w
        (Rose (A.count application.old) (A.count application.new))
        (moment w tables.old (A.Databases.members databases.old) (A.Databases.next databases.old)
        marks.old.items) front.old job answer) }
    ensures members { A.Databases.members databases.new ≡ A.Databases.members databases.old }
    ensures numbers { Rises tables.old tables.new }
    ensures counts { (n : ℕ)
        → A.Databases.counted databases.new n ≡ A.Databases.counted databases.old n }
    ensures notes { (IsErrOf result ExecError.OutOfMemory → ⊥)
        → A.notes application.new ≡ A.notes application.old }
    ensures later { A.count application.old ≤ A.count application.new }
{
    if tables.runs.contains(job) {
        return settle(application, tables, databases, job, answer, marks);
    }
    match take_finalized::<A>(front, job) {
        Some((block, run)) => settle_finalized::<A>(front, block, job, run, answer, marks),
        None => Ok(()),
    }
}
