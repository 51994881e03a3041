//! The anchor moves to a finalized block, and the application observes it.
//!
//! In `advance_to` the cache is cut to the block's descendants of later rounds, the block is the
//! anchor, and the application reads the states before it. The batch is handed out with what was
//! read. Between this call and `observe` the caller applies the batch to the databases, so until
//! then the anchor is ahead of them.
//!
//! `observe` hands what was read to the application, with the databases after the block. It may
//! leave a hook, which is a job of its own: `Stage::Hooking`. Each turn of that job goes to the
//! hook (`turn_hook`), until it is done: `Stage::Advanced` again.
//!
//! `Moves`, `Observes` and `TurnsHook` of `specs/Finalizing.antt` of `stateful_exec_model` have the
//! rules, and docs/RULES.md says them in words, "The anchor's move" and "A hook".

ghost use Rattle.std.specs.Prelude.{◌≡◌, ◌≤◌, ◌⊎◌, true, false, Some, None, OnOk, IfOk};
ghost use Rattle.std.specs.Prelude.{IfErr, IfSome, IfNone, IsErrOf, OnErr};
ghost use Rattle.stateful_base.specs.Anchor.{anchor_by};
ghost use Rattle.stateful_base.specs.Causes.{Rose};
ghost use Rattle.stateful_base.specs.Names.{Named};
ghost use Rattle.stateful_exec_cache.specs.Cut.{IsCutTo};
ghost use Rattle.stateful_exec_model.specs.Finalizing.{front_at, HasStates, IsRoot, Moves, FaultsMove};
ghost use Rattle.stateful_exec_model.specs.Finalizing.{Observes, HooksOn, FaultsHooksOn, FaultsObserve};
ghost use Rattle.stateful_exec_model.specs.Finalizing.{IsHookLive, SettlesHook, FaultsSettleHook};
ghost use Rattle.stateful_exec_model.specs.Finalizing.{TurnsHook, FaultsHook};
ghost use Rattle.stateful_exec_tables.specs.Tables.{Rises};
ghost use Rattle.stateful_exec_model.specs.declared.front.Stage.TheVariants as stage;

use crate::finalizing::FrontOf;
use stateful_base::{Block, Digested, Moved, OutOfMemory, Share};
use stateful_db::{AppFault, Application, Batch, DatabaseSet, Hooked};
use stateful_exec_model::{Front, Stage, Worked};
use stateful_exec_runs::TablesOf;
use stateful_exec_tables::ExecError;
use stateful_history::{How, JobKind, Mark};
use std::mem;

/// Takes the batch that the run of a finalized block has led to, if there is one.
fn take_ran<A: Application>(front: &mut Option<FrontOf<A>>) -> Option<Batch<A>>
    ensures some { IfSome result (λ batch. (b : Named A.Block)
        × (front.old ≡ front_at b (stage.Ran batch))) }
    ensures none { IfNone result ((b : Named A.Block) (batch : A.Databases.Merkleized)
        → front.old ≡ front_at b (stage.Ran batch)
        → ⊥) }
{
    let Front { block: _, stage } = mem::replace(front, None)?;
    match stage {
        Stage::Ran(batch) => Some(batch),
        _ => None,
    }
}

/// The batch of a finalized block: that of its entry in the cache, where there is one, and else
/// that of its run. The block is the anchor from now on. `FinalizedRejected` exactly where it has
/// no states.
fn take_root<A: Application>(
    tables: &mut TablesOf<A>,
    front: &mut Option<FrontOf<A>>,
    block: &Digested<A::Block>,
) -> Result<Batch<A>, ExecError>
    ensures root { IfOk result (λ batch. IsRoot ⟦<A as Worked>⟧.workings block.now
        tables.old.cache front.old batch) }
    ensures cut { OnOk result (IsCutTo (anchor_by A.Block.header block.now) tables.old.cache
        tables.new.cache) }
    ensures rest { OnOk result (tables.new ≡ record tables.old {
      anchor = anchor_by A.Block.header block.now;
      cache = tables.new.cache;
    }) }
    ensures fault { IfErr result (λ e. (e ≡ ExecError.OutOfMemory)
        ⊎ ((e ≡ ExecError.FinalizedRejected block.now.digest)
        × (HasStates block.now tables.old.cache front.old → ⊥))) }
    ensures numbers { Rises tables.old tables.new }
{
    if let Some(batch) = tables.cut(block)? {
        return Ok(batch);
    }
    match take_ran::<A>(front) {
        Some(batch) => Ok(batch),
        None => Err(ExecError::FinalizedRejected {
            digest: block.digest(),
        }),
    }
}

/// The anchor moves to the finalized block, and what the application reads of the states before it
/// is handed out with its batch, which is to be applied.
pub fn advance_to<A: Application>(
    application: &mut A,
    tables: &mut TablesOf<A>,
    databases: &A::Databases,
    front: &mut Option<FrontOf<A>>,
    block: &Digested<A::Block>,
) -> Result<(Batch<A>, A::Captured), ExecError>
    ensures ok { IfOk result (λ given. Moves ⟦<A as Worked>⟧.workings block.now
        (A.Databases.members databases.now) tables.old tables.new front.old front.new given.0
        given.1) }
    ensures fault { IfErr result (FaultsMove ⟦<A as Worked>⟧.workings
        (Rose (A.count application.old) (A.count application.new)) block.now tables.old.cache
        front.old) }
    ensures numbers { Rises tables.old tables.new }
    ensures notes { (IsErrOf result ExecError.OutOfMemory → ⊥)
        → A.notes application.new ≡ A.notes application.old }
    ensures later { A.count application.old ≤ A.count application.new }
{
    let batch = take_root::<A>(tables, front, block)?;
    let context = block.inner().context();
    let captured = application.capture(context, block.inner(), &batch, databases)?;
    *front = Some(Front {
        block: block.share()?,
        stage: Stage::Advanced,
    });
    Ok((batch, captured))
}

/// A hook behind the finalized block is live, under the next number of a job, or there is none.
/// Whether there is one.
fn hook_on<A: Application>(
    tables: &mut TablesOf<A>,
    front: &mut Option<FrontOf<A>>,
    block: &Digested<A::Block>,
    hooked: Hooked<A::Hook>,
    marks: &mut Vec<Mark<A::Block>>,
) -> Result<bool, ExecError>
    ensures ok { IfOk result (HooksOn ⟦<A as Worked>⟧.workings block.now hooked tables.old
        tables.new marks.old.items marks.new.items front.new) }
    ensures fault { IfErr result (FaultsHooksOn ⟦<A as Worked>⟧.workings hooked
        tables.old.next_job) }
    ensures numbers { Rises tables.old tables.new }
{
    let (stage, live) = match hooked {
        Hooked::Done => (Stage::Advanced, false),
        Hooked::Pending(hook) => {
            let job = tables.draw_job()?;
            marks.push(Mark::Started {
                job,
                kind: JobKind::Hook,
                digest: block.digest(),
            })?;
            (Stage::Hooking { job, hook }, true)
        }
    };
    *front = Some(Front {
        block: block.share()?,
        stage,
    });
    Ok(live)
}

/// The application observes the states after the finalized block, with what it read of those before
/// it. Whether a hook is live then.
pub fn observe<A: Application>(
    application: &mut A,
    tables: &mut TablesOf<A>,
    databases: &A::Databases,
    front: &mut Option<FrontOf<A>>,
    block: &Digested<A::Block>,
    captured: A::Captured,
    marks: &mut Vec<Mark<A::Block>>,
) -> Result<bool, ExecError>
    ensures ok { IfOk result (Observes ⟦<A as Worked>⟧.workings block.now captured
        (A.Databases.members databases.now) tables.old tables.new marks.old.items marks.new.items
        front.new) }
    ensures fault { IfErr result (FaultsObserve ⟦<A as Worked>⟧.workings
        (Rose (A.count application.old) (A.count application.new)) block.now captured
        (A.Databases.members databases.now) tables.old.next_job) }
    ensures numbers { Rises tables.old tables.new }
    ensures notes { OnOk result (A.notes application.new
        ≡ A.works.noted (A.notes application.old) block.now.block) }
    ensures noted { OnErr result ((IsErrOf result ExecError.OutOfMemory → ⊥)
        → (A.notes application.new ≡ A.notes application.old)
        ⊎ (A.notes application.new ≡ A.works.noted (A.notes application.old) block.now.block)) }
    ensures later { A.count application.old ≤ A.count application.new }
{
    let context = block.inner().context();
    let hooked = application.finalized(context, block.inner(), captured, databases)?;
    hook_on::<A>(tables, front, block, hooked, marks)
}

/// Takes the hook behind the finalized block, where it is live under this number; else nothing
/// changes.
fn take_hook<A: Application>(
    front: &mut Option<FrontOf<A>>,
    job: u64,
) -> Option<(Digested<A::Block>, A::Hook)>
    ensures live { IfSome result (λ found. IsHookLive ⟦<A as Worked>⟧.workings front.old job
        found.0 found.1) }
    ensures none { IfNone result ((b : Named A.Block) (hook : A.Hook)
        → IsHookLive ⟦<A as Worked>⟧.workings front.old job b hook
        → ⊥) }
    ensures same { IfNone result (front.new ≡ front.old) }
{
    let Front { block, stage } = mem::replace(front, None)?;
    match stage {
        Stage::Hooking { job: live, hook } if live == job => Some((block, hook)),
        stage => {
            *front = Some(Front { block, stage });
            None
        }
    }
}

/// What a turn of the hook leads to: it goes on, or has ended.
fn settle_hook<A: Application>(
    front: &mut Option<FrontOf<A>>,
    block: Digested<A::Block>,
    job: u64,
    hook: A::Hook,
    answer: Result<Moved<()>, AppFault>,
    marks: &mut Vec<Mark<A::Block>>,
) -> Result<(), ExecError>
    ensures ok { OnOk result (SettlesHook ⟦<A as Worked>⟧.workings job block hook answer
        marks.old.items marks.new.items front.new) }
    ensures fault { IfErr result (FaultsSettleHook ⟦<A as Worked>⟧.workings answer) }
{
    let stage = match answer? {
        Moved::Pending => Stage::Hooking { job, hook },
        Moved::Done(()) => {
            marks.push(Mark::Ended {
                job,
                how: How::Hooked,
            })?;
            Stage::Advanced
        }
    };
    *front = Some(Front { block, stage });
    Ok(())
}

/// The hook of a job has a turn, where it is live; else nothing changes.
pub fn turn_hook<A: Application>(
    databases: &A::Databases,
    front: &mut Option<FrontOf<A>>,
    job: u64,
    marks: &mut Vec<Mark<A::Block>>,
) -> Result<(), ExecError>
    ensures ok { OnOk result (TurnsHook ⟦<A as Worked>⟧.workings A.Hook.count
        (A.Databases.members databases.now) front.old job marks.old.items marks.new.items
        front.new) }
    ensures fault { IfErr result (FaultsHook ⟦<A as Worked>⟧.workings A.Hook.count
        (A.Databases.members databases.now) front.old job) }
{
    let Some((block, mut hook)) = take_hook::<A>(front, job) else {
        return Ok(());
    };
    let answer = A::turn_hook(&mut hook, databases);
    settle_hook::<A>(front, block, job, hook, answer, marks)
}
