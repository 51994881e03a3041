//! A finalization, from its begin to the end of its hook.
//!
//! It stands in `processing.front` with its ticket and its block, and the stage of execution says
//! how far it has come (`Reached`). It begins with a pause of execution, and waits until no run is
//! awaited. Then the block is run where it isn't cached, and the turns of that run are waited for.
//! Its batch is applied then, and `captured` has what was read before.
//!
//! Now a barrier begins over the block where one is needed. After that the application observes the
//! states and is handed `captured`, and a hook that it leaves is waited for. At the end the receipt
//! is held until the height is durable, and what was paused goes on. While a turn is waited for
//! nothing else goes on, but for what events do.
//!
//! `specs/Rules.antt` of `stateful_loop_model` has the rules (`BeginsFinalization`, `AppliesBlock`,
//! `EndsFinalization`); docs/RULES.md says them in words, "A finalization".

ghost use Rattle.std.specs.Prelude.{◌≡◌, ◌<◌, ◌≤◌, ◌⊎◌, ℕ, true, false};
ghost use Rattle.std.specs.Prelude.{Option, Some, None, OnOk, OnErr, IfOk, IfErr, All};
ghost use Rattle.std.specs.Prelude.{length, IsErrOf};
ghost use Rattle.stateful_base.specs.Causes.{Rose};
ghost use Rattle.stateful_base.specs.Names.{Named};
ghost use Rattle.stateful_exec_model.specs.Causes.{FaultsStart};
ghost use Rattle.stateful_exec_model.specs.Finalizing.{front_at, FaultsBegin, FaultsObserve};
ghost use Rattle.stateful_exec_tables.specs.Pausing.{AwaitsRuns};
ghost use Rattle.stateful_exec_tables.specs.Tables.{Rises};
ghost use Rattle.stateful_exec_model.specs.declared.front.Stage.TheVariants as stage;
ghost use Rattle.stateful_loop_model.specs.Causes.{Via, FaultsRule};
ghost use Rattle.stateful_loop_model.specs.Left.{KeepsStates, LeavesRule};
ghost use Rattle.stateful_exec_model.specs.Moments as exec;
ghost use Rattle.stateful_loop_model.specs.Moments.{executing, moment};
ghost use Rattle.stateful_loop_model.specs.Noted.{NotesFollow, NotesMayFollow};
ghost use Rattle.stateful_loop_model.specs.declared.tables.Processing.{Processing as Kept};
ghost use Rattle.stateful_loop_model.specs.Reached.{reached_by};
ghost use Rattle.stateful_loop_model.specs.Rules.{BeginsFinalization, RunsFinalized};
ghost use Rattle.stateful_loop_model.specs.Rules.{ObservesBlock, IsFinalizing};
ghost use Rattle.stateful_loop_model.specs.Rules.{Needed, Rule, Goes};
ghost use Rattle.stateful_loop_model.specs.Sound.{IsUp};

use crate::barrier::begin_barrier;
use stateful_base::{BlockStore, Digested, Share};
use stateful_db::{Application, DatabaseSet};
use stateful_exec::{Handler, Stage, Worked};
use stateful_history::Mark;
use stateful_loop_applies::{apply, end_finalization};
use stateful_loop_model::{Finalizing, ProcessingOf, Reached, StepError};

/// The finalization of a block begins, and execution pauses for it.
pub fn begin_finalization<A: Application + Drop>(
    handler: &mut Handler<A>,
    processing: &mut ProcessingOf<A>,
    databases: &A::Databases,
    ticket: u64,
    block: Digested<A::Block>,
    marks: &mut Vec<Mark<A::Block>>,
) -> Result<(), StepError>
    ensures ok { OnOk result (let w = ⟦<A as Worked>⟧.workings in
        BeginsFinalization w ticket block
        (moment w (executing handler.old) processing.old (A.Databases.members databases.now)
        (A.Databases.next databases.now) marks.old.items)
        (moment w (executing handler.new) processing.new (A.Databases.members databases.now)
        (A.Databases.next databases.now) marks.new.items)) }
    ensures fault { IfErr result (λ e. (e ≡ StepError.OutOfMemory)
        ⊎ Via (FaultsBegin A.Block.header handler.old.state.anchor block) e) }
    ensures numbers { Rises handler.old.state handler.new.state }
    ensures application { A.count handler.old.application ≤ A.count handler.new.application }
    ensures notes { A.notes handler.new.application ≡ A.notes handler.old.application }
    ensures barrier { processing.old.next_barrier ≤ processing.new.next_barrier }
{
    handler.begin(&block)?;
    marks.push(Mark::Began {
        ticket,
        block: block.share()?,
    })?;
    let boundary = handler.boundary(&block)?;
    handler.pause(Some(boundary), marks)?;
    processing.front = Some(Finalizing {
        ticket,
        block,
        captured: None,
    });
    Ok(())
}

/// A run of the finalized block begins.
fn run<A: Application + Drop>(
    handler: &mut Handler<A>,
    databases: &mut A::Databases,
    block: &Digested<A::Block>,
    marks: &mut Vec<Mark<A::Block>>,
) -> Result<(), StepError>
    ensures ok { OnOk result (let w = ⟦<A as Worked>⟧.workings in
        (l : Kept A.Block A.Context A.Input A.Captured)
        → RunsFinalized w block.now
        (moment w (executing handler.old) l
        (A.Databases.members databases.old) (A.Databases.next databases.old) marks.old.items)
        (moment w (executing handler.new) l
        (A.Databases.members databases.new) (A.Databases.next databases.new) marks.new.items)) }
    ensures fault { IfErr result (let w = ⟦<A as Worked>⟧.workings in
        Via (FaultsStart w (Rose (A.count handler.old.application)
        (A.count handler.new.application)) handler.old.state.next_job
        (A.Databases.members databases.old) (A.Databases.next databases.old))) }
    ensures members { A.Databases.members databases.new ≡ A.Databases.members databases.old }
    ensures none_away { A.Databases.kind.NoneAway (A.Databases.members databases.old)
        → A.Databases.kind.NoneAway (A.Databases.members databases.new) }
    ensures later { (n : ℕ)
        → A.Databases.counted databases.old n ≤ A.Databases.counted databases.new n }
    ensures numbers { Rises handler.old.state handler.new.state }
    ensures application { A.count handler.old.application ≤ A.count handler.new.application }
    ensures notes { (IsErrOf result StepError.OutOfMemory → ⊥)
        → A.notes handler.new.application ≡ A.notes handler.old.application }
{
    handler.run_finalized(databases, block, marks)?;
    Ok(())
}

/// The application observes what was applied, and may leave a hook.
fn observe<A: Application + Drop>(
    handler: &mut Handler<A>,
    processing: &mut ProcessingOf<A>,
    databases: &A::Databases,
    ticket: u64,
    block: Digested<A::Block>,
    captured: A::Captured,
    marks: &mut Vec<Mark<A::Block>>,
) -> Result<(), StepError>
    ensures ok { OnOk result (let w = ⟦<A as Worked>⟧.workings in
        ObservesBlock w (record {
          ticket = ticket;
          block = block;
          captured = Some captured;
        }) captured
        (moment w (executing handler.old) processing.old (A.Databases.members databases.now)
        (A.Databases.next databases.now) marks.old.items)
        (moment w (executing handler.new) processing.new (A.Databases.members databases.now)
        (A.Databases.next databases.now) marks.new.items)) }
    ensures fault { IfErr result (Via (FaultsObserve ⟦<A as Worked>⟧.workings
        (Rose (A.count handler.old.application) (A.count handler.new.application)) block captured
        (A.Databases.members databases.now) handler.old.state.next_job)) }
    ensures numbers { Rises handler.old.state handler.new.state }
    ensures application { A.count handler.old.application ≤ A.count handler.new.application }
    ensures notes { OnOk result (A.notes handler.new.application
        ≡ A.works.noted (A.notes handler.old.application) block.block) }
    ensures noted { IfErr result (λ e. (e ≡ StepError.OutOfMemory → ⊥)
        → (A.notes handler.new.application ≡ A.notes handler.old.application)
        ⊎ (A.notes handler.new.application
        ≡ A.works.noted (A.notes handler.old.application) block.block)) }
    ensures barrier { processing.old.next_barrier ≤ processing.new.next_barrier }
{
    handler.hook(databases, &block, captured, marks)?;
    processing.front = Some(Finalizing {
        ticket,
        block,
        captured: None,
    });
    Ok(())
}

/// How far the finalization that goes on has come.
fn progress_of<A: Application + Drop>(handler: &Handler<A>) -> Reached
    ensures { result ≡ reached_by handler.now.front }
{
    match handler.front() {
        Some(front) => match &front.stage {
            Stage::Begun => Reached::Begun,
            Stage::Ran(_) => Reached::Ran,
            Stage::Advanced => Reached::Advanced,
            Stage::Running { .. } | Stage::Hooking { .. } => Reached::Waiting,
        },
        None => Reached::Waiting,
    }
}

/// No run is awaited: a cached block is applied, and another one is run.
fn run_or_apply<A: Application + Drop>(
    handler: &mut Handler<A>,
    processing: &mut ProcessingOf<A>,
    databases: &mut A::Databases,
    front: Finalizing<A::Block, A::Captured>,
    marks: &mut Vec<Mark<A::Block>>,
) -> Result<(), StepError>
    requires finalizing { let w = ⟦<A as Worked>⟧.workings in IsFinalizing w
        (moment w (executing handler.old) (record processing.old { front = Some front })
        (A.Databases.members databases.old) (A.Databases.next databases.old) marks.old.items)
        front }
    requires begun { handler.old.front ≡ front_at front.block stage.Begun }
    requires idle { AwaitsRuns A.Block.header handler.old.state 0 }
    requires next { processing.old.durability.applied < A.Block.header.height front.block.block }
    requires unread { front.captured ≡ None }
    ensures ok { OnOk result (let w = ⟦<A as Worked>⟧.workings in
        (stored : ℕ → Option (Named A.Block)) (provider : A.Provider)
        → Rule w stored provider
        (moment w (executing handler.old) (record processing.old { front = Some front })
        (A.Databases.members databases.old) (A.Databases.next databases.old) marks.old.items)
        (moment w (executing handler.new) processing.new
        (A.Databases.members databases.new) (A.Databases.next databases.new) marks.new.items)) }
    ensures fault { IfErr result (λ e. let w = ⟦<A as Worked>⟧.workings in
        (stored : ℕ → Option (Named A.Block))
        → FaultsRule w stored (Rose (A.count handler.old.application)
        (A.count handler.new.application))
        (A.Databases.counted databases.old)
        (A.Databases.counted databases.new) (A.Databases.members databases.new)
        (moment w (executing handler.old) (record processing.old { front = Some front })
        (A.Databases.members databases.old) (A.Databases.next databases.old) marks.old.items) e) }
    ensures left { OnErr result (let w = ⟦<A as Worked>⟧.workings in
        LeavesRule w
        (moment w (executing handler.old) (record processing.old { front = Some front })
        (A.Databases.members databases.old) (A.Databases.next databases.old) marks.old.items)
        (A.Databases.members databases.new)) }
    ensures none_away { A.Databases.kind.NoneAway (A.Databases.members databases.old)
        → A.Databases.kind.NoneAway (A.Databases.members databases.new) }
    ensures later { (n : ℕ)
        → A.Databases.counted databases.old n ≤ A.Databases.counted databases.new n }
    ensures numbers { Rises handler.old.state handler.new.state }
    ensures application { A.count handler.old.application ≤ A.count handler.new.application }
    ensures notes { OnOk result (NotesFollow A.works.noted (A.notes handler.old.application)
        (A.notes handler.new.application) (Some front) processing.new.front
        marks.old.items marks.new.items) }
    ensures noted { IfErr result (λ e. (e ≡ StepError.OutOfMemory → ⊥)
        → A.notes handler.new.application ≡ A.notes handler.old.application) }
    ensures barrier { processing.old.next_barrier ≤ processing.new.next_barrier }
{
    if handler.cached(&front.block.digest()) {
        apply(handler, processing, databases, front, marks)
    } else {
        run(handler, databases, &front.block, marks)?;
        processing.front = Some(front);
        Ok(())
    }
}

/// The anchor has moved, and no hook goes on: a barrier begins where one is needed before the
/// application has observed the block; else it observes it; and once it has, the finalization ends.
fn go_on_advanced<A: Application + Drop, S: BlockStore<A::Block>>(
    handler: &mut Handler<A>,
    processing: &mut ProcessingOf<A>,
    databases: &mut A::Databases,
    store: &S,
    front: Finalizing<A::Block, A::Captured>,
    marks: &mut Vec<Mark<A::Block>>,
) -> Result<(), StepError>
    requires finalizing { let w = ⟦<A as Worked>⟧.workings in IsFinalizing w
        (moment w (executing handler.old) (record processing.old { front = Some front })
        (A.Databases.members databases.old) (A.Databases.next databases.old) marks.old.items)
        front }
    requires none { processing.old.front ≡ None }
    requires advanced { handler.old.front ≡ front_at front.block stage.Advanced }
    requires room { Needed processing.old.durability
        → A.Databases.kind.HasRoom (A.Databases.members databases.old)
        × (length processing.old.barriers < 2) }
    requires last { A.Block.header.height front.block.block ≡ processing.old.durability.applied }
    requires first { All (λ receipt. receipt.0 < processing.old.durability.applied)
        processing.old.durability.held }
    ensures ok { OnOk result (let w = ⟦<A as Worked>⟧.workings in
        (provider : A.Provider) → Rule w (S.stored store.now) provider
        (moment w (executing handler.old) (record processing.old { front = Some front })
        (A.Databases.members databases.old) (A.Databases.next databases.old) marks.old.items)
        (moment w (executing handler.new) processing.new
        (A.Databases.members databases.new) (A.Databases.next databases.new) marks.new.items)) }
    ensures fault { IfErr result (let w = ⟦<A as Worked>⟧.workings in
        FaultsRule w (S.stored store.now) (Rose (A.count handler.old.application)
        (A.count handler.new.application))
        (A.Databases.counted databases.old)
        (A.Databases.counted databases.new) (A.Databases.members databases.new)
        (moment w (executing handler.old) (record processing.old { front = Some front })
        (A.Databases.members databases.old) (A.Databases.next databases.old) marks.old.items)) }
    ensures left { OnErr result (KeepsStates ⟦<A as Worked>⟧.workings
        (A.Databases.members databases.old) (A.Databases.members databases.new)) }
    ensures none_away { A.Databases.kind.NoneAway (A.Databases.members databases.old)
        → A.Databases.kind.NoneAway (A.Databases.members databases.new) }
    ensures later { (n : ℕ)
        → A.Databases.counted databases.old n ≤ A.Databases.counted databases.new n }
    ensures numbers { Rises handler.old.state handler.new.state }
    ensures application { A.count handler.old.application ≤ A.count handler.new.application }
    ensures notes { OnOk result (NotesFollow A.works.noted (A.notes handler.old.application)
        (A.notes handler.new.application) (Some front) processing.new.front
        marks.old.items marks.new.items) }
    ensures noted { IfErr result (λ e. (e ≡ StepError.OutOfMemory → ⊥)
        → NotesMayFollow A.works.noted (A.notes handler.old.application)
        (A.notes handler.new.application) (Some front)) }
    ensures barrier { processing.old.next_barrier ≤ processing.new.next_barrier }
{
    let Finalizing {
        ticket,
        block,
        captured,
    } = front;
    match captured {
        Some(captured) => {
            if processing.durability.needs_barrier() {
                processing.front = Some(Finalizing {
                    ticket,
                    block,
                    captured: Some(captured),
                });
                begin_barrier::<A>(processing, databases, marks)
            } else {
                observe(
                    handler, processing, databases, ticket, block, captured, marks,
                )
            }
        }
        None => end_finalization(handler, processing, databases, store, ticket, block, marks),
    }
}

/// The finalization in front goes on. False where it waits for a turn.
pub fn go_on_finalizing<A: Application + Drop, S: BlockStore<A::Block>>(
    handler: &mut Handler<A>,
    processing: &mut ProcessingOf<A>,
    databases: &mut A::Databases,
    store: &S,
    front: Finalizing<A::Block, A::Captured>,
    marks: &mut Vec<Mark<A::Block>>,
) -> Result<bool, StepError>
    requires finalizing { let w = ⟦<A as Worked>⟧.workings in IsFinalizing w
        (moment w (executing handler.old) (record processing.old { front = Some front })
        (A.Databases.members databases.old) (A.Databases.next databases.old) marks.old.items)
        front }
    requires none { processing.old.front ≡ None }
    requires up { let w = ⟦<A as Worked>⟧.workings in IsUp w
        (moment w (executing handler.old) (record processing.old { front = Some front })
        (A.Databases.members databases.old) (A.Databases.next databases.old) marks.old.items) }
    ensures ok { IfOk result (λ went. let w = ⟦<A as Worked>⟧.workings in
        (provider : A.Provider)
        → Goes w (S.stored store.now) provider
        (moment w (executing handler.old) (record processing.old { front = Some front })
        (A.Databases.members databases.old) (A.Databases.next databases.old) marks.old.items)
        (moment w (executing handler.new) processing.new
        (A.Databases.members databases.new) (A.Databases.next databases.new) marks.new.items)
        went) }
    ensures fault { IfErr result (let w = ⟦<A as Worked>⟧.workings in
        FaultsRule w (S.stored store.now) (Rose (A.count handler.old.application)
        (A.count handler.new.application))
        (A.Databases.counted databases.old)
        (A.Databases.counted databases.new) (A.Databases.members databases.new)
        (moment w (executing handler.old) (record processing.old { front = Some front })
        (A.Databases.members databases.old) (A.Databases.next databases.old) marks.old.items)) }
    ensures left { OnErr result (let w = ⟦<A as Worked>⟧.workings in
        LeavesRule w
        (moment w (executing handler.old) (record processing.old { front = Some front })
        (A.Databases.members databases.old) (A.Databases.next databases.old) marks.old.items)
        (A.Databases.members databases.new)) }
    ensures none_away { A.Databases.kind.NoneAway (A.Databases.members databases.old)
        → A.Databases.kind.NoneAway (A.Databases.members databases.new) }
    ensures later { (n : ℕ)
        → A.Databases.counted databases.old n ≤ A.Databases.counted databases.new n }
    ensures numbers { Rises handler.old.state handler.new.state }
    ensures application { A.count handler.old.application ≤ A.count handler.new.application }
    ensures notes { OnOk result (NotesFollow A.works.noted (A.notes handler.old.application)
        (A.notes handler.new.application) (Some front) processing.new.front
        marks.old.items marks.new.items) }
    ensures noted { IfErr result (λ e. (e ≡ StepError.OutOfMemory → ⊥)
        → NotesMayFollow A.works.noted (A.notes handler.old.application)
        (A.notes handler.new.application) (Some front)) }
    ensures barrier { processing.old.next_barrier ≤ processing.new.next_barrier }
{
    match progress_of(handler) {
        Reached::Begun => {
            if handler.awaited() > 0 {
                processing.front = Some(front);
                return Ok(false);
            }
            run_or_apply(handler, processing, databases, front, marks)?;
            Ok(true)
        }
        Reached::Ran => {
            apply(handler, processing, databases, front, marks)?;
            Ok(true)
        }
        Reached::Advanced => {
            go_on_advanced(handler, processing, databases, store, front, marks)?;
            Ok(true)
        }
        Reached::Waiting => {
            processing.front = Some(front);
            Ok(false)
        }
    }
}
