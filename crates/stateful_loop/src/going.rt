//! What goes on without another event.
//!
//! `go_on` does one thing and answers true, or answers false where nothing can go on. Its caller
//! repeats it until then (`settle` of `stateful_actor_step`), so between two events nothing is left
//! to do. What comes first is fixed:
//!
//! - a proposal whose parent became known is put behind the actions, whatever else goes on;
//! - a live build holds back all but verifications, until it ends;
//! - a finalization in front holds back all but itself, until it has ended;
//! - a barrier breaks or completes, or one that is needed begins;
//! - an action or a message is taken, once nothing else is left.
//!
//! So what is durable is acknowledged before new work is taken. Each thing that is done makes a
//! weight fall (`proofs/Falling.antt` of `stateful_loop_model`), so the repetition ends. `Rule` of
//! its `specs/Rules.antt` has the guards, and docs/RULES.md says them in words under this title.

ghost use Rattle.std.specs.Prelude.{◌≡◌, ◌≢◌, ◌<◌, ◌≤◌, ◌∷◌, ◌++◌, ◌⊎◌, [], ℕ, Bool, true, false};
ghost use Rattle.std.specs.Prelude.{Option, Some, None, List, OnOk, OnErr, IfOk, IfErr, IsErrOf};
ghost use Rattle.stateful_base.specs.Causes.{Rose};
ghost use Rattle.stateful_history.specs.declared.mark.Mark.TheVariants as mark;
ghost use Rattle.stateful_exec_tables.specs.Tables.{Rises};
ghost use Rattle.stateful_loop_model.specs.Causes.{FaultsRule};
ghost use Rattle.stateful_loop_model.specs.Left.{KeepsStates, LeavesRule};
ghost use Rattle.stateful_loop_model.specs.Moments.{executing, moment};
ghost use Rattle.stateful_loop_model.specs.Noted.{NotesFollow, NotesMayFollow};
ghost use Rattle.stateful_loop_model.specs.Rules.{IsIdle, Collects, Goes};
ghost use Rattle.stateful_loop_model.specs.Sound.{IsUp, Sound};

use stateful_base::{BlockStore, Height};
use stateful_db::{Application, DatabaseSet};
use stateful_exec::{Handler, Worked};
use stateful_history::Mark;
use stateful_loop_finals::{begin_barrier, complete_barrier, go_on_finalizing};
use stateful_loop_model::{Action, ProcessingOf, StepError};
use stateful_loop_taking::{drain_first, take_first};

/// A barrier of which a flush was interrupted breaks, and nothing goes on any more.
fn break_barrier<A: Application>(
    processing: &mut ProcessingOf<A>,
    number: u64,
    height: Height,
    marks: &mut Vec<Mark<A::Block>>,
) -> Result<(), StepError>
    ensures ok { OnOk result ((processing.new ≡ record processing.old { up = false })
        × (marks.new.items ≡ marks.old.items ++ mark.BarrierDone number height false ∷ [])) }
    ensures memory { IfErr result (λ e. e ≡ StepError.OutOfMemory) }
    ensures barrier { processing.new.next_barrier ≡ processing.old.next_barrier }
{
    processing.up = false;
    marks.push(Mark::BarrierDone {
        barrier: number,
        height,
        good: false,
    })?;
    Ok(())
}

/// One thing that goes on without another event, where nothing is in front. False where there is
/// none.
fn go_on_idle<A: Application + Drop, S: BlockStore<A::Block>>(
    handler: &mut Handler<A>,
    processing: &mut ProcessingOf<A>,
    databases: &mut A::Databases,
    provider: A::Provider,
    store: &S,
    marks: &mut Vec<Mark<A::Block>>,
) -> Result<bool, StepError>
    requires idle { let w = ⟦<A as Worked>⟧.workings in IsIdle w
        (moment w (executing handler.old) processing.old
        (A.Databases.members databases.old) (A.Databases.next databases.old) marks.old.items) }
    requires up { let w = ⟦<A as Worked>⟧.workings in IsUp w
        (moment w (executing handler.old) processing.old
        (A.Databases.members databases.old) (A.Databases.next databases.old) marks.old.items) }
    ensures ok { IfOk result (λ went. let w = ⟦<A as Worked>⟧.workings in
        Goes w (S.stored store.now) provider
        (moment w (executing handler.old) processing.old
        (A.Databases.members databases.old) (A.Databases.next databases.old) marks.old.items)
        (moment w (executing handler.new) processing.new
        (A.Databases.members databases.new) (A.Databases.next databases.new) marks.new.items)
        went) }
    ensures fault { IfErr result (let w = ⟦<A as Worked>⟧.workings in
        FaultsRule w (S.stored store.now) (Rose (A.count handler.old.application)
        (A.count handler.new.application))
        (A.Databases.counted databases.old)
        (A.Databases.counted databases.new) (A.Databases.members databases.new)
        (moment w (executing handler.old) processing.old
        (A.Databases.members databases.old) (A.Databases.next databases.old) marks.old.items)) }
    ensures left { OnErr result (KeepsStates ⟦<A as Worked>⟧.workings
        (A.Databases.members databases.old) (A.Databases.members databases.new)) }
    ensures none_away { A.Databases.kind.NoneAway (A.Databases.members databases.old)
        → A.Databases.kind.NoneAway (A.Databases.members databases.new) }
    ensures later { (n : ℕ)
        → A.Databases.counted databases.old n ≤ A.Databases.counted databases.new n }
    ensures numbers { Rises handler.old.state handler.new.state }
    ensures application { A.count handler.old.application ≤ A.count handler.new.application }
    ensures notes { (IsErrOf result StepError.OutOfMemory → ⊥)
        → A.notes handler.new.application ≡ A.notes handler.old.application }
    ensures barrier { processing.old.next_barrier ≤ processing.new.next_barrier }
{
    if let Some((number, height)) = processing.barriers.broken() {
        break_barrier::<A>(processing, number, height, marks)?;
        return Ok(true);
    }
    if let Some((number, height)) = processing.barriers.flushed() {
        complete_barrier::<A>(processing, number, height, marks)?;
        return Ok(true);
    }
    if processing.durability.needs_barrier() {
        begin_barrier::<A>(processing, databases, marks)?;
        return Ok(true);
    }
    take_first(handler, processing, databases, provider, store, marks)
}

/// A recovered proposal is to be built, behind what is to be done already. False where there is
/// none.
fn collect<A: Application + Drop>(
    handler: &mut Handler<A>,
    processing: &mut ProcessingOf<A>,
    databases: &A::Databases,
    marks: &Vec<Mark<A::Block>>,
) -> Result<bool, StepError>
    ensures one { IfOk result (λ went. went ≡ true → let w = ⟦<A as Worked>⟧.workings in
        (t : ℕ) × Collects w t
        (moment w (executing handler.old) processing.old (A.Databases.members databases.now)
        (A.Databases.next databases.now) marks.now.items)
        (moment w (executing handler.new) processing.new (A.Databases.members databases.now)
        (A.Databases.next databases.now) marks.now.items)) }
    ensures none { IfOk result (λ went. went ≡ false
        → (handler.old.state.recovered ≡ [])
        × (executing handler.new ≡ executing handler.old)
        × (processing.new ≡ processing.old)) }
    ensures memory { IfErr result (λ e. e ≡ StepError.OutOfMemory) }
    ensures numbers { Rises handler.old.state handler.new.state }
    ensures same { handler.new.application ≡ handler.old.application }
    ensures application { A.count handler.old.application ≤ A.count handler.new.application }
    ensures barrier { processing.old.next_barrier ≤ processing.new.next_barrier }
{
    match handler.ready() {
        Some(ticket) => {
            processing.actions.push(Action::Build { ticket })?;
            Ok(true)
        }
        None => Ok(false),
    }
}

/// One thing that goes on without another event. False where there is none.
pub fn go_on<A: Application + Drop, S: BlockStore<A::Block>>(
    handler: &mut Handler<A>,
    processing: &mut ProcessingOf<A>,
    databases: &mut A::Databases,
    provider: A::Provider,
    store: &S,
    marks: &mut Vec<Mark<A::Block>>,
) -> Result<bool, StepError>
    requires sound { let w = ⟦<A as Worked>⟧.workings in Sound w
        (moment w (executing handler.old) processing.old
        (A.Databases.members databases.old) (A.Databases.next databases.old) marks.old.items) }
    ensures ok { IfOk result (λ went. let w = ⟦<A as Worked>⟧.workings in
        Goes w (S.stored store.now) provider
        (moment w (executing handler.old) processing.old
        (A.Databases.members databases.old) (A.Databases.next databases.old) marks.old.items)
        (moment w (executing handler.new) processing.new
        (A.Databases.members databases.new) (A.Databases.next databases.new) marks.new.items)
        went) }
    ensures fault { IfErr result (let w = ⟦<A as Worked>⟧.workings in
        FaultsRule w (S.stored store.now) (Rose (A.count handler.old.application)
        (A.count handler.new.application))
        (A.Databases.counted databases.old)
        (A.Databases.counted databases.new) (A.Databases.members databases.new)
        (moment w (executing handler.old) processing.old
        (A.Databases.members databases.old) (A.Databases.next databases.old) marks.old.items)) }
    ensures left { OnErr result (let w = ⟦<A as Worked>⟧.workings in
        LeavesRule w
        (moment w (executing handler.old) processing.old
        (A.Databases.members databases.old) (A.Databases.next databases.old) marks.old.items)
        (A.Databases.members databases.new)) }
    ensures none_away { A.Databases.kind.NoneAway (A.Databases.members databases.old)
        → A.Databases.kind.NoneAway (A.Databases.members databases.new) }
    ensures later { (n : ℕ)
        → A.Databases.counted databases.old n ≤ A.Databases.counted databases.new n }
    ensures numbers { Rises handler.old.state handler.new.state }
    ensures application { A.count handler.old.application ≤ A.count handler.new.application }
    ensures notes { OnOk result (NotesFollow A.works.noted (A.notes handler.old.application)
        (A.notes handler.new.application) processing.old.front processing.new.front
        marks.old.items marks.new.items) }
    ensures noted { IfErr result (λ e. (e ≡ StepError.OutOfMemory → ⊥)
        → NotesMayFollow A.works.noted (A.notes handler.old.application)
        (A.notes handler.new.application) processing.old.front) }
    ensures barrier { processing.old.next_barrier ≤ processing.new.next_barrier }
{
    if !processing.up {
        return Ok(false);
    }
    if collect(handler, processing, databases, marks)? {
        return Ok(true);
    }
    if handler.build().is_some() {
        return drain_first(handler, processing, databases, store, marks);
    }
    match processing.front.take() {
        Some(front) => go_on_finalizing(handler, processing, databases, store, front, marks),
        None => go_on_idle(handler, processing, databases, provider, store, marks),
    }
}
