//! How an event is taken in.
//!
//! Each event but a restart comes through `take_in` once, before anything goes on by itself. What
//! asks for something enters the mailbox as a message, even where nothing else waits. A cancel
//! takes its request out wherever it is: out of the mailbox, the actions and execution. The answer
//! of a fetch, a turn and the answer of a flush go at once to what they name. A stop only ends
//! `up`. All that follows is done by `go_on`, one thing after another.
//!
//! That the event names live work was tested before (`admit` of `stateful_actor_step`), so an error
//! here is a fault, and never `BadEvent`.
//!
//! `TakesIn` of `specs/Intake.antt` of `stateful_loop_model` has a constructor for each kind, and
//! docs/RULES.md says them in words, "How an event is taken in".

ghost use Rattle.std.specs.Prelude.{◌≡◌, ◌≢◌, ◌<◌, ◌≤◌, ◌∷◌, ◌++◌, ◌⊎◌, [], ℕ, Bool, true, false};
ghost use Rattle.std.specs.Prelude.{not, filter, Option, Some, None, List, OnOk, OnErr, IfOk};
ghost use Rattle.std.specs.Prelude.{IfErr, IsErrOf, IsTrue, ◌↔◌, Contains, option_and_then, IsSome};
ghost use Rattle.std.specs.Option.{ForSome};
ghost use Rattle.stateful_base.specs.Causes.{Rose};
ghost use Rattle.stateful_base.specs.Names.{Named};
ghost use Rattle.stateful_db.specs.Barrier.{open_at};
ghost use Rattle.stateful_exec_tables.specs.Tables.{Rises};
ghost use Rattle.stateful_exec_model.specs.Built.{IsLiveBuild};
ghost use Rattle.stateful_exec_model.specs.Finalizing.{IsHookLive};
ghost use Rattle.stateful_loop_model.specs.Barriers.{awaiting};
ghost use Rattle.stateful_loop_model.specs.Intake.{Counts, message_by, Cancels, TurnsJob, TakesIn};
ghost use Rattle.stateful_loop_model.specs.Intake.{FaultsIntake};
ghost use Rattle.stateful_loop_model.specs.Left.{KeepsStates};
ghost use Rattle.stateful_loop_model.specs.Moments.{executing, moment};
ghost use Rattle.stateful_loop_model.specs.Sound.{IsUp};
ghost use Rattle.stateful_loop_model.specs.declared.tables.Processing.{Processing as Kept};
ghost use Rattle.stateful_history.specs.declared.event.Event.TheVariants as came;

use stateful_base::{BlockStore, Digested, OutOfMemory, Share};
use stateful_db::{Application, DatabaseSet, ProposalKind};
use stateful_exec::{Handler, Request, Stage, Worked};
use stateful_history::{Event, Mark};
use stateful_loop_finals::flushed;
use stateful_loop_model::{Message, ProcessingOf, StepError};

/// What an event puts into the mailbox.
fn message_of<B: Drop, C: Copy, I: Share + Drop>(
    event: &Event<B, C, I>,
) -> Result<Option<Message<B, C, I>>, OutOfMemory>
    ensures { IfOk result (λ message. message ≡ message_by event.now) }
{
    match event {
        Event::Verify { ticket, ancestry } => Ok(Some(Message::Request(Request::Verify {
            ticket: *ticket,
            ancestry: ancestry.share()?,
        }))),
        Event::Prepare {
            ticket,
            context,
            ancestry,
            input,
        } => Ok(Some(Message::Request(Request::Recover {
            ticket: *ticket,
            context: *context,
            ancestry: ancestry.share()?,
            input: input.share()?,
            kind: ProposalKind::Prepare,
        }))),
        Event::Propose {
            ticket,
            context,
            ancestry,
            input,
        } => Ok(Some(Message::Request(Request::Recover {
            ticket: *ticket,
            context: *context,
            ancestry: ancestry.share()?,
            input: input.share()?,
            kind: ProposalKind::Propose,
        }))),
        Event::Finalized { ticket, block } => Ok(Some(Message::Finalized {
            ticket: *ticket,
            block: block.share()?,
        })),
        Event::Subscribe { ticket } => Ok(Some(Message::Subscribe { ticket: *ticket })),
        _ => Ok(None),
    }
}

/// The same answer of a fetch.
fn answer_of<B>(answer: &Option<Digested<B>>) -> Result<Option<Digested<B>>, OutOfMemory>
    ensures { IfOk result (λ copy. copy ≡ answer.now) }
{
    match answer {
        Some(block) => Ok(Some(block.share()?)),
        None => Ok(None),
    }
}

/// A request is given up, wherever it waits.
fn cancel<A: Application + Drop>(
    handler: &mut Handler<A>,
    processing: &mut ProcessingOf<A>,
    databases: &A::Databases,
    ticket: u64,
    marks: &mut Vec<Mark<A::Block>>,
) -> Result<(), StepError>
    ensures ok { OnOk result (let w = ⟦<A as Worked>⟧.workings in
        Cancels w ticket
        (moment w (executing handler.old) processing.old (A.Databases.members databases.now)
        (A.Databases.next databases.now) marks.old.items)
        (moment w (executing handler.new) processing.new (A.Databases.members databases.now)
        (A.Databases.next databases.now) marks.new.items)) }
    ensures memory { IfErr result (λ e. e ≡ StepError.OutOfMemory) }
    ensures numbers { Rises handler.old.state handler.new.state }
    ensures application { A.count handler.old.application ≤ A.count handler.new.application }
    ensures notes { A.notes handler.new.application ≡ A.notes handler.old.application }
    ensures barrier { processing.old.next_barrier ≤ processing.new.next_barrier }
{
    processing.queue.give_up(ticket);
    processing.actions.give_up(ticket);
    handler.cancel(ticket, marks)?;
    Ok(())
}

/// Whether the live build is of this job.
fn builds<A: Application + Drop>(handler: &Handler<A>, job: u64) -> bool
    ensures yes { result ≡ true
        → (b : _) × IsLiveBuild ⟦<A as Worked>⟧.workings handler.now.build job b }
    ensures no { result ≡ false
        → (b : _)
        → IsLiveBuild ⟦<A as Worked>⟧.workings handler.now.build job b → ⊥ }
{
    match handler.build() {
        Some(build) => build.job == job,
        None => false,
    }
}

/// Whether the live hook is of this job.
fn hooks<A: Application + Drop>(handler: &Handler<A>, job: u64) -> bool
    ensures yes { result ≡ true
        → (b : _) × (hook : _) × IsHookLive ⟦<A as Worked>⟧.workings handler.now.front job b hook }
    ensures no { result ≡ false
        → (b : _) (hook : _)
        → IsHookLive ⟦<A as Worked>⟧.workings handler.now.front job b hook → ⊥ }
{
    match handler.front() {
        Some(front) => match &front.stage {
            Stage::Hooking { job: of, .. } => *of == job,
            _ => false,
        },
        None => false,
    }
}

/// A job has a turn: the live build, the live hook, or a run.
fn turn<A: Application + Drop>(
    handler: &mut Handler<A>,
    databases: &mut A::Databases,
    job: u64,
    marks: &mut Vec<Mark<A::Block>>,
) -> Result<(), StepError>
    ensures ok { OnOk result (let w = ⟦<A as Worked>⟧.workings in
        (l : Kept A.Block A.Context A.Input A.Captured)
        → TurnsJob w (record { run = A.Run.count; build = A.Build.count; hook = A.Hook.count }) job
        (moment w (executing handler.old) l
        (A.Databases.members databases.old) (A.Databases.next databases.old) marks.old.items)
        (moment w (executing handler.new) l
        (A.Databases.members databases.new) (A.Databases.next databases.new) marks.new.items)) }
    ensures fault { IfErr result (λ e. let w = ⟦<A as Worked>⟧.workings in
        (stored : ℕ → Option (Named A.Block))
        (l : Kept A.Block A.Context A.Input A.Captured)
        → FaultsIntake w stored
        (record { run = A.Run.count; build = A.Build.count; hook = A.Hook.count })
        (Rose (A.count handler.old.application) (A.count handler.new.application))
        (A.Databases.counted databases.old)
        (A.Databases.counted databases.new) (A.Databases.members databases.new)
        (moment w (executing handler.old) l
        (A.Databases.members databases.old) (A.Databases.next databases.old) marks.old.items) e
        (came.Turn job)) }
    ensures members { A.Databases.members databases.new ≡ A.Databases.members databases.old }
    ensures none_away { A.Databases.kind.NoneAway (A.Databases.members databases.old)
        → A.Databases.kind.NoneAway (A.Databases.members databases.new) }
    ensures later { (n : ℕ)
        → A.Databases.counted databases.old n ≤ A.Databases.counted databases.new n }
    ensures numbers { Rises handler.old.state handler.new.state }
    ensures application { A.count handler.old.application ≤ A.count handler.new.application }
    ensures notes { (IsErrOf result StepError.OutOfMemory → ⊥)
        → A.notes handler.new.application ≡ A.notes handler.old.application }
{
    if builds(handler, job) {
        handler.turn_build(databases, job, marks)?;
    } else if hooks(handler, job) {
        handler.turn_hook(databases, job, marks)?;
    } else {
        handler.complete(databases, job, marks)?;
    }
    Ok(())
}

/// Takes in an event, as far as nothing else is needed for it.
pub fn take_in<A: Application + Drop, S: BlockStore<A::Block>>(
    handler: &mut Handler<A>,
    processing: &mut ProcessingOf<A>,
    databases: &mut A::Databases,
    store: &S,
    event: &Event<A::Block, A::Context, A::Input>,
    marks: &mut Vec<Mark<A::Block>>,
) -> Result<(), StepError>
    requires up { let w = ⟦<A as Worked>⟧.workings in IsUp w
        (moment w (executing handler.old) processing.old
        (A.Databases.members databases.old) (A.Databases.next databases.old) marks.old.items) }
    ensures ok { OnOk result (let w = ⟦<A as Worked>⟧.workings in
        TakesIn w (S.stored store.now)
        (record { run = A.Run.count; build = A.Build.count; hook = A.Hook.count })
        (moment w (executing handler.old) processing.old
        (A.Databases.members databases.old) (A.Databases.next databases.old) marks.old.items)
        (moment w (executing handler.new) processing.new
        (A.Databases.members databases.new) (A.Databases.next databases.new) marks.new.items)
        event.now) }
    ensures fault { IfErr result (λ e. let w = ⟦<A as Worked>⟧.workings in
        FaultsIntake w (S.stored store.now)
        (record { run = A.Run.count; build = A.Build.count; hook = A.Hook.count })
        (Rose (A.count handler.old.application) (A.count handler.new.application))
        (A.Databases.counted databases.old)
        (A.Databases.counted databases.new) (A.Databases.members databases.new)
        (moment w (executing handler.old) processing.old
        (A.Databases.members databases.old) (A.Databases.next databases.old) marks.old.items) e
        event.now) }
    ensures left { OnErr result (KeepsStates ⟦<A as Worked>⟧.workings
        (A.Databases.members databases.old) (A.Databases.members databases.new)) }
    ensures none_away { A.Databases.kind.NoneAway (A.Databases.members databases.old)
        → A.Databases.kind.NoneAway (A.Databases.members databases.new) }
    ensures later { (n : ℕ)
        → A.Databases.counted databases.old n ≤ A.Databases.counted databases.new n }
    ensures numbers { Rises handler.old.state handler.new.state }
    ensures application { A.count handler.old.application ≤ A.count handler.new.application }
    ensures notes { (IsErrOf result StepError.OutOfMemory → ⊥)
        → A.notes handler.new.application ≡ A.notes handler.old.application }
    ensures barrier { processing.old.next_barrier ≤ processing.new.next_barrier }
{
    match event {
        Event::Cancel { ticket } => cancel(handler, processing, databases, *ticket, marks),
        Event::Fetched { fetch, answer } => {
            let answer = answer_of(answer)?;
            handler.fetched(databases, store, *fetch, answer, marks)?;
            Ok(())
        }
        Event::Turn { job } => turn(handler, databases, *job, marks),
        Event::Flushed {
            barrier,
            database,
            answer,
        } => flushed::<A>(processing, databases, *barrier, *database, *answer, marks),
        Event::Stop => {
            processing.up = false;
            Ok(())
        }
        _ => {
            if let Some(message) = message_of(event)? {
                processing.queue.push(message)?;
            }
            Ok(())
        }
    }
}
