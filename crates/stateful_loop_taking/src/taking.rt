//! How what waits is taken.
//!
//! Two queues wait: `actions`, and after it the mailbox `queue`. Where no build is live and no
//! finalization is in front, `take_first` takes the first action, or else the first message, and
//! does it whole. A request acquires what it needs, a subscription is answered, and a finalized
//! block begins its finalization or is a duplicate. An action that is a build begins, or is
//! declined.
//!
//! While a build is live nothing is taken but by `drain_first`. A verification is scheduled at
//! once, so no vote waits for a build. Any other message goes to the end of `actions`, where it
//! keeps its order, and stands before all that comes later.
//!
//! `Takes`, `DoesMessage` and `Builds` of `specs/Rules.antt` of `stateful_loop_model` have the
//! rules; docs/RULES.md says them in words, "What goes on without another event".

ghost use Rattle.std.specs.Prelude.{◌≡◌, ◌≢◌, ◌<◌, ◌≤◌, ◌∷◌, ◌++◌, ◌⊎◌, [], ℕ, Bool, true, false};
ghost use Rattle.std.specs.Prelude.{Option, Some, None, List, OnOk, OnErr, IfOk, IfErr, IfSome};
ghost use Rattle.std.specs.Prelude.{IsSome, Any, All, IsErrOf};
ghost use Rattle.stateful_base.specs.Causes.{Rose};
ghost use Rattle.stateful_base.specs.Names.{Named};
ghost use Rattle.stateful_exec_model.specs.Building.{FaultsPropose};
ghost use Rattle.stateful_exec_model.specs.Causes.{FaultsAcquire};
ghost use Rattle.stateful_exec_model.specs.Finalizing.{IsRedelivered};
ghost use Rattle.stateful_exec_tables.specs.Tables.{requested};
ghost use Rattle.stateful_exec_tables.specs.Tables.{Rises};
ghost use Rattle.stateful_loop_model.specs.Causes.{Via, FaultsMessage, FaultsRule};
ghost use Rattle.stateful_exec_model.specs.Moments as exec;
ghost use Rattle.stateful_loop_model.specs.Moments.{executing, moment};
ghost use Rattle.stateful_loop_model.specs.declared.tables.Processing.{Processing as Kept};
ghost use Rattle.stateful_loop_model.specs.Rules.{Schedules, Builds, DoesMessage, IsCalm};
ghost use Rattle.stateful_loop_model.specs.Rules.{IsCollected, Goes};
ghost use Rattle.stateful_loop_model.specs.Sound.{AreHeld};
ghost use Rattle.stateful_loop_model.specs.declared.message.Message.TheVariants as waits;

use stateful_base::{BlockStore, Digested};
use stateful_db::{Application, DatabaseSet};
use stateful_exec::{BuildStart, Handler, Request, Worked};
use stateful_history::{JobKind, Mark};
use stateful_loop_finals::begin_finalization;
use stateful_loop_model::{Action, Message, ProcessingOf, StepError};

/// A request acquires what it needs.
pub fn schedule<A: Application + Drop, S: BlockStore<A::Block>>(
    handler: &mut Handler<A>,
    databases: &mut A::Databases,
    store: &S,
    request: Request<A::Block, A::Context, A::Input>,
    marks: &mut Vec<Mark<A::Block>>,
) -> Result<(), StepError>
    ensures ok { OnOk result (let w = ⟦<A as Worked>⟧.workings in
        (l : Kept A.Block A.Context A.Input A.Captured)
        → Schedules w (S.stored store.now) request
        (moment w (executing handler.old) l
        (A.Databases.members databases.old) (A.Databases.next databases.old) marks.old.items)
        (moment w (executing handler.new) l
        (A.Databases.members databases.new) (A.Databases.next databases.new) marks.new.items)) }
    ensures fault { IfErr result (let w = ⟦<A as Worked>⟧.workings in
        Via (FaultsAcquire w (Rose (A.count handler.old.application)
        (A.count handler.new.application)) (S.stored store.now)
        (exec.moment w handler.old.state (A.Databases.members databases.old)
        (A.Databases.next databases.old) marks.old.items) (requested request))) }
    ensures members { A.Databases.members databases.new ≡ A.Databases.members databases.old }
    ensures none_away { A.Databases.kind.NoneAway (A.Databases.members databases.old)
        → A.Databases.kind.NoneAway (A.Databases.members databases.new) }
    ensures later { (n : ℕ)
        → A.Databases.counted databases.old n ≤ A.Databases.counted databases.new n }
    ensures numbers { Rises handler.old.state handler.new.state }
    ensures application { A.count handler.old.application ≤ A.count handler.new.application }
    ensures notes { (IsErrOf result StepError.OutOfMemory → ⊥)
        → A.notes handler.new.application ≡ A.notes handler.old.application }
{
    handler.schedule(databases, store, request, marks)?;
    Ok(())
}

/// The build of a proposal begins, or is declined where its parent isn't known. No other build is
/// live.
fn build<A: Application + Drop>(
    handler: &mut Handler<A>,
    databases: &mut A::Databases,
    provider: A::Provider,
    ticket: u64,
    marks: &mut Vec<Mark<A::Block>>,
) -> Result<(), StepError>
    requires none { handler.old.build ≡ None }
    ensures ok { OnOk result (let w = ⟦<A as Worked>⟧.workings in
        (l : Kept A.Block A.Context A.Input A.Captured)
        → Builds w provider ticket
        (moment w (executing handler.old) l
        (A.Databases.members databases.old) (A.Databases.next databases.old) marks.old.items)
        (moment w (executing handler.new) l
        (A.Databases.members databases.new) (A.Databases.next databases.new) marks.new.items)) }
    ensures fault { IfErr result (let w = ⟦<A as Worked>⟧.workings in
        Via (FaultsPropose w (Rose (A.count handler.old.application)
        (A.count handler.new.application)) ticket
        (A.Databases.members databases.old) (A.Databases.next databases.old) handler.old.state)) }
    ensures members { A.Databases.members databases.new ≡ A.Databases.members databases.old }
    ensures none_away { A.Databases.kind.NoneAway (A.Databases.members databases.old)
        → A.Databases.kind.NoneAway (A.Databases.members databases.new) }
    ensures later { (n : ℕ)
        → A.Databases.counted databases.old n ≤ A.Databases.counted databases.new n }
    ensures numbers { Rises handler.old.state handler.new.state }
    ensures application { A.count handler.old.application ≤ A.count handler.new.application }
    ensures notes { (IsErrOf result StepError.OutOfMemory → ⊥)
        → A.notes handler.new.application ≡ A.notes handler.old.application }
{
    let started = handler.propose(ticket, databases, provider)?;
    match started {
        BuildStart::Started(job) => match handler.build() {
            Some(build) => marks.push(Mark::Started {
                job,
                kind: JobKind::Build,
                digest: build.parent.digest(),
            })?,
            None => unreachable!(),
        },
        BuildStart::Declined => marks.push(Mark::Declined { ticket })?,
    }
    Ok(())
}

/// A finalized block that is no higher than the anchor: it is acknowledged where its height is
/// durable, and else its receipt is held behind the others of its height.
fn duplicate<A: Application + Drop>(
    handler: &Handler<A>,
    processing: &mut ProcessingOf<A>,
    databases: &A::Databases,
    ticket: u64,
    block: &Digested<A::Block>,
    marks: &mut Vec<Mark<A::Block>>,
) -> Result<(), StepError>
    requires past { IsRedelivered A.Block.header handler.now.state.anchor block.now }
    requires held { (A.Block.header.height block.now.block ≤ processing.old.durability.durable)
        ⊎ Any (λ receipt. receipt.0 ≡ A.Block.header.height block.now.block)
        processing.old.durability.held }
    ensures ok { OnOk result (let w = ⟦<A as Worked>⟧.workings in
        (stored : ℕ → Option (Named A.Block)) → DoesMessage w stored
        (moment w (executing handler.now) processing.old (A.Databases.members databases.now)
        (A.Databases.next databases.now) marks.old.items)
        (moment w (executing handler.now) processing.new (A.Databases.members databases.now)
        (A.Databases.next databases.now) marks.new.items)
        (waits.Finalized ticket block.now)) }
    ensures memory { IfErr result (λ e. e ≡ StepError.OutOfMemory) }
    ensures barrier { processing.old.next_barrier ≤ processing.new.next_barrier }
{
    let height = block.height();
    if processing.durability.covers(height) {
        marks.push(Mark::Acknowledged { ticket, height })?;
    } else {
        processing.durability.record_duplicate(height, ticket)?;
    }
    Ok(())
}

/// A message is taken.
fn take_message<A: Application + Drop, S: BlockStore<A::Block>>(
    handler: &mut Handler<A>,
    processing: &mut ProcessingOf<A>,
    databases: &mut A::Databases,
    store: &S,
    message: Message<A::Block, A::Context, A::Input>,
    marks: &mut Vec<Mark<A::Block>>,
) -> Result<(), StepError>
    requires none { processing.old.front ≡ None }
    requires held { AreHeld ⟦<A as Worked>⟧.workings processing.old.durability None }
    requires applied { processing.old.durability.applied ≡ handler.old.state.anchor.height.0 }
    ensures ok { OnOk result (let w = ⟦<A as Worked>⟧.workings in
        DoesMessage w (S.stored store.now)
        (moment w (executing handler.old) processing.old
        (A.Databases.members databases.old) (A.Databases.next databases.old) marks.old.items)
        (moment w (executing handler.new) processing.new
        (A.Databases.members databases.new) (A.Databases.next databases.new) marks.new.items)
        message) }
    ensures fault { IfErr result (λ e. (e ≡ StepError.OutOfMemory) ⊎ (let w = ⟦<A as Worked>⟧.workings in
        FaultsMessage w (S.stored store.now) (Rose (A.count handler.old.application)
        (A.count handler.new.application))
        (A.Databases.counted databases.old)
        (A.Databases.counted databases.new) (A.Databases.members databases.new)
        (moment w (executing handler.old) processing.old
        (A.Databases.members databases.old) (A.Databases.next databases.old) marks.old.items)
        message e)) }
    ensures members { A.Databases.members databases.new ≡ A.Databases.members databases.old }
    ensures none_away { A.Databases.kind.NoneAway (A.Databases.members databases.old)
        → A.Databases.kind.NoneAway (A.Databases.members databases.new) }
    ensures later { (n : ℕ)
        → A.Databases.counted databases.old n ≤ A.Databases.counted databases.new n }
    ensures numbers { Rises handler.old.state handler.new.state }
    ensures application { A.count handler.old.application ≤ A.count handler.new.application }
    ensures notes { (IsErrOf result StepError.OutOfMemory → ⊥)
        → A.notes handler.new.application ≡ A.notes handler.old.application }
    ensures barrier { processing.old.next_barrier ≤ processing.new.next_barrier }
{
    match message {
        Message::Request(request) => schedule(handler, databases, store, request, marks),
        Message::Subscribe { ticket } => {
            marks.push(Mark::Databases { ticket })?;
            Ok(())
        }
        Message::Finalized { ticket, block } => {
            if handler.redelivered(&block)? {
                duplicate(handler, processing, databases, ticket, &block, marks)
            } else {
                begin_finalization(handler, processing, databases, ticket, block, marks)
            }
        }
    }
}

/// The first action is taken, or else the first message of the mailbox. False where there is
/// neither.
pub fn take_first<A: Application + Drop, S: BlockStore<A::Block>>(
    handler: &mut Handler<A>,
    processing: &mut ProcessingOf<A>,
    databases: &mut A::Databases,
    provider: A::Provider,
    store: &S,
    marks: &mut Vec<Mark<A::Block>>,
) -> Result<bool, StepError>
    requires calm { let w = ⟦<A as Worked>⟧.workings in IsCalm w
        (moment w (executing handler.old) processing.old
        (A.Databases.members databases.old) (A.Databases.next databases.old) marks.old.items) }
    requires held { AreHeld ⟦<A as Worked>⟧.workings processing.old.durability None }
    requires applied { processing.old.durability.applied ≡ handler.old.state.anchor.height.0 }
    ensures ok { IfOk result (λ went. let w = ⟦<A as Worked>⟧.workings in
        Goes w (S.stored store.now) provider
        (moment w (executing handler.old) processing.old
        (A.Databases.members databases.old) (A.Databases.next databases.old) marks.old.items)
        (moment w (executing handler.new) processing.new
        (A.Databases.members databases.new) (A.Databases.next databases.new) marks.new.items)
        went) }
    ensures fault { IfErr result (let w = ⟦<A as Worked>⟧.workings in
        FaultsRule w (S.stored store.now) (Rose (A.count handler.old.application)
        (A.count handler.new.application))
        (A.Databases.counted databases.old)
        (A.Databases.counted databases.new) (A.Databases.members databases.new)
        (moment w (executing handler.old) processing.old
        (A.Databases.members databases.old) (A.Databases.next databases.old) marks.old.items)) }
    ensures members { A.Databases.members databases.new ≡ A.Databases.members databases.old }
    ensures none_away { A.Databases.kind.NoneAway (A.Databases.members databases.old)
        → A.Databases.kind.NoneAway (A.Databases.members databases.new) }
    ensures later { (n : ℕ)
        → A.Databases.counted databases.old n ≤ A.Databases.counted databases.new n }
    ensures numbers { Rises handler.old.state handler.new.state }
    ensures application { A.count handler.old.application ≤ A.count handler.new.application }
    ensures notes { (IsErrOf result StepError.OutOfMemory → ⊥)
        → A.notes handler.new.application ≡ A.notes handler.old.application }
    ensures barrier { processing.old.next_barrier ≤ processing.new.next_barrier }
{
    if let Some(action) = processing.actions.pop() {
        match action {
            Action::Build { ticket } => {
                build(handler, databases, provider, ticket, marks)?;
            }
            Action::Message(message) => {
                take_message(handler, processing, databases, store, message, marks)?;
            }
        }
        return Ok(true);
    }
    let Some(message) = processing.queue.pop() else {
        return Ok(false);
    };
    take_message(handler, processing, databases, store, message, marks)?;
    Ok(true)
}

/// While a build goes on, the first message of the mailbox is scheduled where it is a verification,
/// and else put behind the actions. False where there is none.
pub fn drain_first<A: Application + Drop, S: BlockStore<A::Block>>(
    handler: &mut Handler<A>,
    processing: &mut ProcessingOf<A>,
    databases: &mut A::Databases,
    store: &S,
    marks: &mut Vec<Mark<A::Block>>,
) -> Result<bool, StepError>
    requires collected { let w = ⟦<A as Worked>⟧.workings in IsCollected w
        (moment w (executing handler.old) processing.old
        (A.Databases.members databases.old) (A.Databases.next databases.old) marks.old.items) }
    requires building { IsSome handler.old.build }
    ensures ok { IfOk result (λ went. let w = ⟦<A as Worked>⟧.workings in
        (provider : A.Provider) → Goes w (S.stored store.now) provider
        (moment w (executing handler.old) processing.old
        (A.Databases.members databases.old) (A.Databases.next databases.old) marks.old.items)
        (moment w (executing handler.new) processing.new
        (A.Databases.members databases.new) (A.Databases.next databases.new) marks.new.items)
        went) }
    ensures fault { IfErr result (let w = ⟦<A as Worked>⟧.workings in
        FaultsRule w (S.stored store.now) (Rose (A.count handler.old.application)
        (A.count handler.new.application))
        (A.Databases.counted databases.old)
        (A.Databases.counted databases.new) (A.Databases.members databases.new)
        (moment w (executing handler.old) processing.old
        (A.Databases.members databases.old) (A.Databases.next databases.old) marks.old.items)) }
    ensures members { A.Databases.members databases.new ≡ A.Databases.members databases.old }
    ensures none_away { A.Databases.kind.NoneAway (A.Databases.members databases.old)
        → A.Databases.kind.NoneAway (A.Databases.members databases.new) }
    ensures later { (n : ℕ)
        → A.Databases.counted databases.old n ≤ A.Databases.counted databases.new n }
    ensures numbers { Rises handler.old.state handler.new.state }
    ensures application { A.count handler.old.application ≤ A.count handler.new.application }
    ensures notes { (IsErrOf result StepError.OutOfMemory → ⊥)
        → A.notes handler.new.application ≡ A.notes handler.old.application }
    ensures barrier { processing.old.next_barrier ≤ processing.new.next_barrier }
{
    let Some(message) = processing.queue.pop() else {
        return Ok(false);
    };
    if message.is_verification() {
        match message {
            Message::Request(request) => schedule(handler, databases, store, request, marks)?,
            Message::Finalized { block: _block, .. } => unreachable!(),
            Message::Subscribe { .. } => unreachable!(),
        }
    } else {
        processing.actions.push(Action::Message(message))?;
    }
    Ok(true)
}
