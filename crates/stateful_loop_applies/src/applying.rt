//! A finalized block is applied, and its finalization ends.
//!
//! The batch of the block is applied to the databases, and only then is it marked as applied. At
//! the end the receipt is held until the height is durable: nothing is acknowledged here.
//!
//! `specs/Rules.antt` of `stateful_loop_model` has the rules (`AppliesBlock`, `EndsFinalization`);
//! docs/RULES.md says them in words, "A finalization".

ghost use Rattle.std.specs.Prelude.{◌≡◌, ◌<◌, ◌≤◌, ◌⊎◌, ℕ};
ghost use Rattle.std.specs.Prelude.{Some, None, OnOk, OnErr, IfErr, All};
ghost use Rattle.std.specs.Prelude.{IsErrOf};
ghost use Rattle.stateful_base.specs.Causes.{Rose};
ghost use Rattle.stateful_exec_model.specs.Finalizing.{FaultsMove};
ghost use Rattle.stateful_exec_model.specs.Pausing.{FaultsResume};
ghost use Rattle.stateful_exec_tables.specs.Tables.{Rises};
ghost use Rattle.stateful_exec_model.specs.declared.front.Stage.TheVariants as stage;
ghost use Rattle.stateful_loop_model.specs.Causes.{Via, FaultsApply};
ghost use Rattle.stateful_loop_model.specs.Left.{KeepsStates, LeavesApply};
ghost use Rattle.stateful_exec_model.specs.Moments as exec;
ghost use Rattle.stateful_loop_model.specs.Moments.{executing, moment};
ghost use Rattle.stateful_loop_model.specs.Rules.{AppliesBlock};
ghost use Rattle.stateful_loop_model.specs.Rules.{EndsFinalization};

use stateful_base::{BlockStore, Digested, Share};
use stateful_db::{Application, DatabaseSet};
use stateful_exec::{Handler, Worked};
use stateful_history::Mark;
use stateful_loop_model::{Finalizing, ProcessingOf, StepError};

/// The anchor moves to the finalized block, whose batch is applied.
pub fn apply<A: Application + Drop>(
    handler: &mut Handler<A>,
    processing: &mut ProcessingOf<A>,
    databases: &mut A::Databases,
    front: Finalizing<A::Block, A::Captured>,
    marks: &mut Vec<Mark<A::Block>>,
) -> Result<(), StepError>
    requires next { processing.old.durability.applied < A.Block.header.height front.block.block }
    ensures ok { OnOk result (let w = ⟦<A as Worked>⟧.workings in
        AppliesBlock w front
        (moment w (executing handler.old) processing.old
        (A.Databases.members databases.old) (A.Databases.next databases.old) marks.old.items)
        (moment w (executing handler.new) processing.new
        (A.Databases.members databases.new) (A.Databases.next databases.new) marks.new.items)) }
    ensures fault { IfErr result (λ e. (e ≡ StepError.OutOfMemory)
        ⊎ (Via (FaultsMove ⟦<A as Worked>⟧.workings (Rose (A.count handler.old.application)
        (A.count handler.new.application)) front.block
        handler.old.state.cache handler.old.front) e
        ⊎ FaultsApply A.Databases.kind (A.Databases.counted databases.old)
        (A.Databases.counted databases.new) (A.Databases.members databases.new)
        (A.Databases.members databases.old) e)) }
    ensures left { OnErr result (let w = ⟦<A as Worked>⟧.workings in
        KeepsStates w (A.Databases.members databases.old) (A.Databases.members databases.new)
        ⊎ LeavesApply w front.block (executing handler.old)
        (A.Databases.members databases.old) (A.Databases.members databases.new)) }
    ensures none_away { A.Databases.kind.NoneAway (A.Databases.members databases.old)
        → A.Databases.kind.NoneAway (A.Databases.members databases.new) }
    ensures later { (n : ℕ)
        → A.Databases.counted databases.old n ≤ A.Databases.counted databases.new n }
    ensures numbers { Rises handler.old.state handler.new.state }
    ensures application { A.count handler.old.application ≤ A.count handler.new.application }
    ensures notes { (IsErrOf result StepError.OutOfMemory → ⊥)
        → A.notes handler.new.application ≡ A.notes handler.old.application }
    ensures barrier { processing.old.next_barrier ≤ processing.new.next_barrier }
{
    let Finalizing {
        ticket,
        block,
        captured: _,
    } = front;
    let (batch, captured) = handler.advance(databases, &block)?;
    databases.apply(batch)?;
    processing.durability.applied(block.height());
    marks.push(Mark::Applied {
        block: block.share()?,
    })?;
    processing.front = Some(Finalizing {
        ticket,
        block,
        captured: Some(captured),
    });
    Ok(())
}

/// The finalization ends: its receipt is held, and what was paused goes on.
pub fn end_finalization<A: Application + Drop, S: BlockStore<A::Block>>(
    handler: &mut Handler<A>,
    processing: &mut ProcessingOf<A>,
    databases: &mut A::Databases,
    store: &S,
    ticket: u64,
    block: Digested<A::Block>,
    marks: &mut Vec<Mark<A::Block>>,
) -> Result<(), StepError>
    requires last { A.Block.header.height block.block ≡ processing.old.durability.applied }
    requires first { All (λ receipt. receipt.0 < processing.old.durability.applied)
        processing.old.durability.held }
    requires none { processing.old.front ≡ None }
    ensures ok { OnOk result (let w = ⟦<A as Worked>⟧.workings in
        EndsFinalization w (S.stored store.now) (record {
          ticket = ticket;
          block = block;
          captured = None;
        })
        (moment w (executing handler.old) processing.old
        (A.Databases.members databases.old) (A.Databases.next databases.old) marks.old.items)
        (moment w (executing handler.new) processing.new
        (A.Databases.members databases.new) (A.Databases.next databases.new) marks.new.items)) }
    ensures fault { IfErr result (λ e. (e ≡ StepError.OutOfMemory) ⊎ (let w = ⟦<A as Worked>⟧.workings in
        Via (FaultsResume w (Rose (A.count handler.old.application)
        (A.count handler.new.application)) (S.stored store.now)
        (exec.moment w handler.old.state (A.Databases.members databases.old)
        (A.Databases.next databases.old) marks.old.items)) e)) }
    ensures members { A.Databases.members databases.new ≡ A.Databases.members databases.old }
    ensures none_away { A.Databases.kind.NoneAway (A.Databases.members databases.old)
        → A.Databases.kind.NoneAway (A.Databases.members databases.new) }
    ensures later { (n : ℕ)
        → A.Databases.counted databases.old n ≤ A.Databases.counted databases.new n }
    ensures numbers { Rises handler.old.state handler.new.state }
    ensures application { A.count handler.old.application ≤ A.count handler.new.application }
    ensures notes { (IsErrOf result StepError.OutOfMemory → ⊥)
        → A.notes handler.new.application ≡ A.notes handler.old.application }
    ensures barrier { processing.old.next_barrier ≤ processing.new.next_barrier }
{
    handler.drop_root();
    processing.durability.record(block.height(), ticket)?;
    handler.resume(databases, store, marks)?;
    Ok(())
}
