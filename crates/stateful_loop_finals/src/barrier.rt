//! How barriers begin, are flushed and complete.
//!
//! 1. `begin_barrier`: each database starts persisting all that is applied, and gives a token. The
//!    barrier has the next number and the height that was applied last. The mark `BarrierBegun`
//!    asks for a flush of each database.
//! 2. `flushed`, one event for each database: a good answer makes durable what the token covers,
//!    and the barrier notes it. There is no time limit.
//! 3. `complete_barrier`, once all answers of the oldest barrier are good: its height is durable,
//!    and the receipts up to it are acknowledged (`release`).
//!
//! A second barrier may begin meanwhile, over what was applied since. Open barriers stand in
//! `barriers` with their tokens, and in `durability` with their heights.
//!
//! `specs/Rules.antt` and `specs/Intake.antt` of `stateful_loop_model` have the rules;
//! docs/RULES.md says them in words, "Barriers and receipts".

ghost use Rattle.std.specs.Prelude.{◌≡◌, ◌≢◌, ◌<◌, ◌≤◌, ◌++◌, [], ℕ, Some, OnOk, OnErr};
ghost use Rattle.std.specs.Prelude.{IfErr, IsSome, Contains, length, option_and_then, slice_get};
ghost use Rattle.std.specs.Prelude.{map};
ghost use Rattle.std.specs.Option.{ForSome};
ghost use Rattle.stateful_db.specs.Barrier.{open_at};
ghost use Rattle.stateful_durability.specs.Durability.{receipts_above, covered_receipts};
ghost use Rattle.stateful_loop_model.specs.Barriers.{awaiting};
ghost use Rattle.stateful_loop_model.specs.declared.barriers.Active.{Active as Opened};
ghost use Rattle.stateful_loop_model.specs.Causes.{FaultsBarrier, FaultsFlush};
ghost use Rattle.stateful_loop_model.specs.Intake.{Flushes};
ghost use Rattle.stateful_loop_model.specs.Left.{KeepsStates};
ghost use Rattle.stateful_loop_model.specs.Moments.{Executing, moment};
ghost use Rattle.stateful_loop_model.specs.Rules.{Needed, BeginsBarrier, CompletesBarrier};
ghost use Rattle.stateful_loop_model.specs.Rules.{acknowledged};

use stateful_base::Height;
use stateful_db::{Application, DatabaseSet, Flushed};
use stateful_exec::Worked;
use stateful_history::Mark;
use stateful_loop_model::{Active, ProcessingOf, StepError};

/// A barrier over all that is applied begins, under the next number, with the tokens of all
/// databases. `Exhausted` exactly where the number is the last one.
pub fn begin_barrier<A: Application>(
    processing: &mut ProcessingOf<A>,
    databases: &mut A::Databases,
    marks: &mut Vec<Mark<A::Block>>,
) -> Result<(), StepError>
    requires needed { Needed processing.old.durability }
    requires open { length processing.old.barriers < 2 }
    requires room { A.Databases.kind.HasRoom (A.Databases.members databases.old) }
    ensures ok { OnOk result (let w = ⟦<A as Worked>⟧.workings in
        (e : Executing A.Block A.Context A.Input A.Run A.Build A.Hook A.Databases.Merkleized)
        → BeginsBarrier w
        (moment w e processing.old (A.Databases.members databases.old)
        (A.Databases.next databases.old) marks.old.items)
        (moment w e processing.new (A.Databases.members databases.new)
        (A.Databases.next databases.new) marks.new.items)) }
    ensures fault { IfErr result (FaultsBarrier A.Databases.kind
        (A.Databases.counted databases.old) (A.Databases.counted databases.new)
        (A.Databases.members databases.new) processing.old.next_barrier) }
    ensures left { OnErr result (KeepsStates ⟦<A as Worked>⟧.workings
        (A.Databases.members databases.old) (A.Databases.members databases.new)) }
    ensures none_away { A.Databases.kind.NoneAway (A.Databases.members databases.old)
        → A.Databases.kind.NoneAway (A.Databases.members databases.new) }
    ensures later { (n : ℕ)
        → A.Databases.counted databases.old n ≤ A.Databases.counted databases.new n }
    ensures barrier { processing.old.next_barrier ≤ processing.new.next_barrier }
{
    let number = processing.next_barrier;
    if number == u64::MAX {
        return Err(StepError::Exhausted);
    }
    let height = processing.durability.applied_height();
    let barrier = databases.finalize(processing.alloc)?;
    processing.durability.set_barrier(height);
    processing.barriers.push(Active {
        number,
        height,
        barrier,
    });
    processing.next_barrier = number + 1;
    marks.push(Mark::BarrierBegun {
        barrier: number,
        height,
    })?;
    Ok(())
}

/// A database has answered to an open barrier. A good flush makes durable what its token covers.
pub fn flushed<A: Application>(
    processing: &mut ProcessingOf<A>,
    databases: &mut A::Databases,
    number: u64,
    index: usize,
    answer: Flushed,
    marks: &Vec<Mark<A::Block>>,
) -> Result<(), StepError>
    requires within { IsSome (awaiting number index processing.old.barriers)
        → index < A.Databases.kind.count }
    requires out { ForSome (option_and_then (λ active. open_at active.barrier index)
        (awaiting number index processing.old.barriers))
        (λ token. Contains (A.Databases.kind.tokens (A.Databases.members databases.old) index)
        token.place) }
    ensures ok { OnOk result (let w = ⟦<A as Worked>⟧.workings in
        (e : Executing A.Block A.Context A.Input A.Run A.Build A.Hook A.Databases.Merkleized)
        → Flushes w number index answer
        (moment w e processing.old (A.Databases.members databases.old)
        (A.Databases.next databases.old) marks.now.items)
        (moment w e processing.new (A.Databases.members databases.new)
        (A.Databases.next databases.new) marks.now.items)) }
    ensures fault { IfErr result (FaultsFlush A.Databases.kind
        (A.Databases.counted databases.old) (A.Databases.counted databases.new)
        (A.Databases.members databases.new) processing.old.barriers number index) }
    ensures barrier { processing.new.next_barrier ≡ processing.old.next_barrier }
    ensures left { OnErr result (KeepsStates ⟦<A as Worked>⟧.workings
        (A.Databases.members databases.old) (A.Databases.members databases.new)) }
    ensures none_away { A.Databases.kind.NoneAway (A.Databases.members databases.old)
        → A.Databases.kind.NoneAway (A.Databases.members databases.new) }
    ensures later { (n : ℕ)
        → A.Databases.counted databases.old n ≤ A.Databases.counted databases.new n }
{
    let Some(token) = processing.barriers.token(number, index) else {
        return Err(StepError::Failed);
    };
    if answer == Flushed::Good {
        databases.flush(index, token)?;
    }
    processing.barriers.answer(number, index, answer);
    Ok(())
}

/// Acknowledges the receipts of durable heights, in their order.
fn release<A: Application>(
    processing: &mut ProcessingOf<A>,
    marks: &mut Vec<Mark<A::Block>>,
) -> Result<(), StepError>
    ensures ok { OnOk result (let d = processing.old.durability in
        (processing.new ≡ record processing.old {
          durability = record d { held = receipts_above d.durable d.held };
        })
        × (marks.new.items ≡ marks.old.items ++ map acknowledged (covered_receipts d))) }
    ensures memory { IfErr result (λ e. e ≡ StepError.OutOfMemory) }
    ensures barrier { processing.new.next_barrier ≡ processing.old.next_barrier }
{
    while let Some((ticket, height)) = processing.durability.released() {
        marks.push(Mark::Acknowledged { ticket, height })?;
    }
    Ok(())
}

/// The oldest barrier, which was flushed, is done: its height is durable, and the receipts of
/// durable heights are acknowledged.
pub fn complete_barrier<A: Application>(
    processing: &mut ProcessingOf<A>,
    number: u64,
    height: Height,
    marks: &mut Vec<Mark<A::Block>>,
) -> Result<(), StepError>
    requires open { processing.old.durability.barriers ≢ [] }
    requires oldest { slice_get processing.old.durability.barriers 0 ≡ Some height.0 }
    ensures ok { OnOk result (let w = ⟦<A as Worked>⟧.workings in
        (e : Executing A.Block A.Context A.Input A.Run A.Build A.Hook A.Databases.Merkleized)
        (active : Opened) (m : A.Databases.kind.Members) (n : A.Databases.Ids)
        → active.number ≡ number
        → active.height ≡ height
        → CompletesBarrier w active
        (moment w e processing.old m n marks.old.items)
        (moment w e processing.new m n marks.new.items)) }
    ensures memory { IfErr result (λ e. e ≡ StepError.OutOfMemory) }
    ensures barrier { processing.new.next_barrier ≡ processing.old.next_barrier }
{
    processing.barriers.pop();
    processing.durability.complete(Some(height));
    marks.push(Mark::BarrierDone {
        barrier: number,
        height,
        good: true,
    })?;
    release::<A>(processing, marks)
}
