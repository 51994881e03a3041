//! How the databases are opened after a crash.
//!
//! A restart opens as if the process had crashed, also where it hadn't. First each database loses
//! what a crash would lose. Then the store's block of the height that was processed last is looked
//! up. Each database is opened at that block's targets, and drops what lies beyond. Only then is
//! anything else changed: the block is the anchor, its height is applied and durable, and the
//! machine is up.
//!
//! Where a step is refused the machine stays down, and the databases stay as that step has left
//! them: closed, lost, or opened and closed again. A further restart may open them.
//!
//! `Opens` of `specs/Opening.antt` of `stateful_loop_model` has the steps, and docs/RULES.md says
//! them in words, "Stops and restarts".

ghost use Rattle.std.specs.Prelude.{◌≡◌, ◌≤◌, ℕ, OnOk, OnErr, IfErr, None};
ghost use Rattle.stateful_exec_tables.specs.Tables.{Rises};
ghost use Rattle.stateful_history.specs.Restarts.{reopened_height};
ghost use Rattle.stateful_loop_model.specs.Left.{LeavesOpening};
ghost use Rattle.stateful_loop_model.specs.Moments.{executing, moment};
ghost use Rattle.stateful_loop_model.specs.Opening.{Opens, FaultsOpening};

use stateful_base::{Anchor, BlockStore, Floor, Height};
use stateful_db::{Application, DatabaseSet};
use stateful_durability::Durability;
use stateful_exec::{Handler, Worked};
use stateful_history::Mark;
use stateful_loop_model::{ProcessingOf, StepError};

/// The height at which the databases open: the last one that was processed, or 0.
fn start_of(floor: &Floor) -> Height
    ensures { result.0 ≡ reopened_height floor.now }
{
    match floor.processed {
        Some(height) => height,
        None => Height(0),
    }
}

/// Opens the databases, on what a crash has left of them, at the store's block of the height that
/// was processed last.
pub fn open<A: Application + Drop, S: BlockStore<A::Block>>(
    config: &<A::Databases as DatabaseSet>::Config,
    handler: &mut Handler<A>,
    processing: &mut ProcessingOf<A>,
    databases: &mut A::Databases,
    store: &S,
    floor: &Floor,
    keep: &[usize],
    marks: &mut Vec<Mark<A::Block>>,
) -> Result<(), StepError>
    requires none_away { A.Databases.kind.NoneAway (A.Databases.members databases.old) }
    ensures ok { OnOk result (let w = ⟦<A as Worked>⟧.workings in
        Opens w (S.stored store.now) floor.now keep.now
        (moment w (executing handler.old) processing.old (A.Databases.members databases.old)
        (A.Databases.next databases.old) marks.old.items)
        (moment w (executing handler.new) processing.new (A.Databases.members databases.new)
        (A.Databases.next databases.new) marks.new.items)) }
    ensures fault { IfErr result (FaultsOpening ⟦<A as Worked>⟧.workings (S.stored store.now)
        floor.now keep.now (A.Databases.counted databases.old)
        (A.Databases.counted databases.new) (A.Databases.members databases.old)
        (A.Databases.members databases.new)) }
    ensures left { OnErr result (LeavesOpening ⟦<A as Worked>⟧.workings (S.stored store.now)
        floor.now keep.now (A.Databases.members databases.old)
        (A.Databases.members databases.new)) }
    ensures none_away { A.Databases.kind.NoneAway (A.Databases.members databases.new) }
    ensures later { (n : ℕ)
        → A.Databases.counted databases.old n ≤ A.Databases.counted databases.new n }
    ensures numbers { Rises handler.old.state handler.new.state }
    ensures application { handler.new.application ≡ handler.old.application }
    ensures barrier { processing.new.next_barrier ≡ processing.old.next_barrier }
{
    *databases = databases.take().crash(keep);
    let height = start_of(floor);
    let Some(block) = store.at(height)? else {
        return Err(StepError::MissingBlock { height });
    };
    let targets = A::sync_targets(block.inner());
    databases.init(config, Some(targets))?;
    let anchor = Anchor::from_block(&block);
    marks.push(Mark::Opened { anchor })?;
    let (job, fetch) = handler.numbers();
    handler.reopen(anchor, job, fetch);
    processing.durability = Durability::new(processing.alloc, anchor.height);
    processing.up = true;
    Ok(())
}
