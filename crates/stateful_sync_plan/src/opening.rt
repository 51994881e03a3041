//! How databases are opened that no sync is to fill.
//!
//! First the block is found and compared with the recorded completion. Up to there no database is
//! called. Then the databases are opened in their order at the block's targets, and where one
//! doesn't open, those before it are closed again.
//!
//! After a success the caller records the completion with the anchor's height and digest
//! (`set_completed`). After a refusal it may call again: a database that isn't open is closed or
//! lost, and opening takes both. `Opens` of `specs/Opening.antt` has the rules, and docs/RULES.md
//! says them in words, "The plan of a sync".

ghost use Rattle.std.specs.Prelude.{◌≡◌, ◌<◌, ◌≤◌, ◌^◌, ℕ, Some, IsErrOf, OnOk, OnErr};
ghost use Rattle.stateful_base.specs.Names.{Named};
ghost use Rattle.stateful_base.specs.declared.digest.Digest.{Digest};
ghost use Rattle.stateful_base.specs.declared.number.Height.{Height};
ghost use Rattle.stateful_db.specs.Databases.{IsOpening};
ghost use Rattle.stateful_db.specs.declared.database.InitError.{InitError};
ghost use Rattle.stateful_sync_plan.specs.Errors.{of_opening};
ghost use Rattle.stateful_sync_plan.specs.declared.error.Missing.{Missing};
ghost use Rattle.stateful_sync_plan.specs.Opening.{opening_height, IsChecked, IsRefused, Opens};

use crate::choice::block_at;
use crate::error::SyncError;
use stateful_db::{Application, DatabaseSet};
use stateful_types::{Anchor, BlockStore, Digest, Height};

/// Opens each database at the targets of the block store's block of the later of two heights:
/// `processed`, which the store reports, and that of `completed`, the recorded completion with the
/// digest that was recorded. Without either it is height 0. The order of refusals is: the block is
/// missing, it isn't the recorded one, a database didn't open, a database opened at another target.
/// The completion with the anchor's height and digest is to be recorded then.
pub fn open_set<A: Application, T: BlockStore<A::Block>>(
    databases: &mut A::Databases,
    config: &<A::Databases as DatabaseSet>::Config,
    store: &T,
    processed: Option<Height>,
    completed: Option<(Height, Option<Digest>)>,
) -> Result<Anchor, SyncError>
    ensures opens { Opens A.Databases.kind A.Block.header A.works.meaning.targets
        (T.stored store.now) (opening_height processed completed) completed
        (A.Databases.counted databases.old) (A.Databases.counted databases.new)
        (A.Databases.members databases.old) (A.Databases.members databases.new) result }
    ensures opening { OnOk result (A.Databases.kind.Openable (A.Databases.members databases.old)
        → (block : Named A.Block)
        → T.stored store.now (opening_height processed completed) ≡ Some block
        → IsOpening A.Databases.kind (A.Databases.next databases.new)
        (A.Databases.members databases.new) (A.works.meaning.targets block.block)) }

    // No database was called where the block is missing, or another block was recorded.
    ensures missing { (which : Missing)
        → IsErrOf result (SyncError.MissingBlock which)
        → databases.new ≡ databases.old }
    ensures conflict { (height : Height) (recorded given : Digest)
        → IsErrOf result (SyncError.CompletedConflict height recorded given)
        → databases.new ≡ databases.old }

    // A database that didn't open has a cause, and where there is one but for its count no opening
    // comes to its end.
    ensures cause { (block : Named A.Block) (index : ℕ) (why : InitError)
        → T.stored store.now (opening_height processed completed) ≡ Some block
        → IsErrOf result (of_opening index why)
        → A.Databases.kind.count < 2 ^ 64
        → IsRefused A.Databases.kind (Some (A.works.meaning.targets block.block))
        (A.Databases.counted databases.old index) (A.Databases.counted databases.new index)
        (A.Databases.members databases.old) index why }
    ensures refused { (block : Named A.Block) (index : ℕ) (why : InitError)
        → T.stored store.now (opening_height processed completed) ≡ Some block
        → index < A.Databases.kind.count
        → A.Databases.kind.Refuses (A.Databases.members databases.old)
        (Some (A.works.meaning.targets block.block)) index why
        → OnOk result ⊥ }

    ensures closed { OnErr result (A.Databases.kind.Openable (A.Databases.members databases.old)
        → A.Databases.kind.Openable (A.Databases.members databases.new)) }
    ensures next { A.Databases.next databases.new ≡ A.Databases.next databases.old }
    ensures later { (n : ℕ)
        → A.Databases.counted databases.old n ≤ A.Databases.counted databases.new n }
{
    let height = height_of(processed, completed);
    let block = block_at(store, height)?;
    check_digest(height, completed, block.digest())?;
    let targets = A::sync_targets(block.inner());
    databases.init(config, Some(targets))?;
    Ok(Anchor::from_block(&block))
}

/// The height at which databases are opened.
fn height_of(processed: Option<Height>, completed: Option<(Height, Option<Digest>)>) -> Height
    ensures { result.0 ≡ opening_height processed completed }
{
    let processed = processed.unwrap_or(Height(0));
    match completed {
        Some((height, _)) => Height(height.0.max(processed.0)),
        None => processed,
    }
}

/// Whether the block of this digest may be opened at this height.
fn check_digest(
    height: Height,
    completed: Option<(Height, Option<Digest>)>,
    digest: Digest,
) -> Result<(), SyncError>
    ensures { IsChecked completed height.0 digest result }
{
    let Some((at, recorded)) = completed else {
        return Ok(());
    };
    let Some(recorded) = recorded else {
        return Ok(());
    };
    if at.0 == height.0 && !recorded.is(digest) {
        return Err(SyncError::CompletedConflict {
            height,
            recorded,
            given: digest,
        });
    }
    Ok(())
}
