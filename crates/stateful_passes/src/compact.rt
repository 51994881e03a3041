//! Syncs of compact databases.

ghost use Rattle.std.specs.Prelude.{◌≡◌, ◌<◌, Some};
ghost use Rattle.stateful_db.specs.Targeted.{compact_target};
ghost use Rattle.stateful_db_pass.specs.Kept.{IsSingle};
ghost use Rattle.stateful_db_compact.specs.Ops.{is_commit};
ghost use Rattle.stateful_db_compact.specs.Compacted.{target_of};
ghost use Rattle.stateful_db_compact.specs.CompactStored.{next_of, calls_of, standing_of};
ghost use Rattle.stateful_db_compact.specs.CompactStored.{next_here, calls_here};
ghost use Rattle.stateful_passes.specs.CompactMade.{made_with};
ghost use Rattle.stateful_passes.specs.Synced.{synced};

use crate::asking::ask;
use crate::config::SyncEngineConfig;
use crate::sync_db::StateSyncDb;
use stateful_base::CompactTarget;
use stateful_db::{DbCall, Targeted};
use stateful_db_compact::{Commit, CompactDb, CompactMedium, CompactPass, CompactState, KeylessOp};
use stateful_db_log::Field;
use stateful_db_medium::Checkpoint;
use stateful_db_pass::{Fetches, LogPass, Segment, SyncFault};
use stateful_db_source::SyncSource;

impl<V: Field, R: SyncSource<Op = KeylessOp<V>>> StateSyncDb<R> for CompactDb<V> {
    ghost use Rattle.std.specs.Prelude.{◌≡◌, ◌<◌, true, Some, IfOk, IfErr, OnErr, refl};
    ghost use Rattle.stateful_db.specs.Targeted.{compact_target};
    ghost use Rattle.stateful_db_log.specs.Linking.{log_link};
    ghost use Rattle.stateful_db_pass.specs.declared.fault.SyncFault.{SyncFault};
    ghost use Rattle.stateful_db_pass.specs.declared.pass.Fetches.TheVariants.{Latest};
    ghost use Rattle.stateful_db_pass.specs.Fetched.{is_reached, Leads};
    ghost use Rattle.stateful_db_compact.specs.Ops.{op_bytes, is_commit};
    ghost use Rattle.stateful_db_compact.specs.Compacted.{target_of};
    ghost use Rattle.stateful_db_compact.specs.CompactStored.{next_of, calls_of};
    ghost use Rattle.stateful_db_compact.specs.CompactStored.{standing_of, next_here, calls_here};
    ghost use Rattle.stateful_passes.specs.Synced.{Makes};
    ghost use Rattle.stateful_passes.specs.CompactMade.{made};

    ghost linked = { log_link (op_bytes V.fields.spelling) };

    ghost alone = { is_commit };

    ghost medium_of = { λ p. p.medium };

    ghost fetched = { λ p. p.pass };

    ghost fetches = { λ _. Latest };

    ghost IsValid = { λ target. 0 < target.size.0 };

    ghost made = { made V.fields.spelling };

    fn start(
        medium: CompactMedium<V>,
        _config: &(),
        target: CompactTarget,
        _sync: SyncEngineConfig,
    ) -> Result<CompactPass<V>, (CompactMedium<V>, SyncFault)> {
        if target.size.0 == 0 {
            return Err((medium, SyncFault::InvalidTarget));
        }
        let alloc = medium.medium.allocator();
        Ok(CompactPass {
            medium,
            pass: LogPass::new(alloc, target.target(), Fetches::Latest),
        })
    }

    fn tip(pass: &mut CompactPass<V>, target: CompactTarget) -> bool {
        pass.pass.tip(target.target())
    }

    fn progress(
        pass: &mut CompactPass<V>,
        source: &mut R,
    ) -> Result<Option<CompactTarget>, SyncFault> {
        if pass.medium.medium.fails(DbCall::Sync) {
            return Err(SyncFault::Failed);
        }
        match ask(&mut pass.pass, source) {
            Ok(Some(target)) => Ok(Some(CompactTarget {
                root: target.root,
                size: target.end,
            })),
            Ok(None) => Ok(None),
            Err(why) => Err(why),
        }
    }

    /// Takes no memory, and is never refused.
    fn finish(pass: CompactPass<V>) -> Result<CompactDb<V>, (CompactMedium<V>, SyncFault)>
        requires { is_reached pass.pass ≡ true }
        ensures ok { IfOk result (λ db.
            let m = pass.medium in let s = made V.fields.spelling pass.pass in
            Makes s (compact_target (target_of s)) pass.pass.target (standing_of db) (next_of m)
            (next_here db) (calls_of m).faults (calls_here db).faults (Some (calls_of m))
            (Some (calls_here db))) }
        ensures leads { Leads (log_link (op_bytes V.fields.spelling)) pass.pass }
        ensures err { IfErr result (λ e.
            (e.0 ≡ pass.medium) × (e.1 ≡ SyncFault.OutOfMemory)) }
        ensures refused { OnErr result ⊥ }
    {
        prove!(pass.pass.is_reached());
        let CompactPass { medium, pass } = pass;
        let Ok(segment) = pass.finish() else {
            unreachable!();
        };
        Ok(alone(medium, segment))
    }

    fn abandon(pass: CompactPass<V>) -> CompactMedium<V> {
        pass.medium
    }

    ghost same_count = { λ p. refl };
}

/// The database of the commit that was fetched, in place of all that the medium keeps.
fn alone<V: Field>(medium: CompactMedium<V>, segment: Segment<KeylessOp<V>>) -> CompactDb<V>
    requires { IsSingle is_commit segment.target segment.ops.items }
    ensures standing { standing_of result ≡ synced (made_with V.fields.spelling segment.target
        (Some segment.before) segment.ops.items) }
    ensures target { compact_target (target_of (made_with V.fields.spelling segment.target
        (Some segment.before) segment.ops.items)) ≡ segment.target }
    ensures next { next_here result ≡ next_of medium }
    ensures calls { calls_here result ≡ calls_of medium }
{
    let checkpoint = checkpoint(segment);
    CompactDb {
        opened: medium.medium.replaced(checkpoint).open(0),
    }
}

/// The checkpoint behind the commit that was fetched.
fn checkpoint<V: Field>(segment: Segment<KeylessOp<V>>) -> CompactState<V>
    requires { IsSingle is_commit segment.target segment.ops.items }
    ensures made { result
        ≡ made_with V.fields.spelling segment.target (Some segment.before) segment.ops.items }
    ensures target { compact_target (target_of result) ≡ segment.target }
    ensures end { 0 < result.target.end.0 }
{
    let Segment {
        target,
        before,
        mut ops,
    } = segment;
    match ops.pop() {
        Some(KeylessOp::Commit { metadata, floor }) => Checkpoint {
            target,
            kept: Commit {
                before,
                metadata,
                floor,
            },
        },
        _ => unreachable!(),
    }
}
