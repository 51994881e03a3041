//! A batch that is applied to a log.

ghost use Rattle.std.specs.Prelude.{◌≡◌, ◌≤◌, ◌↔◌, IfOk, IfErr, IsErrAnd};
ghost use Rattle.stateful_base.specs.Causes.{Rose};
ghost use Rattle.stateful_db.specs.Disk.{applied};
ghost use Rattle.stateful_db.specs.Calls.{IsListed, Called};
ghost use Rattle.stateful_db_log.specs.Logs.{extended, disk_of, next_of, calls_of, standing_of};
ghost use Rattle.stateful_db_log.specs.Logs.{next_here, calls_here, held_of, held_here};
ghost use Rattle.stateful_db_log.specs.Held.{further};
ghost use Rattle.stateful_db_keyless.specs.KeylessStored.{sealed_ops};

use super::batch::{KeylessChanges, KeylessMerkleized};
use stateful_base::{OutOfMemory, Share};
use stateful_db::{Broken, DbCall, Why};
use stateful_db_compact::KeylessOp;
use stateful_db_log::{Field, LogMedium, OpenLog};
use stateful_db_overlay::Layer;

/// The log with the operations of the batch behind it. They are copied only where other batches
/// share them.
pub(crate) fn apply_to<V: Field>(
    log: OpenLog<KeylessOp<V>>,
    batch: KeylessMerkleized<V>,
) -> Result<OpenLog<KeylessOp<V>>, Broken<LogMedium<KeylessOp<V>>>>
    ensures ok { let s = standing_of log in IfOk result (λ o. standing_of o ≡ record s {
      id = batch.layer.0;
      disk = applied s.disk (extended s.disk.newest batch.layer.1.ops.items batch.layer.1.target);
    }) }
    ensures ok_next { IfOk result (λ o. next_here o ≡ next_here log) }
    ensures ok_count { IfOk result (λ o. (calls_here log).faults ≤ (calls_here o).faults) }
    ensures ok_called { IfOk result (λ o. Called DbCall.Apply (calls_here log) (calls_here o)) }
    ensures ok_held { IfOk result (λ o. held_here o ≡ further (held_here log) (sealed_ops batch)) }
    ensures err { IfErr result (λ b. disk_of b.medium ≡ (standing_of log).disk) }
    ensures err_next { IfErr result (λ b. next_of b.medium ≡ next_here log) }
    ensures err_count { IfErr result (λ b. (calls_here log).faults ≤ (calls_of b.medium).faults) }
    ensures err_called { IfErr result (λ b. Called DbCall.Apply (calls_here log) (calls_of b.medium)) }
    ensures err_held { IfErr result (λ b. held_of b.medium ≡ held_here log) }
    ensures failed { IfErr result (λ b.
        b.why ≡ Why.Failed → Rose (calls_here log).faults (calls_of b.medium).faults) }
    ensures listed { IsErrAnd result (λ b. b.why ≡ Why.Failed)
        ↔ IsListed (calls_here log) DbCall.Apply }
{
    let KeylessMerkleized { layer, .. } = batch;
    let id = layer.id();
    match changes_of(layer) {
        Ok(changes) => log.apply(id, changes.ops, changes.target),
        Err(OutOfMemory) => Err(refused(log)),
    }
}

/// The changes of a layer: its own, or copies where other chains share them.
fn changes_of<V: Field>(layer: Layer<KeylessChanges<V>>) -> Result<KeylessChanges<V>, OutOfMemory>
    ensures ops { IfOk result (λ changes. changes.ops.items ≡ layer.1.ops.items) }
    ensures target { IfOk result (λ changes. changes.target ≡ layer.1.target) }
{
    match layer.into_changes() {
        Ok(changes) => Ok(changes),
        Err(layer) => copied(layer.changes()),
    }
}

/// Equal changes.
fn copied<V: Field>(changes: &KeylessChanges<V>) -> Result<KeylessChanges<V>, OutOfMemory>
    ensures ops { IfOk result (λ copy. copy.ops.items ≡ changes.now.ops.items) }
    ensures target { IfOk result (λ copy. copy.target ≡ changes.now.target) }
{
    let mut ops = Vec::new(*changes.ops.allocator());
    for op in &changes.ops {
        ops.push(op.share()?)?;
    }
    Ok(KeylessChanges {
        from: changes.from,
        ops,
        target: changes.target,
    })
}

/// A call of the kind `Apply` for which memory is wanting.
fn refused<V: Field>(log: OpenLog<KeylessOp<V>>) -> Broken<LogMedium<KeylessOp<V>>>
    ensures disk { disk_of result.medium ≡ (standing_of log).disk }
    ensures next { next_of result.medium ≡ next_here log }
    ensures count { (calls_here log).faults ≤ (calls_of result.medium).faults }
    ensures called { Called DbCall.Apply (calls_here log) (calls_of result.medium) }
    ensures held { held_of result.medium ≡ held_here log }
    ensures failed { result.why ≡ Why.Failed
        → Rose (calls_here log).faults (calls_of result.medium).faults }
    ensures listed { (result.why ≡ Why.Failed) ↔ IsListed (calls_here log) DbCall.Apply }
{
    match log.begin(DbCall::Apply) {
        Ok(log) => Broken {
            medium: log.close(),
            why: Why::OutOfMemory,
        },
        Err(broken) => broken,
    }
}
