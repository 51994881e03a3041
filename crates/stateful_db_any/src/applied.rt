//! A batch that is applied to a database of keys.

ghost use Rattle.std.specs.Prelude.{◌≡◌, ◌+◌, ◌^◌, ◌<◌, ◌++◌, IsTrue, IfOk, IfErr, length};
ghost use Rattle.stateful_db.specs.Disk.{applied};
ghost use Rattle.stateful_db_log.specs.Held.{further};
ghost use Rattle.stateful_db_log.specs.Logs.{extended};
ghost use Rattle.stateful_db_any.specs.Any.{IsWhole, size_of};
ghost use Rattle.stateful_db_any.specs.Live.{passed};
ghost use Rattle.stateful_db_any.specs.Stored.{disk_of, next_of, calls_of, standing_of, next_here};
ghost use Rattle.stateful_db_any.specs.Stored.{calls_here, held_of, held_here};

use crate::changes::AnyChanges;
use crate::database::AnyDb;
use crate::index::note_each;
use crate::medium::AnyMedium;
use crate::op::AnyOp;
use crate::seal::first_kept;
use stateful_base::{OutOfMemory, Share};
use stateful_db_log::{Field, lengthened};
use stateful_db_overlay::Layer;
use std::alloc::Global;

/// Whether the operations of a batch begin where those of the database end, and its range where it
/// has to.
fn follows<K: Field, V: Field>(db: &AnyDb<K, V>, changes: &AnyChanges<K, V>) -> bool
    ensures from { IsTrue result
        → changes.now.written.from ≡ size_of (standing_of db.now).disk.newest }
    ensures whole { IsTrue result → IsWhole (standing_of db.now).disk.newest }
    ensures room { IsTrue result
        → changes.now.written.from + length changes.now.written.ops < 2 ^ 64 }
    ensures start { let s = (standing_of db.now).disk.newest in IsTrue result
        → changes.now.target.start.0
        ≡ s.target.start.0 + passed K.cmp (s.kept ++ changes.now.written.ops) }
{
    let range = db.log.target();
    let written = &changes.written;
    if !db.is_whole() || written.from() != range.end.0 {
        return false;
    }
    if range
        .end
        .0
        .checked_add(written.ops().len() as u64)
        .is_none()
    {
        return false;
    }
    let none = Vec::new(db.log.allocator());
    changes.target.start.0 == first_kept(written, none.as_slice(), db, range.start.0)
}

/// Copies of operations.
fn copies<K: Field, V: Field>(
    alloc: Global,
    ops: &[AnyOp<K, V>],
) -> Result<Vec<AnyOp<K, V>>, OutOfMemory>
    ensures { IfOk result (λ same. same.items ≡ ops.now) }
{
    let mut same = Vec::new(alloc);
    for op in ops {
        same.push(op.share()?)?;
    }
    Ok(same)
}

/// The operations of a sealed batch: its own, or copies where other chains share them.
fn ops_of<K: Field, V: Field>(
    alloc: Global,
    layer: Layer<AnyChanges<K, V>>,
) -> Result<Vec<AnyOp<K, V>>, OutOfMemory>
    ensures { IfOk result (λ ops. ops.items ≡ layer.1.written.ops) }
{
    match layer.into_changes() {
        Ok(changes) => Ok(changes.written.into_ops()),
        Err(layer) => copies(alloc, layer.changes().written.ops()),
    }
}

/// The database with the operations of the batch behind it. It is closed where memory is wanting,
/// or the batch isn't one on it.
pub(crate) fn longer<K: Field, V: Field>(
    db: AnyDb<K, V>,
    layer: Layer<AnyChanges<K, V>>,
) -> Result<AnyDb<K, V>, AnyMedium<K, V>>
    ensures ok { let s = standing_of db in IfOk result (λ d. standing_of d ≡ record s {
      id = layer.0;
      disk = applied s.disk (extended s.disk.newest layer.1.written.ops layer.1.target);
    }) }
    ensures ok_next { IfOk result (λ d. next_here d ≡ next_here db) }
    ensures ok_calls { IfOk result (λ d. calls_here d ≡ calls_here db) }
    ensures ok_held { IfOk result (λ d.
        held_here d ≡ further (held_here db) layer.1.written.ops) }
    ensures err { IfErr result (λ m. disk_of m ≡ (standing_of db).disk) }
    ensures err_next { IfErr result (λ m. next_of m ≡ next_here db) }
    ensures err_calls { IfErr result (λ m. calls_of m ≡ calls_here db) }
    ensures err_held { IfErr result (λ m. held_of m ≡ held_here db) }
{
    let id = layer.id();
    let own = layer.changes();
    let follows = follows(&db, own);
    let AnyDb { log, mut index } = db;
    if !follows {
        return Err(AnyMedium {
            medium: log.close(),
        });
    }
    if note_each(&mut index, own.written.ops(), own.written.from()).is_err() {
        return Err(AnyMedium {
            medium: log.close(),
        });
    }
    let target = own.target;
    match ops_of(log.allocator(), layer) {
        Ok(ops) => match lengthened(log, id, ops, target) {
            Ok(log) => Ok(AnyDb { log, index }),
            Err(medium) => Err(AnyMedium { medium }),
        },
        Err(_) => Err(AnyMedium {
            medium: log.close(),
        }),
    }
}
