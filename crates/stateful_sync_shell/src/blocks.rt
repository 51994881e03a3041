//! Databases to which blocks of writes are applied.

ghost use Rattle.std.specs.Prelude.{◌≡◌};

use crate::synced::Written;
use anyhow::Error;
use stateful_db::{DatabaseSet, Held};
use stateful_shell::Page;

/// The database of a medium, at this target or at the latest.
pub(crate) fn open<D: Written>(
    medium: D::Medium,
    expected: Option<D::SyncTarget>,
) -> Result<D, Error> {
    match D::init(medium, &D::config(), expected) {
        Ok(db) => Ok(db),
        Err((medium, why)) => {
            drop(medium);
            Err(Error::from(why))
        }
    }
}

/// The database of a set of one.
fn here<D: Written>(set: Held<D>) -> Result<D, Error> {
    match set {
        Held::Here(db) => Ok(db),
        _ => Err(Error::msg("it is lost")),
    }
}

/// The database with a block on its state, durably: it is closed and opened again.
fn write<D: Written>(db: D, block: &str) -> Result<D, Error> {
    let mut set = Held::Here(db);
    let mut batch = set.new_batches()?;
    for part in block.split(',') {
        batch = D::put(batch, part)?;
    }
    let sealed = set.seal(batch)?;
    set.apply(sealed)?;
    let db = here(set)?;
    let target = db.sync_target();
    open(db.close(), Some(target))
}

/// Opens closed databases at these targets, and prunes all older checkpoints.
fn prune_to<S: DatabaseSet>(
    set: &mut S,
    config: &S::Config,
    targets: &S::SyncTargets,
) -> Result<(), Error>
    requires { S.kind.Openable (S.members set.old) }
{
    set.init(config, Some(*targets))?;
    set.prune(targets)?;
    Ok(())
}

/// The database without its older checkpoints.
fn prune<D: Written>(db: D) -> Result<D, Error> {
    let target = db.sync_target();
    let mut set: Held<D> = Held::Closed(db.close());
    prune_to(&mut set, &D::config(), &target)?;
    here(set)
}

/// The database with these blocks, durably. With the word `prune` between them, what is older is
/// pruned. What it leads to before the first and behind each comes behind the targets.
pub(crate) fn written<D: Written>(
    medium: D::Medium,
    words: &[&str],
    targets: &mut Vec<D::SyncTarget>,
) -> Result<D, Error> {
    let mut db: D = open(medium, None)?;
    targets.push(db.sync_target())?;
    for word in words {
        if *word == "prune" {
            db = prune(db)?;
        } else {
            db = write(db, word)?;
            targets.push(db.sync_target())?;
        }
    }
    Ok(db)
}
