//! A chain of sealed batches that are held.

use anyhow::Error;
use stateful_base::Location;
use stateful_db::{DatabaseSet, Held};
use stateful_db_keyless::{KeylessDb, KeylessMedium, KeylessMerkleized};
use std::alloc::Global;
use std::fmt;

/// A log of values, in a set.
type Log = Held<KeylessDb<u64>>;

/// What the last batch of a chain shows: the end of its range, and its first and last value.
#[derive(Clone, Copy)]
pub(crate) struct Shown {
    size: u64,
    first: u64,
    last: u64,
}

impl fmt::Display for Shown {
    fn fmt<W: fmt::Write>(&self, f: &mut fmt::Formatter<W>) -> fmt::Result {
        let Shown { size, first, last } = *self;
        write!(f, "{size} {first} {last}")
    }
}

/// A log with so many values, from 0 on.
fn fill(alloc: Global, entries: u64) -> Result<Log, Error> {
    let mut set: Log = Held::Closed(KeylessMedium::empty(alloc, Vec::new(alloc)));
    set.init(&(), None)?;
    let mut batch = set.new_batches()?;
    for value in 0..entries {
        batch = batch.append(value)?;
    }
    let sealed = set.seal(batch)?;
    set.apply(sealed)?;
    Ok(set)
}

/// So many sealed batches of one value each, from 0 on, one on the other.
fn seal_each(
    alloc: Global,
    set: &mut Log,
    batches: u64,
) -> Result<Vec<KeylessMerkleized<u64>>, Error> {
    let mut held = Vec::new(alloc);
    for value in 0..batches {
        let batch = match held.last() {
            Some(parent) => set.fork_batches(parent)?,
            None => set.new_batches()?,
        };
        let sealed = set.seal(batch.append(value)?)?;
        held.push(sealed)?;
    }
    Ok(held)
}

/// The value that a batch shows at a location.
fn value(set: &Log, batch: &KeylessMerkleized<u64>, at: u64) -> Result<u64, Error> {
    let Held::Here(db) = set else {
        return Err(Error::msg("the database is lost"));
    };
    match batch.get(db, Location(at))? {
        Some(value) => Ok(value),
        None => Err(Error::msg("there is no value")),
    }
}

/// Fills a log with so many values, and seals and holds so many batches over it. Gives what the
/// last one shows.
pub(crate) fn hold(alloc: Global, entries: u64, batches: u64) -> Result<Shown, Error> {
    let mut set = fill(alloc, entries)?;
    let held = seal_each(alloc, &mut set, batches)?;
    let Some(last) = held.last() else {
        return Err(Error::msg("there is no batch"));
    };
    let size = last.bounds().size.0;
    Ok(Shown {
        size,
        first: value(&set, last, 1)?,
        last: value(&set, last, size.saturating_sub(2))?,
    })
}
