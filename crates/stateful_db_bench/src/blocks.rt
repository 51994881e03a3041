//! Blocks of writes, each on the one before.

ghost use Rattle.std.specs.Prelude.{◌≡◌, [], IfOk, OnOk};

use crate::numbers::NumberSet;
use anyhow::Error;
use std::alloc::Global;
use std::mem;

/// How many writes a block has.
const WRITES: u64 = 16;

/// 2^64 by the golden ratio.
const STRIDE: u64 = 0x9e37_79b9_7f4a_7c15;

/// The key of the write of this number, below so many. Writes in a row are far from each other.
fn key_of(number: u64, entries: u64) -> u64 {
    (number.wrapping_mul(STRIDE) >> 32).wrapping_mul(entries) >> 32
}

/// The value of a write, among those of the block of this number.
fn value_of(number: u64, write: u64) -> u64 {
    number.wrapping_mul(WRITES).wrapping_add(write)
}

/// An empty database that is open. No token is out.
pub(crate) fn open<S: NumberSet>(alloc: Global) -> Result<S, Error>
    ensures { IfOk result (λ set. S.kind.tokens (S.members set) 0 ≡ []) }
{
    let mut set = S::empty(alloc);
    set.init(&S::config(), Some(S::initial_sync_targets()))?;
    Ok(set)
}

/// A batch that puts 0 at each of so many keys, sealed.
pub(crate) fn fill<S: NumberSet>(set: &mut S, entries: u64) -> Result<S::Merkleized, Error>
    ensures { S.members set.new ≡ S.members set.old }
{
    let mut batch = set.new_batches()?;
    for key in 0..entries {
        batch = S::put(batch, key, 0)?;
    }
    Ok(set.seal(batch)?)
}

/// How many of the keys that the block of this number writes have a value in a batch.
pub(crate) fn read_each<S: NumberSet>(
    set: &S,
    batch: &S::Unmerkleized,
    entries: u64,
    number: u64,
) -> Result<u64, Error> {
    let mut found: u64 = 0;
    for write in 0..WRITES {
        let value = set.get(batch, key_of(value_of(number, write), entries))?;
        if value.is_some() {
            found = found.saturating_add(1);
        }
    }
    Ok(found)
}

/// The batch with the writes of the block of this number.
pub(crate) fn write_each<S: NumberSet>(
    batch: S::Unmerkleized,
    entries: u64,
    number: u64,
) -> Result<S::Unmerkleized, Error> {
    let mut batch = batch;
    for write in 0..WRITES {
        let value = value_of(number, write);
        batch = S::put(batch, key_of(value, entries), value)?;
    }
    Ok(batch)
}

/// The block of this number on its parent, sealed.
fn child<S: NumberSet>(
    set: &mut S,
    parent: &S::Merkleized,
    entries: u64,
    number: u64,
) -> Result<S::Merkleized, Error>
    ensures { S.members set.new ≡ S.members set.old }
{
    let batch = set.fork_batches(parent)?;
    let batch = write_each::<S>(batch, entries, number)?;
    Ok(set.seal(batch)?)
}

/// Applies a sealed batch on the state as it is, and makes it durable.
pub(crate) fn finalize<S: NumberSet>(
    alloc: Global,
    set: &mut S,
    batch: S::Merkleized,
) -> Result<(), Error>
    requires { S.kind.tokens (S.members set.old) 0 ≡ [] }
    ensures { OnOk result (S.kind.tokens (S.members set.new) 0 ≡ []) }
{
    set.apply(batch)?;
    let barrier = set.finalize(alloc)?;
    match barrier.handle(0) {
        Some(token) => {
            set.flush(0, token)?;
            Ok(())
        }
        None => Err(Error::msg("there is no token")),
    }
}

/// Fills a database with so many entries, and plays so many blocks. Each is begun on its parent,
/// which is applied behind it. Gives the end of the range.
pub(crate) fn play<S: NumberSet>(alloc: Global, entries: u64, blocks: u64) -> Result<u64, Error> {
    let mut set: S = open(alloc)?;
    let mut parent = fill(&mut set, entries)?;
    for number in 0..blocks {
        let block = child(&mut set, &parent, entries, number)?;
        finalize(alloc, &mut set, mem::replace(&mut parent, block))?;
    }
    finalize(alloc, &mut set, parent)?;
    let targets = set.committed_targets()?;
    Ok(S::operations(&targets))
}
