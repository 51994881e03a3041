//! Blocks over batches that are sealed and not applied yet.

ghost use Rattle.std.specs.Prelude.{◌≡◌, [], IfOk, OnOk};

use crate::blocks::{fill, finalize, open, read_each, write_each};
use crate::numbers::NumberSet;
use anyhow::Error;
use std::alloc::Global;
use std::collections::VecDeque;
use std::fmt;

/// How many entries a database is filled with.
const ENTRIES: u64 = 100_000;

/// What blocks leave: the end of the range, and how many of their reads found a value.
#[derive(Clone, Copy)]
pub(crate) struct Left {
    end: u64,
    found: u64,
}

impl fmt::Display for Left {
    fn fmt<W: fmt::Write>(&self, f: &mut fmt::Formatter<W>) -> fmt::Result {
        let Left { end, found } = *self;
        write!(f, "{end} {found}")
    }
}

/// A database with the entries, which are applied and durable. No token is out.
fn filled<S: NumberSet>(alloc: Global) -> Result<S, Error>
    ensures { IfOk result (λ set. S.kind.tokens (S.members set) 0 ≡ []) }
{
    let mut set: S = open(alloc)?;
    let entries = fill(&mut set, ENTRIES)?;
    finalize(alloc, &mut set, entries)?;
    Ok(set)
}

/// Seals the block of this number on the newest batch that is held, and holds it too. The block
/// reads its keys before it writes them. Gives how many of the reads found a value.
fn hold_next<S: NumberSet>(
    set: &mut S,
    held: &mut VecDeque<S::Merkleized>,
    number: u64,
) -> Result<u64, Error>
    ensures { S.members set.new ≡ S.members set.old }
{
    let batch = match held.back() {
        Some(parent) => set.fork_batches(parent)?,
        None => set.new_batches()?,
    };
    let found = read_each(set, &batch, ENTRIES, number)?;
    let batch = write_each::<S>(batch, ENTRIES, number)?;
    held.push_back(set.seal(batch)?)?;
    Ok(found)
}

/// So many blocks, each sealed on the one before.
fn hold_each<S: NumberSet>(
    alloc: Global,
    set: &mut S,
    ancestors: u64,
) -> Result<VecDeque<S::Merkleized>, Error>
    ensures { S.members set.new ≡ S.members set.old }
{
    let mut held = VecDeque::new(alloc);
    for number in 0..ancestors {
        hold_next(set, &mut held, number)?;
    }
    Ok(held)
}

/// Applies the oldest batch that is held, and makes it durable.
fn finalize_oldest<S: NumberSet>(
    alloc: Global,
    set: &mut S,
    held: &mut VecDeque<S::Merkleized>,
) -> Result<(), Error>
    requires { S.kind.tokens (S.members set.old) 0 ≡ [] }
    ensures { OnOk result (S.kind.tokens (S.members set.new) 0 ≡ []) }
{
    match held.pop_front() {
        Some(oldest) => finalize(alloc, set, oldest),
        None => Err(Error::msg("there is no batch")),
    }
}

/// Fills a database, seals so many blocks over it, each on the one before, and plays so many more.
/// Each of these is sealed on the newest. Behind it the oldest is applied.
pub(crate) fn play_over<S: NumberSet>(
    alloc: Global,
    ancestors: u64,
    blocks: u64,
) -> Result<Left, Error> {
    let mut set: S = filled(alloc)?;
    let mut held = hold_each(alloc, &mut set, ancestors)?;
    let mut found: u64 = 0;
    for block in 0..blocks {
        let number = ancestors.wrapping_add(block);
        found = found.saturating_add(hold_next(&mut set, &mut held, number)?);
        finalize_oldest(alloc, &mut set, &mut held)?;
    }
    let targets = set.committed_targets()?;
    Ok(Left {
        end: S::operations(&targets),
        found,
    })
}
