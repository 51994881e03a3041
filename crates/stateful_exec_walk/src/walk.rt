//! What a request needs before its blocks can be run: walks from its first unknown block through
//! its ancestors, to one that is known.
//!
//! A walk isn't kept. With each answer of a fetch `prepare` walks anew, through all blocks that
//! were acquired for the request so far. Meanwhile blocks may have become known, so the walk may
//! end earlier than before. After a pause what was acquired is dropped, and the walk begins with
//! the request alone.
//!
//! Where it comes to a known block, the path above that is `Ready`. Where it lacks a block, that is
//! the one to `Ask` for. Where the blocks don't fit, the request is `Invalid`. A verification is
//! judged first without a walk (`judge` of `stateful_exec_cache`), and may have to wait for the store.
//!
//! `IsPrepared` and `Walks` of `specs/Walk.antt` have the rules, and docs/RULES.md says them in
//! words, "What a request needs".

ghost use Rattle.std.specs.Prelude.{◌↔◌, ◌++◌, ◌∷◌, IfOk, IsTrue, take};
ghost use Rattle.stateful_exec_walk.specs.Path.{IsOneAbove};
ghost use Rattle.stateful_exec_walk.specs.Walk.{Walks, StandsAt, IsNeeded, IsPrepared};

use crate::path::ReplayPath;
use crate::request::Request;
use stateful_base::{Ancestry, Anchor, Block, BlockStore, Digest, Digested, OutOfMemory, Share};
use stateful_exec_cache::{Cache, Judgement, judge, knows};
use std::alloc::Global;

/// What a request needs.
#[derive(Drop)]
pub enum Acquired<B> {
    /// Nothing: its block is valid.
    Valid,
    /// Nothing: its block is invalid, or the parent of its proposal can't be made known.
    Invalid,
    /// The block of this digest.
    Ask(Digest),
    /// The finalized block of its height, which the store doesn't have.
    Waits,
    /// These blocks are to be run.
    Ready(ReplayPath<B>),
}

/// How a block of a walk stands.
#[derive(Clone, Copy, Debug, PartialEq, Eq)]
enum Standing {
    AtHand,
    /// It isn't at hand, and is no higher than the anchor.
    Covered,
    Missing,
}

fn standing_of<B: Block + Drop, U: Drop>(
    anchor: Anchor,
    cache: &Cache<U>,
    block: &Digested<B>,
) -> Standing
    ensures { StandsAt B.header anchor cache.now block.now result }
{
    if knows(anchor, cache, block.digest()) {
        Standing::AtHand
    } else if block.height().0 <= anchor.height.0 {
        Standing::Covered
    } else {
        Standing::Missing
    }
}

/// Whether a block is one above another, and its child.
fn is_one_above<B: Block + Drop>(block: &Digested<B>, parent: &Digested<B>) -> bool
    ensures { IsTrue result ↔ IsOneAbove B.header block.now parent.now }
{
    let child = parent.digest().is(block.parent());
    child && Some(block.height()) == parent.height().next()
}

/// Walks on from the end of a path through these blocks, each the parent of the one before, to one
/// that is at hand.
fn walk_from<B: Block + Drop, U: Drop>(
    path: ReplayPath<B>,
    anchor: Anchor,
    cache: &Cache<U>,
    acquired: &[Digested<B>],
) -> Result<Acquired<B>, OutOfMemory>
    ensures { IfOk result (Walks B.header anchor cache.now path.blocks
        (path.parent ∷ acquired.now)) }
{
    let mut path = path;
    for next in acquired {
        match standing_of(anchor, cache, path.parent()) {
            Standing::AtHand => return Ok(Acquired::Ready(path)),
            Standing::Covered => return Ok(Acquired::Invalid),
            Standing::Missing => {}
        }
        if !is_one_above(path.parent(), next) {
            return Ok(Acquired::Invalid);
        }
        path.step_to(next)?;
    }
    match standing_of(anchor, cache, path.parent()) {
        Standing::AtHand => Ok(Acquired::Ready(path)),
        Standing::Covered => Ok(Acquired::Invalid),
        Standing::Missing => Ok(Acquired::Ask(path.parent().parent())),
    }
}

/// What a run of a block above this parent needs.
fn walk_above<B: Block + Drop, U: Drop>(
    alloc: Global,
    anchor: Anchor,
    cache: &Cache<U>,
    block: &Digested<B>,
    parent: &Digested<B>,
    acquired: &[Digested<B>],
) -> Result<Acquired<B>, OutOfMemory>
    ensures { IfOk result (IsNeeded B.header anchor cache.now block.now
        (parent.now ∷ acquired.now)) }
{
    if !parent.digest().is(block.parent()) {
        return Ok(Acquired::Invalid);
    }
    let path = ReplayPath::of(alloc, block.share()?, parent.share()?)?;
    walk_from(path, anchor, cache, acquired)
}

/// What a run of the first block of an ancestry needs.
fn acquire<B: Block + Drop, U: Drop>(
    alloc: Global,
    anchor: Anchor,
    cache: &Cache<U>,
    ancestry: &Ancestry<B>,
    acquired: &[Digested<B>],
) -> Result<Acquired<B>, OutOfMemory>
    ensures { IfOk result (IsNeeded B.header anchor cache.now ancestry.now.first
        (take 1 ancestry.now.rest ++ acquired.now)) }
{
    let block = &ancestry.first;
    if let Some(parent) = ancestry.rest.as_slice().first() {
        return walk_above(alloc, anchor, cache, block, parent, acquired);
    }
    match acquired.split_first() {
        Some((parent, more)) => walk_above(alloc, anchor, cache, block, parent, more),
        None => Ok(Acquired::Ask(block.parent())),
    }
}

/// What a request needs, with the blocks that were acquired for it so far.
pub fn prepare<B: Block + Drop, C: Copy, I, U: Drop, S: BlockStore<B>>(
    alloc: Global,
    anchor: Anchor,
    cache: &Cache<U>,
    store: &S,
    request: &Request<B, C, I>,
    acquired: &[Digested<B>],
) -> Result<Acquired<B>, OutOfMemory>
    ensures { IfOk result (IsPrepared B.header anchor cache.now (S.stored store.now) request.now
        acquired.now) }
{
    match request {
        Request::Verify { ancestry, .. } => match judge(anchor, cache, store, &ancestry.first)? {
            Judgement::Valid => Ok(Acquired::Valid),
            Judgement::Invalid => Ok(Acquired::Invalid),
            Judgement::Waits => Ok(Acquired::Waits),
            Judgement::Open => acquire(alloc, anchor, cache, ancestry, acquired),
        },
        Request::Recover { ancestry, .. } => {
            let path = ReplayPath::new(alloc, ancestry.first.share()?);
            walk_from(path, anchor, cache, acquired)
        }
    }
}
