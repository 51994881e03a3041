//! From which block a sync starts.
//!
//! It takes one call or two. `resolve` looks into the block store, and gives the block or the
//! digest of one to fetch. In the second case the caller fetches it from peers, and hands the
//! answer to `resolve_fetched`. A fetched block counts only where the store has processed no higher
//! one.
//!
//! Both calls are given the `Floor` that the block store reports. Nothing is kept between them.
//! `Resolves` and `ResolvesFetched` of `specs/Choice.antt` have the rules, and docs/RULES.md says
//! them in words, "The plan of a sync".

ghost use Rattle.std.specs.Prelude.{◌≡◌, ◌↔◌, ◌≢◌, ◌+◌, ◌<◌, ◌^◌, Err, Option, Result, IsTrue};
ghost use Rattle.std.specs.Prelude.{IfOk, MatchOption};
ghost use Rattle.stateful_base.specs.Names.{Named};
ghost use Rattle.stateful_base.specs.declared.number.Height.{Height};
ghost use Rattle.stateful_sync_plan.specs.Choice.{IsCovered, IsNext, HasNext, IsStored, IsBehind};
ghost use Rattle.stateful_sync_plan.specs.Choice.{Resolves, ResolvesFetched};
ghost use Rattle.stateful_sync_plan.specs.Refusals.{UnlessMemory};
ghost use Rattle.stateful_sync_plan.specs.declared.error.SyncError.{SyncError};
ghost use Rattle.stateful_sync_plan.specs.declared.error.SyncError.TheVariants as errors;

use crate::error::{Missing, SyncError};
use stateful_types::{
    Block, BlockStore, Digest, Digested, Finalization, Floor, Height, OutOfMemory, Round,
};

/// What a floor resolves to: a block of the block store, or the digest of the one that is to be
/// fetched.
#[derive(Drop)]
pub enum Resolved<B> {
    Block(Digested<B>),
    Fetch(Digest),
}

/// Chooses the block from which a sync to this finalization starts. `floor` is what the block store
/// reports.
///
/// Where the store has seen a block processed, and its cutoff isn't before the finalized round, the
/// store's block right behind the processed one is chosen if it is the finalized one, and else the
/// processed one. Behind the last height there is no block. In all other cases the finalized block
/// is to be fetched.
pub fn resolve<B: Block + Drop, T: BlockStore<B>, C>(
    store: &T,
    floor: &Floor,
    finalization: &Finalization<C>,
) -> Result<Resolved<B>, SyncError>
    ensures resolves { UnlessMemory result (Resolves (T.stored store.now) floor.now
        finalization.now.round finalization.now.payload result) }

    // And nothing else would be right.
    ensures only { (other : Result (Resolved B) SyncError)
        → Resolves (T.stored store.now) floor.now finalization.now.round finalization.now.payload
        other
        → UnlessMemory result (result ≡ other) }
{
    let Some(processed) = covering(floor, finalization.round) else {
        return Ok(Resolved::Fetch(finalization.payload));
    };
    if let Some(block) = next_with(store, processed, finalization.payload)? {
        return Ok(Resolved::Block(block));
    }
    Ok(Resolved::Block(block_at(store, processed)?))
}

/// Chooses the block from which a sync starts whose floor was fetched, by the answer of the fetch:
/// the fetched block, or the store's processed one if that is higher.
pub fn resolve_fetched<B: Block + Drop, T: BlockStore<B>>(
    store: &T,
    floor: &Floor,
    answer: Option<Digested<B>>,
) -> Result<Digested<B>, SyncError>
    ensures resolves { UnlessMemory result (ResolvesFetched (T.stored store.now) floor.now
        B.header.height answer result) }

    // And nothing else would be right.
    ensures only { (other : Result (Named B) SyncError)
        → ResolvesFetched (T.stored store.now) floor.now B.header.height answer other
        → UnlessMemory result (result ≡ other) }
{
    let Some(block) = answer else {
        return Err(SyncError::MissingBlock(Missing::Fetched));
    };
    match higher_than(floor, block.height()) {
        Some(processed) => block_at(store, processed),
        None => Ok(block),
    }
}

/// The processed height, where the store has come at least as far as this round.
fn covering(floor: &Floor, round: Round) -> Option<Height>
    ensures { MatchOption result ((processed : Height) → IsCovered floor.now round processed → ⊥)
        (IsCovered floor.now round) }
{
    let processed = floor.processed?;
    let cutoff = floor.cutoff?;
    if round.is_later_than(cutoff) {
        return None;
    }
    Some(processed)
}

/// The processed height, where it is higher than this one.
fn higher_than(floor: &Floor, height: Height) -> Option<Height>
    ensures { MatchOption result ((processed : Height) → IsBehind floor.now height.0 processed → ⊥)
        (IsBehind floor.now height.0) }
{
    let processed = floor.processed?;
    if processed.0 > height.0 {
        Some(processed)
    } else {
        None
    }
}

/// The store's block right behind this height, where there is one.
fn next_block<B: Block, T: BlockStore<B>>(
    store: &T,
    processed: Height,
) -> Result<Option<Digested<B>>, OutOfMemory>
    ensures { IfOk result (λ found. MatchOption found
        ((block : Named B) → IsNext (T.stored store.now) processed block → ⊥)
        (IsNext (T.stored store.now) processed)) }
{
    match processed.next() {
        Some(next) => store.at(next),
        None => Ok(None),
    }
}

/// The store's block right behind this height, where it is the one of this digest.
fn next_with<B: Block + Drop, T: BlockStore<B>>(
    store: &T,
    processed: Height,
    payload: Digest,
) -> Result<Option<Digested<B>>, OutOfMemory>
    ensures { IfOk result (λ found. MatchOption found
        (HasNext (T.stored store.now) processed payload → ⊥)
        (λ block. IsNext (T.stored store.now) processed block × (block.digest ≡ payload))) }
{
    let Some(block) = next_block(store, processed)? else {
        return Ok(None);
    };
    if block.digest().is(payload) {
        Ok(Some(block))
    } else {
        Ok(None)
    }
}

/// The store's block of this height.
pub(crate) fn block_at<B: Block, T: BlockStore<B>>(
    store: &T,
    height: Height,
) -> Result<Digested<B>, SyncError>
    ensures { UnlessMemory result (IsStored (T.stored store.now) height result) }
{
    match store.at(height)? {
        Some(block) => Ok(block),
        None => Err(SyncError::MissingBlock(Missing::AtHeight(height))),
    }
}
