//! How a block is judged without a run of it.

ghost use Rattle.std.specs.Prelude.{◌≡◌, ◌≢◌, IfOk, IfErr, IsTrue, ◌↔◌};
ghost use Rattle.stateful_exec_cache.specs.Cache.{IsAtHand};
ghost use Rattle.stateful_exec_cache.specs.Judgement.{IsJudged};
ghost use Rattle.stateful_exec_cache.specs.Judgement.{IsOpen};

use crate::cache::Cache;
use stateful_base::{Anchor, Block, BlockStore, Digest, Digested, OutOfMemory};

/// How a block is judged without a run of it.
#[derive(Clone, Copy, Debug, PartialEq, Eq)]
pub enum Judgement {
    Valid,
    Invalid,
    /// Its height is below the anchor's, and the store has no block there.
    Waits,
    /// It has to be run.
    Open,
}

impl Judgement {
    /// Whether it isn't answered at once.
    pub fn is_open(self) -> bool
        ensures { IsTrue result ↔ IsOpen self }
    {
        match self {
            Judgement::Valid | Judgement::Invalid => false,
            Judgement::Waits | Judgement::Open => true,
        }
    }
}

/// Judges a block by the cache, at the anchor's height by the anchor, and below it by the store.
pub fn judge<B: Block + Drop, U: Drop, S: BlockStore<B>>(
    anchor: Anchor,
    cache: &Cache<U>,
    store: &S,
    block: &Digested<B>,
) -> Result<Judgement, OutOfMemory>
    ensures { IfOk result (λ judgement. IsJudged B.header anchor cache.now (S.stored store.now)
        block.now judgement) }
{
    if cache.has(block.digest()) {
        return Ok(Judgement::Valid);
    }
    let height = block.height();
    if height.0 > anchor.height.0 {
        return Ok(Judgement::Open);
    }
    if height.0 == anchor.height.0 {
        return Ok(agreed(anchor.digest, block.digest()));
    }
    match store.at(height)? {
        Some(stored) => Ok(agreed(stored.digest(), block.digest())),
        None => Ok(Judgement::Waits),
    }
}

/// Valid exactly where the block is the finalized one.
fn agreed(finalized: Digest, digest: Digest) -> Judgement
    ensures valid { (result ≡ Judgement.Valid) ↔ (finalized ≡ digest) }
    ensures invalid { (result ≡ Judgement.Invalid) ↔ (finalized ≢ digest) }
{
    if finalized.is(digest) {
        Judgement::Valid
    } else {
        Judgement::Invalid
    }
}

/// Whether the block of a digest is known: it is the anchor, or cached.
pub fn knows<U: Drop>(anchor: Anchor, cache: &Cache<U>, digest: Digest) -> bool
    ensures { IsTrue result ↔ IsAtHand anchor cache.now digest }
{
    digest.is(anchor.digest) || cache.has(digest)
}
