//! What becomes of a block that was finalized during a sync.

use stateful_types::{Digest, Digested, Height};

/// What becomes of a block that was finalized during a sync, with the ticket of its receipt.
#[derive(Drop)]
pub enum Handover<B> {
    /// It is below the anchor, so its effects are there.
    Covered { ticket: u64, block: Digested<B> },
    /// It is the anchor's block, so its effects are there.
    Reflected { ticket: u64, block: Digested<B> },
    /// It is above the anchor, and is to be applied. Where several have the same block it is
    /// applied once.
    Apply { ticket: u64, block: Digested<B> },
}

/// A place in the chain: a block's height and digest.
#[derive(Clone, Copy)]
pub(crate) struct Point {
    pub(crate) height: Height,
    pub(crate) digest: Digest,
}
