//! Anchors: where a chain of blocks is fixed.

ghost use Rattle.std.specs.Prelude.{◌≡◌};
ghost use Rattle.stateful_base.specs.Anchor.{anchor_by};

use crate::block::{Block, Digested};
use crate::digest::Digest;
use crate::number::Height;
use crate::round::Round;

/// A block's height, round and digest.
#[derive(Clone, Copy, Debug, PartialEq, Eq)]
pub struct Anchor {
    pub height: Height,
    pub round: Round,
    pub digest: Digest,
}

impl Anchor {
    /// The block's height, round and digest.
    pub fn from_block<B: Block>(block: &Digested<B>) -> Anchor
        ensures { result ≡ anchor_by B.header block.now }
    {
        Anchor {
            height: block.height(),
            round: block.round(),
            digest: block.digest(),
        }
    }
}
