//! Builds of blocks.

ghost use Rattle.std.specs.Prelude.{◌≡◌, ◌↔◌, IsTrue, List, Option};
ghost use Rattle.stateful_base.specs.declared.target.Target.{Target};
ghost use Rattle.stateful_bank.specs.declared.block.BankBlock.{BankBlock};
ghost use Rattle.stateful_bank.specs.Proposal.{IsDeclined, built_block, GivesOne};

use crate::block::{BankBlock, MAX_OPS};
use crate::op::Op;
use stateful_base::{Digest, Handoff, Height, Items, Round, Target};

/// What a build is asked for: how its block is handed over, the height and the digest of its
/// parent, its round, and its operations. A block that is proposed, and not prepared, is handed
/// over as `Vote`.
#[derive(Debug, Drop)]
pub struct Proposal {
    pub decision: Handoff<()>,
    pub height: Height,
    pub parent: Digest,
    pub round: Round,
    pub ops: Items<Op>,
}

impl Proposal {
    /// Whether it is declined whatever the states are: where nothing is to be handed over, where
    /// there are no operations or more than `MAX_OPS`, and where no height is left.
    pub fn is_declined(&self) -> bool
        ensures { IsTrue result ↔ IsDeclined self.now }
    {
        self.decision.is_wait()
            || self.ops.is_empty()
            || self.ops.len() > MAX_OPS
            || self.height.next().is_none()
    }

    /// Its block, over databases of these targets.
    pub fn into_block(self, targets: Items<Target>) -> BankBlock
        requires { IsDeclined self → ⊥ }
        ensures { result ≡ built_block self targets }
    {
        let Proposal {
            decision: _,
            height,
            parent,
            round,
            ops,
        } = self;
        BankBlock::child(height, parent, round, ops, targets).unwrap()
    }
}

/// A build on given states hands over one thing and no other, where what blocks lead to doesn't
/// hang on the targets that they commit to. The call does nothing: a caller learns what it ensures.
pub fn one_is_given<States>()
    ensures { (step : States → BankBlock → Option States) (targets_of : States → List Target) →
        GivesOne step targets_of }
{}
