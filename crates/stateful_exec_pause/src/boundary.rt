//! How runs cross a finalization: which end before it, which go on, and which are given up.
//!
//! A boundary is taken when a finalization begins, and is kept in the pause until the finalization
//! is over. `compatible` has the digests of blocks whose states stay valid: the finalized one, and
//! its cached descendants of later rounds. A run of a later block on one of these goes on meanwhile
//! (`Retain`). Where it ends its block is compatible too (`completed`), so the next one above it
//! may follow.
//!
//! A run of the finalized block itself is awaited, since its batch is what is applied (`Join`).
//! Each other run is awaited too, and its requests are invalid then (`Reject`).
//!
//! `IsRetained` of `specs/Boundary.antt` and `IsBoundaryOf` have the rules; docs/RULES.md says them
//! in words, "A pause".

ghost use Rattle.std.specs.Prelude.{◌≡◌, ◌↔◌, IsTrue, IfOk, OnOk, OnErr};
ghost use Rattle.stateful_exec_pause.specs.Boundary.{step_by, Completes, IsRetained};
ghost use Rattle.stateful_exec_pause.specs.Boundary.{IsBoundaryOf};

use stateful_base::{Anchor, Block, Digest, Digested, OutOfMemory, Round};
use stateful_exec_cache::Cache;
use std::alloc::Global;
use std::collections::BTreeSet;
use std::marker::Model;

/// What a run is of, by the names of its block.
#[derive(Clone, Copy, Debug, PartialEq, Eq)]
pub struct ExecutionStep {
    pub digest: Digest,
    pub parent: Digest,
    pub round: Round,
}

impl ExecutionStep {
    /// Whether both are of one digest, parent and round.
    pub fn is(self, other: ExecutionStep) -> bool
        ensures { IsTrue result ↔ (self ≡ other) }
    {
        self == other
    }

    /// The step of a block.
    pub fn of<B: Block>(block: &Digested<B>) -> ExecutionStep
        ensures { result ≡ step_by B.header block.now }
    {
        ExecutionStep {
            digest: block.digest(),
            parent: block.parent(),
            round: block.round(),
        }
    }
}

/// What becomes of a step where a block is finalized.
#[derive(Clone, Copy, Debug, PartialEq, Eq)]
pub enum Disposition {
    /// It descends from the finalized block, and goes on.
    Retain,
    /// It is of the finalized block, which waits for its end.
    Join,
    /// It ends before the finalization, and its requests become invalid.
    Reject,
}

/// The blocks whose states stay valid once one block is applied: that block, and those that were
/// found to descend from it in later rounds.
#[derive(Drop)]
pub struct FinalizationBoundary {
    digest: Digest,
    round: Round,
    compatible: BTreeSet<Digest>,
}

impl Model for FinalizationBoundary {
    ghost use Rattle.stateful_exec_pause.specs.Boundary.{Boundary};
    ghost use Rattle.std.specs.BTreeSet.{keys};

    ghost Value = { Boundary };

    ghost view = { λ b. record { digest = b.digest; round = b.round; compatible = keys b.compatible } };
}

impl FinalizationBoundary {
    /// The boundary of the finalization of a block: compatible are the block and its cached
    /// descendants of later rounds.
    pub fn of<B: Block, U: Drop>(
        alloc: Global,
        block: &Digested<B>,
        cache: &Cache<U>,
    ) -> Result<FinalizationBoundary, OutOfMemory>
        ensures { IfOk result (IsBoundaryOf B.header block.now cache.now) }
    {
        let mut compatible = cache.descendants(alloc, Anchor::from_block(block))?;
        compatible.insert(block.digest())?;
        Ok(FinalizationBoundary {
            digest: block.digest(),
            round: block.round(),
            compatible,
        })
    }

    /// `Join` exactly for the finalized digest; `Retain` exactly for a later round on a compatible
    /// parent, where it isn't of that digest; else `Reject`.
    pub fn disposition(&self, step: &ExecutionStep) -> Disposition
        ensures join { (result ≡ Disposition.Join) ↔ (step.now.digest ≡ self.now.digest) }
        ensures retain { (result ≡ Disposition.Retain) ↔ IsRetained self.now step.now }
    {
        if step.digest.is(self.digest) {
            return Disposition::Join;
        }
        let later = step.round.is_later_than(self.round);
        if later && self.compatible.contains(&step.parent) {
            Disposition::Retain
        } else {
            Disposition::Reject
        }
    }

    /// A step that goes on has ended: its block is compatible from now on.
    pub fn completed(&mut self, step: &ExecutionStep) -> Result<(), OutOfMemory>
        requires { IsRetained self.old step.now }
        ensures ok { OnOk result (Completes step.now.digest self.old self.new) }
        ensures err { OnErr result (self.new ≡ self.old) }
    {
        self.compatible.insert(step.digest)?;
        Ok(())
    }
}
