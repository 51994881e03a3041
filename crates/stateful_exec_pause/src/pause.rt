//! What execution is paused for, and what becomes under a pause of the requests on a run that ends.

ghost use Rattle.std.specs.Prelude.{◌≡◌, ◌↔◌, IsTrue, OnOk};
ghost use Rattle.stateful_exec_pause.specs.Fates.{Crosses, IsFate};
ghost use Rattle.stateful_exec_pause.specs.Pausing.{pause_for, IsAwaited};

use crate::boundary::{Disposition, ExecutionStep, FinalizationBoundary};
use stateful_base::{Block, Digested, OutOfMemory};
use stateful_history::How;

/// What becomes of a request that has waited for a run.
#[derive(Clone, Copy, Debug, PartialEq, Eq)]
pub enum Fate {
    Invalid,
    Parked,
    GoesOn,
}

/// Whether execution is paused, and for what.
#[derive(Drop)]
pub enum Pause {
    Free,
    /// For a finalization, which runs that descend from its block go on over.
    Finalizing(FinalizationBoundary),
    /// For a prune.
    Pruning,
}

impl Pause {
    /// What execution is paused for.
    pub fn of(boundary: Option<FinalizationBoundary>) -> Pause
        ensures { result ≡ pause_for boundary }
    {
        match boundary {
            Some(boundary) => Pause::Finalizing(boundary),
            None => Pause::Pruning,
        }
    }

    /// Whether the end of a run of this block is waited for.
    pub fn awaits<B: Block + Drop>(&self, block: &Digested<B>) -> bool
        ensures { IsTrue result ↔ IsAwaited B.header self.now block.now }
    {
        match self {
            Pause::Free => false,
            Pause::Pruning => true,
            Pause::Finalizing(boundary) => {
                boundary.disposition(&ExecutionStep::of(block)) != Disposition::Retain
            }
        }
    }

    /// A run of this block has ended. While a finalization goes on over which the block goes on, it
    /// is compatible from now on.
    pub fn cross<B: Block + Drop>(&mut self, block: &Digested<B>) -> Result<(), OutOfMemory>
        ensures { OnOk result (Crosses B.header block.now self.old self.new) }
    {
        let Pause::Finalizing(boundary) = self else {
            return Ok(());
        };
        let step = ExecutionStep::of(block);
        if boundary.disposition(&step) != Disposition::Retain {
            return Ok(());
        }
        boundary.completed(&step)
    }

    /// What becomes of the requests that waited for a run of the block that ended so, where the
    /// block is known or not.
    pub fn fate<B: Block + Drop>(&self, known: bool, block: &Digested<B>, how: How) -> Fate
        ensures { IsFate B.header self.now (IsTrue known) block.now how result }
    {
        let goes_on = if known { Fate::GoesOn } else { Fate::Invalid };
        match self {
            Pause::Free => goes_on,
            Pause::Pruning if known => Fate::Parked,
            Pause::Pruning => Fate::Invalid,
            Pause::Finalizing(boundary) => match boundary.disposition(&ExecutionStep::of(block)) {
                Disposition::Reject => Fate::Invalid,
                Disposition::Join if how != How::Kept => Fate::Parked,
                Disposition::Join | Disposition::Retain => goes_on,
            },
        }
    }
}
