//! What a script says.

ghost use Rattle.std.specs.Prelude.{◌≡◌, Some};
ghost use Rattle.stateful_script.specs.Named.{databases_in};
ghost use Rattle.stateful_script.specs.declared.script.ScriptError.TheVariants.{OutOfMemory};

use crate::name::Name;
use stateful_bank::Op;
use stateful_base::{Handoff, Height, Items, Round};
use std::alloc::AllocError;
use thiserror::Error;

/// Which databases a script plays with.
#[derive(Clone, Copy, Debug, PartialEq, Eq)]
pub enum World {
    /// One database of balances.
    Plain,
    /// A database of balances, and a log of amounts.
    Pair,
    /// The databases of a pair, and the latest commit of a log of the same amounts.
    Triple,
}

impl World {
    /// How many databases there are.
    pub fn databases(self) -> usize
        ensures { result ≡ databases_in (Some self) }
    {
        match self {
            World::Plain => 1,
            World::Pair => 2,
            World::Triple => 3,
        }
    }
}

/// A block as a script plans it.
#[derive(Debug, Drop)]
pub struct PlannedBlock {
    /// The place of its parent's name.
    pub parent: usize,
    pub height: Height,
    pub round: Round,
    /// The turns of its hook, at most 9.
    pub slow: u8,
    /// At most 16.
    pub ops: Items<Op>,
    /// Whether it commits to roots of 32 zero bytes.
    pub wrong: bool,
}

/// An event as a script plans it. A block goes by the place of its name.
#[derive(Debug, Drop)]
pub enum PlannedEvent {
    /// A request to verify this block, which brings its parent too unless the block comes alone.
    Verify {
        block: usize,
        alone: bool,
    },
    /// A request to build a block on this parent ahead of its proposal, and to hand it over in this
    /// way. The build would give this block.
    Prepare {
        parent: usize,
        block: usize,
        decision: Handoff<()>,
    },
    /// A request to build a block on this parent. The build would give this block.
    Propose {
        parent: usize,
        block: usize,
    },
    /// This block is final.
    Finalize(usize),
    /// A request to be told when the databases are there.
    Subscribe,
    /// The request of this ticket is given up.
    Cancel(u64),
    /// This fetch is answered, with this block or with none.
    Fetched {
        fetch: u64,
        answer: Option<usize>,
    },
    /// One turn of this job.
    Turn(u64),
    /// This database has flushed for this barrier, or it was stopped before it had.
    Flushed {
        barrier: u64,
        database: u64,
        stopped: bool,
    },
    /// The machine is to stop.
    Stop,
    /// The machine is to start, with this height as the last processed one. Of each database a
    /// crash has left so many checkpoints.
    Restart {
        processed: Option<Height>,
        keep: Items<usize>,
    },
}

/// A script.
#[derive(Debug, Drop)]
pub struct Script {
    /// The world that a line names. Where none does, it is `Plain`.
    pub world: Option<World>,
    /// Genesis first, and then the names of the blocks.
    pub names: Items<Name>,
    /// The block at a place has the name at the next place.
    pub blocks: Items<PlannedBlock>,
    pub events: Items<PlannedEvent>,
}

/// Why no script was read.
#[derive(Clone, Copy, Debug, PartialEq, Eq, Error)]
pub enum ScriptError {
    /// No rule reads the line of this number, from 1, and it is the first such line.
    #[error("Line")]
    Line(u64),
    #[error("OutOfMemory")]
    OutOfMemory,
}

impl From<AllocError> for ScriptError {
    ghost from_gives = { λ _ e. e ≡ OutOfMemory };

    fn from(_refused: AllocError) -> Self {
        ScriptError::OutOfMemory
    }
}
