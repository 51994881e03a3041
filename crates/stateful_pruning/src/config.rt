//! What is retained, and how often the rest is pruned.

ghost use Rattle.std.specs.Prelude.{◌<◌, ◌≤◌, ◌↔◌, IsOk, IsErr};

use std::num::NonZeroUsize;
use thiserror::Error;

/// How often a prune may be due, and what it retains. Blocks are counted beyond those whose
/// acknowledgement may be pending and the newest one.
#[derive(Clone, Copy, Debug, PartialEq, Eq)]
pub struct PruneConfig {
    /// A prune may be due at one height of so many.
    pub maintenance_interval: NonZeroUsize,
    /// How many blocks marshal retains.
    pub retained_marshal_blocks: usize,
    /// For how many blocks the databases retain checkpoints. It is no more than marshal retains.
    pub retained_qmdb_blocks: usize,
    /// How many of the newest operations the databases retain.
    pub retained_qmdb_operations: u64,
}

/// Marshal retains fewer blocks than QMDB.
#[derive(Clone, Copy, Debug, PartialEq, Eq, Error)]
#[error("InvalidPruneConfig")]
pub struct InvalidPruneConfig;

impl PruneConfig {
    /// Refused exactly where marshal retains fewer blocks than QMDB. It takes no memory.
    pub fn assert_valid(self) -> Result<(), InvalidPruneConfig>
        ensures valid { IsOk result ↔ (self.retained_qmdb_blocks ≤ self.retained_marshal_blocks) }
        ensures refused { IsErr result
            ↔ (self.retained_marshal_blocks < self.retained_qmdb_blocks) }
    {
        if self.retained_marshal_blocks < self.retained_qmdb_blocks {
            return Err(InvalidPruneConfig);
        }
        Ok(())
    }
}
