//! When a finalized chain is pruned, and to which heights.
//!
//! Two stores hold the past of a finalized chain. Marshal holds the blocks. The databases (QMDB)
//! hold a checkpoint for each block, which goes by the block's targets. A prune drops marshal's
//! blocks below one height, and the checkpoints that are older than that of one block.
//!
//! What has to stay is said by two windows, one for marshal and one for the databases. A window is
//! `max_pending_acks + 1 + retained` blocks: those whose acknowledgement may be pending, the newest
//! one, and as many more as the config retains. Marshal retains at least as many as the databases.
//! Beside that the databases retain a number of operations.
//!
//! Each finalized height is observed, in ascending order, with its targets and the number of
//! operations up to there. This is its entry. A prune is due exactly where
//!
//! - the height is congruent to the offset modulo the interval,
//! - a full marshal window was observed since the start, and
//! - an entry of the marshal window is old enough: it isn't newer than the oldest one of the QMDB
//!   window, and it has at least `retained_qmdb_operations` operations fewer than the newest entry.
//!
//! Then marshal is pruned to the oldest height of its window, and the databases to the targets of
//! the newest entry that is old enough. Its height has to be durable first, so that a crash doesn't
//! lead back to a checkpoint that was dropped.
//!
//! With interval 4, offset 0, one pending acknowledgement, one block for marshal, none for the
//! databases and no operations the windows are three and two blocks. At height 4 they begin at 2
//! and at 3, and so marshal is pruned to 2 and the databases to 3.
#![tactic(auto)]

mod config;
mod pruning;

pub use config::{InvalidPruneConfig, PruneConfig};
pub use pruning::{Prune, Pruning, PruningError};
