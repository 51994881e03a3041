//! A map that is kept as a log of operations on its keys.
#![tactic(auto)]

mod applied;
mod batch;
mod changes;
mod database;
mod index;
mod law;
mod linked;
mod medium;
mod op;
mod operation;
mod pass;
mod reads;
mod seal;
mod sealed;
mod slot;
mod staged;
mod state;
mod synced;

pub use batch::{AnyMerkleized, AnyUnmerkleized};
pub use changes::{AnyChanges, AnyWritten};
pub use database::AnyDb;
pub use law::{entries_are_one, ranges_are_tight, reads_give_newest_writes};
pub use medium::AnyMedium;
pub use op::AnyOp;
pub use pass::AnyPass;
pub use slot::Slot;
pub use staged::AnyStaged;
pub use state::AnyState;
pub use stateful_db_log::Bounds;
