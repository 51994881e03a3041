//! Databases: batches over them, sets of them, and what an application does with them.
#![tactic(auto)]

mod application;
mod barrier;
mod batch;
mod database;
mod held;
mod pair;
mod set;
mod tokens;

pub use application::{
    AppFault, Application, Batch, Hooked, Input, OpenBatch, ProposalKind, Proposed, ProposedBlock,
    Targets,
};
pub use barrier::{Barrier, BarrierPoll, Flushed, Handle};
pub use batch::{BatchContext, BatchError, Merkleized, Unmerkleized};
pub use database::{Broken, DbCall, Exhausted, FlushToken, InitError, ManagedDb, Targeted, Why};
pub use held::Held;
pub use set::{DatabaseSet, SetError, SetInit, SetLost};
pub use tokens::Tokens;
