//! The plainest database: a map from numbers to numbers that is kept whole at each checkpoint.
//!
//! Its batches keep their own writes alone. What is below them they share: the layers of sealed
//! batches, and the state of the database on which these stand.
#![tactic(auto)]

mod batch;
mod bounded;
mod broken;
mod changes;
mod database;
mod medium;
mod op;
mod pass;
mod serving;
mod state;
mod synced;

pub use batch::{PlainMerkleized, PlainUnmerkleized};
pub use changes::PlainChanges;
pub use database::Plain;
pub use medium::PlainMedium;
pub use op::PlainOp;
pub use pass::PlainPass;
pub use state::PlainState;
