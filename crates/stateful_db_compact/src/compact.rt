//! A keyless log of which the latest commit alone is kept.

mod batch;
mod broken;
mod database;
mod medium;
mod opening;
mod pass;
mod state;

pub use batch::{KeylessUnjournaledMerkleized, KeylessUnjournaledUnmerkleized};
pub use database::CompactDb;
pub use medium::CompactMedium;
pub use pass::CompactPass;
pub use state::{Commit, CompactState};
