//! A log of values, kept from its floor on.

mod applied;
mod batch;
mod database;
mod medium;
mod pass;
mod range;
mod reads;
mod sealed;
mod state;
mod synced;
mod unsealed;

pub use batch::{KeylessMerkleized, KeylessUnmerkleized};
pub use database::KeylessDb;
pub use medium::KeylessMedium;
pub use pass::KeylessPass;
pub use state::KeylessState;
