//! A log of values, kept from its floor on.
#![tactic(auto)]

mod keyless;
mod law;

pub use keyless::{
    KeylessDb, KeylessMedium, KeylessMerkleized, KeylessPass, KeylessState, KeylessUnmerkleized,
};
pub use law::compact_follows_keyless;
pub use stateful_db_compact::{
    Commit, CompactDb, CompactMedium, CompactPass, CompactState, KeylessOp,
    KeylessUnjournaledMerkleized, KeylessUnjournaledUnmerkleized,
};
pub use stateful_db_log::Bounds;
