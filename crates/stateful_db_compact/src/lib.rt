//! The latest commit of a log of values, and the operations of such logs.
#![tactic(auto)]

mod codec;
mod compact;
mod op;

pub use compact::{
    Commit, CompactDb, CompactMedium, CompactPass, CompactState, KeylessUnjournaledMerkleized,
    KeylessUnjournaledUnmerkleized,
};
pub use op::{KeylessOp, duplicate, link_append, link_commit};
