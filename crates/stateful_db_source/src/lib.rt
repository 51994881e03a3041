//! What answers the requests of a syncing database, and what serves them to peers.
#![tactic(auto)]

mod resolver;
mod source;

pub use resolver::{AttachableResolver, AttachableResolverSet};
pub use source::{ServeFault, SyncSource};
