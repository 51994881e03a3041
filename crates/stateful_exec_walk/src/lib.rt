//! What a request asks for, and what it needs: the blocks that have to be run for it, or the one that
//! has to be fetched.
#![tactic(auto)]

mod path;
mod request;
mod walk;

pub use path::ReplayPath;
pub use request::{Proposal, Request, Verdict};
pub use walk::{Acquired, prepare};
