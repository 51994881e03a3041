//! Finalizations: the run of a finalized block, its place as the anchor, and the hook behind it.
#![tactic(auto)]

mod anchoring;
mod finalizing;

pub use anchoring::{advance_to, observe, turn_hook};
pub use finalizing::{FrontOf, begin, complete_run, is_redelivered, run_finalized, settle_run};
