//! What execution is paused for: how runs cross a finalization, which runs a pause waits for, and
//! what becomes of the requests on a run that has ended.
#![tactic(auto)]

mod boundary;
mod pause;

pub use boundary::{Disposition, ExecutionStep, FinalizationBoundary};
pub use pause::{Fate, Pause};
