//! Finalizations in the loop and the barriers behind them, and what a stop clears.
#![tactic(auto)]

mod barrier;
mod clearing;
mod finalizing;

pub use barrier::{begin_barrier, complete_barrier, flushed};
pub use clearing::clear;
pub use finalizing::{begin_finalization, go_on_finalizing};
