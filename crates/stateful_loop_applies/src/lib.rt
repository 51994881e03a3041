//! A finalized block is applied, and its finalization ends.
#![tactic(auto)]

mod applying;

pub use applying::{apply, end_finalization};
