//! What goes on after a pause.
#![tactic(auto)]

mod resuming;

pub use resuming::resume;
