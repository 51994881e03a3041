//! What becomes of the messages and actions that the loop takes.
#![tactic(auto)]

mod taking;

pub use taking::{drain_first, take_first};
