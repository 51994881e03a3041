//! Builds of blocks: their starts, their turns, and what is built.
#![tactic(auto)]

mod built;
mod proposing;

pub use built::{give_up, turn_build};
pub use proposing::{BuildingOf, propose};
