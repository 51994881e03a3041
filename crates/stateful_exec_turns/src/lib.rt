//! The parts of a candidate run: what it is handed, its turns, and how it ended.
#![tactic(auto)]

mod turning;

pub use turning::{TablesOf, Turned, end, pair, turn};
