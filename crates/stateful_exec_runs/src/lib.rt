//! Requests on their way, the runs that they share, and what follows the end of one.
#![tactic(auto)]

mod ending;
mod running;

pub use ending::{ReleasedOf, complete, settle};
pub use running::{acquire, advance, begin, fetched, launch};
pub use stateful_exec_turns::{TablesOf, Turned};
