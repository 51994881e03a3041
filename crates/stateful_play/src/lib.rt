//! Plays a script in its world, and writes what came of it.
#![tactic(auto)]

mod top;

pub use stateful_play_bank::{Databases, History, Played, databases_are_shown_once};
pub use stateful_play_edge::{Outcome, Status};
pub use stateful_script::World;
pub use top::run;
