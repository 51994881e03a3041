//! Plays a script over the databases of a world: steps a machine through its events.
#![tactic(auto)]

mod driving;
mod grounds;
mod play;

pub use driving::drive_all;
pub use play::{PlayedIn, play_in};
