//! What execution does, as definitions over plain types, with their lemmas.
#![tactic(auto)]

mod building;
mod front;
mod joined;
mod worked;

pub use building::{BuildStart, Building};
pub use front::{Front, Stage};
pub use joined::Joined;
pub use worked::Worked;
