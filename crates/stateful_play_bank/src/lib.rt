//! Plays a script of the bank in the world that it names, and what is shown of it.
#![tactic(auto)]

mod law;
mod playing;
mod shown;
mod text;

pub use law::databases_are_shown_once;
pub use playing::{Databases, History, Played, Told, play};
pub use text::text_of;
