//! Reads a script from a source, and writes to a sink what came of it.
#![tactic(auto)]

mod reading;
mod status;
mod writing;

pub use reading::{Stop, asks_play, load};
pub use status::{Outcome, Status};
pub use writing::{refuse_line, refuse_words, without_play, write_transcript};
