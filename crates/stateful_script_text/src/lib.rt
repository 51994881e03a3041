//! The text of a history: a line for each mark, a line for each database, and how it ended. Also
//! the lines that are written where there is no history.
#![tactic(auto)]

mod label;
mod line;
mod mark;
mod shown;
mod whole;

pub use shown::{End, Label, Shown};
pub use whole::{script_line, transcript, usage_line};
