//! The rules of the loop, as definitions over what it keeps: the mailbox, the open barriers, what is
//! in front, and why an event is refused. Their lemmas stand beside them.
#![tactic(auto)]

mod barriers;
mod error;
mod message;
mod queue;
mod reached;
mod tables;

pub use barriers::{Active, Barriers};
pub use error::StepError;
pub use message::{Action, Message};
pub use queue::{Asks, Queue};
pub use reached::Reached;
pub use tables::{Finalizing, Processing, ProcessingOf};
