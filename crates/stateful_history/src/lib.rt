//! Histories: the events that come to the machine and the marks that it makes of them. The
//! definitions over them, in specs/, say what the machine promises.
#![tactic(auto)]

mod entry;
mod event;
mod mark;
mod ticket;

pub use entry::Entry;
pub use event::Event;
pub use mark::{Decision, How, JobKind, Mark};
pub use ticket::Ticket;
