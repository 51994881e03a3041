//! The mailbox of a machine: what a consensus engine asks of it, and what comes back.
//!
//! A caller asks by one of the calls of a [`Mailbox`], and keeps the ticket that the call draws.
//! Whoever drives the machine takes the events out, gives them to the machine in their order, and
//! tells the mailbox the marks of each entry. With its ticket the caller then asks what became of
//! its request.
#![tactic(auto)]

mod mailbox;
mod message;
mod note;
mod reply;
mod tickets;

pub use mailbox::Mailbox;
pub use reply::{Reply, Stopped};
