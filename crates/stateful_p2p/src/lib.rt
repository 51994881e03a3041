//! The resolver: operations from peers, for whoever syncs a database.
//!
//! A database that syncs asks for operations, and peers answer. An answer may be anything, so it is
//! a *candidate* until whoever asked has judged it. Several may ask for the same at once: each gets
//! a candidate of its own, and the first verdict of the lowest ticket tells whether the delivery
//! was good.
//!
//! An [`Actor`] is a machine without threads: one event is one call of [`Actor::step`], and what it
//! answers is to be done by the caller. Requests, cancels and a database that answers peers come to
//! it through its [`Mailbox`], which also hands out the candidates. A [`Handler`] keeps the
//! deliveries and productions of a peer-to-peer engine on their way to it.
#![tactic(auto)]

mod actor;
mod error;
mod event;
mod fanout;
mod handler;
mod mailbox;
mod message;
mod serving;
mod subscriber;
mod tickets;

pub use actor::{Actor, Config};
pub use error::{ActorError, ResponseDropped};
pub use event::ActorEvent;
pub use handler::Handler;
pub use mailbox::Mailbox;
pub use stateful_p2p_codec::{TooManyOps, max_payload_size, no_payload_is_longer};
pub use stateful_p2p_tables::ActorOut;
pub use stateful_types::{Request, Response};
pub use subscriber::Subscriber;
