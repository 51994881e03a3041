//! The probe: a sync floor from enough peers' replies.
//!
//! A node that begins late syncs to a finalized block, its floor. It can't ask one peer for it,
//! since that peer may lie, or may be far behind. So it asks all participants of an epoch for their
//! latest finalizations, and takes the highest of the first replies once there is one more of them
//! than participants may be faulty. Then at least one reply is an honest participant's, and the
//! floor is no earlier than that.
//!
//! A [`Probe`] is a machine without threads: one event is one call of [`Probe::step`], and what it
//! answers is to be done by the caller. It has two phases. In discovery it answers subscriptions
//! with a floor, once there is one. Once the node's own finalizations are attached and nobody
//! waits, it serves the latest of these to peers that ask.
#![tactic(auto)]

mod discovery;
mod error;
mod event;
mod mailbox;
mod probe;
mod reply;
mod schemes;
mod service;
mod state;
mod subscribers;
mod wire;

pub use error::ProbeError;
pub use event::{Event, Out, ProbeEvent, ProbeOut};
pub use mailbox::Mailbox;
pub use probe::{Config, Probe};
pub use stateful_probe_sample::Sample;
pub use wire::{Message, Tag};
